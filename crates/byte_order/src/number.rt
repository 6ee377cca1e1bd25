// Numbers of a fixed width, by the bytes that spell them.
ghost use Rattle.std.specs.Prelude.{◌≡◌, ℕ, List};
ghost use Rattle.byte_order.specs.Bytes.{big, big_bytes, each, little, little_bytes};

// An unsigned number that a fixed count of bytes spells.
pub trait Number: Copy {
    // So many bytes.
    type Bytes: Copy;

    // How many bytes spell it.
    ghost width: { ℕ };

    // The number itself.
    ghost value: { Self → ℕ };

    // The bytes one after another.
    ghost listed: { Self.Bytes → List ℕ };

    // The number that bytes spell, the least significant first.
    fn from_le_bytes(field: Self::Bytes) -> Self
        ensures answer { value result ≡ little (listed field) };

    // The number that bytes spell, the most significant first.
    fn from_be_bytes(field: Self::Bytes) -> Self
        ensures answer { value result ≡ big (listed field) };

    // The bytes that spell it, the least significant first.
    fn to_le_bytes(self) -> Self::Bytes
        ensures answer { listed result ≡ little_bytes width (value self) };

    // The bytes that spell it, the most significant first.
    fn to_be_bytes(self) -> Self::Bytes
        ensures answer { listed result ≡ big_bytes width (value self) };
}

// The same bytes, told one by one, so that what they spell computes.
fn one_by_one<const N: usize>(field: [u8; N]) -> [u8; N]
    ensures { each N result ≡ field.entry }
{
    field
}

// An impl for each width, of one shape: the library has these functions for each type, and no macro of ours may write an
// impl. What is above is generic over the widths.
impl Number for u16 {
    type Bytes = [u8; 2];

    ghost width = { 2 };

    ghost value = { λ n. n };

    ghost listed = { λ bs. bs };

    fn from_le_bytes(field: [u8; 2]) -> u16 {
        u16::from_le_bytes(one_by_one(field))
    }

    fn from_be_bytes(field: [u8; 2]) -> u16 {
        u16::from_be_bytes(one_by_one(field))
    }

    fn to_le_bytes(self) -> [u8; 2] {
        u16::to_le_bytes(self)
    }

    fn to_be_bytes(self) -> [u8; 2] {
        u16::to_be_bytes(self)
    }
}

// Four bytes.
impl Number for u32 {
    type Bytes = [u8; 4];

    ghost width = { 4 };

    ghost value = { λ n. n };

    ghost listed = { λ bs. bs };

    fn from_le_bytes(field: [u8; 4]) -> u32 {
        u32::from_le_bytes(one_by_one(field))
    }

    fn from_be_bytes(field: [u8; 4]) -> u32 {
        u32::from_be_bytes(one_by_one(field))
    }

    fn to_le_bytes(self) -> [u8; 4] {
        u32::to_le_bytes(self)
    }

    fn to_be_bytes(self) -> [u8; 4] {
        u32::to_be_bytes(self)
    }
}

// Eight bytes.
impl Number for u64 {
    type Bytes = [u8; 8];

    ghost width = { 8 };

    ghost value = { λ n. n };

    ghost listed = { λ bs. bs };

    fn from_le_bytes(field: [u8; 8]) -> u64 {
        u64::from_le_bytes(one_by_one(field))
    }

    fn from_be_bytes(field: [u8; 8]) -> u64 {
        u64::from_be_bytes(one_by_one(field))
    }

    fn to_le_bytes(self) -> [u8; 8] {
        u64::to_le_bytes(self)
    }

    fn to_be_bytes(self) -> [u8; 8] {
        u64::to_be_bytes(self)
    }
}
