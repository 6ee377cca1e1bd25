// The order in which a number's bytes stand: both directions, each undoing the other.
ghost use Rattle.std.specs.Prelude.{◌≡◌, ℕ, ◌^◌, ◌<◌, List, length};
ghost use Rattle.byte_order.specs.Bytes.{Bytes, big, big_bytes, little, little_bytes};
ghost use Rattle.byte_order.specs.Spelling.{little_there, little_back, little_width, little_spelled, little_below, big_there, big_back, big_width, big_spelled, big_below};

use crate::number::Number;

// A byte order reads a number from its bytes and writes it back to them.
pub trait ByteOrder {
    // The number that bytes spell.
    ghost number: { List ℕ → ℕ };

    // The bytes, so many of them, that spell a number.
    ghost spelling: { ℕ → ℕ → List ℕ };

    // The number in a field of its width.
    fn read<N: Number>(field: N::Bytes) -> N
        ensures answer { N.value result ≡ number (N.listed field) };

    // The bytes of a number.
    fn write<N: Number>(n: N) -> N::Bytes
        ensures answer { N.listed result ≡ spelling N.width (N.value n) };

    // A number that so many bytes can spell comes back from them.
    ghost there: { (width n : ℕ) → n < 256 ^ width → number (spelling width n) ≡ n };

    // Bytes come back from the number that they spell.
    ghost back: { (bs : List ℕ) → Bytes bs → spelling (length bs) (number bs) ≡ bs };

    // There are as many bytes as were asked for.
    ghost width: { (width n : ℕ) → length (spelling width n) ≡ width };

    // What a number is spelled by are bytes.
    ghost spelled: { (width n : ℕ) → Bytes (spelling width n) };

    // So many bytes spell no larger number.
    ghost below: { (bs : List ℕ) → Bytes bs → number bs < 256 ^ length bs };
}

// The least significant byte stands first.
#[derive(Clone, Copy)]
pub struct LittleEndian;

// What the little-endian readers and writers of each number do.
impl ByteOrder for LittleEndian {
    ghost number = { little };

    ghost spelling = { little_bytes };

    ghost there = { little_there };

    ghost back = { little_back };

    ghost width = { little_width };

    ghost spelled = { little_spelled };

    ghost below = { little_below };

    fn read<N: Number>(field: N::Bytes) -> N {
        N::from_le_bytes(field)
    }

    fn write<N: Number>(n: N) -> N::Bytes {
        n.to_le_bytes()
    }
}

// The most significant byte stands first.
#[derive(Clone, Copy)]
pub struct BigEndian;

// What the big-endian readers and writers of each number do.
impl ByteOrder for BigEndian {
    ghost number = { big };

    ghost spelling = { big_bytes };

    ghost there = { big_there };

    ghost back = { big_back };

    ghost width = { big_width };

    ghost spelled = { big_spelled };

    ghost below = { big_below };

    fn read<N: Number>(field: N::Bytes) -> N {
        N::from_be_bytes(field)
    }

    fn write<N: Number>(n: N) -> N::Bytes {
        n.to_be_bytes()
    }
}
