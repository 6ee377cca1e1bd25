// The editions of the terrain format: what differs from one to the next, and nothing else.
ghost use Rattle.std.specs.Prelude.{◌≡◌, ℕ, ◌^◌, ◌<◌, ◌≤◌, List, length};
ghost use Rattle.byte_order.specs.Bytes.{Bytes, little, big};
ghost use Rattle.byte_order.specs.Volume.{volume_in, volume_width};
ghost use Rattle.byte_order.specs.Spelling.{little_below, big_below};
ghost use Rattle.byte_order.specs.Volumes.{volume_below};
ghost use Rattle.std.proofs.Common.{arith, rules};

use crate::order::{BigEndian, ByteOrder, LittleEndian};

// An edition is a byte order with its digit and the length of its records.
pub trait Edition: ByteOrder {
    // The digit in a file's trailer that names the edition.
    const DIGIT: u8;

    // The same, for clauses.
    ghost DIGIT: { ℕ };

    // How many bytes a record has.
    const RECORD_LEN: usize;

    // The same, for clauses.
    ghost RECORD_LEN: { ℕ };

    // The number in a record's volume field, if the field has this edition's width. Two bodies of one shape: a single one
    // would need an array of a computed length, or two more conversions on each width of number.
    fn volume(field: &[u8]) -> Option<u64>
        ensures answer { result ≡ volume_in Self.number RECORD_LEN field.now };

    // A record has room for the eight bytes before its volume.
    ghost least: { 8 ≤ RECORD_LEN };

    // A volume has eight bytes at most.
    ghost most: { RECORD_LEN ≤ 16 };

    // So every volume is a number of 64 bits.
    ghost fits: { (bs : List ℕ) → Bytes bs → length bs ≡ volume_width RECORD_LEN → Self.number bs < 2 ^ 64 };
}

// Edition 1, of the old client: little-endian, with volumes of four bytes.
pub type Edition1 = LittleEndian;

// A volume is read as four bytes and widened.
impl Edition for LittleEndian {
    const DIGIT: u8 = b'1';

    const RECORD_LEN: usize = 12;

    ghost DIGIT = { 49 };

    ghost RECORD_LEN = { 12 };

    ghost least = { Prim.search rules };

    ghost most = { Prim.search rules };

    ghost fits = { volume_below little little_below 12 (Prim.omega arith) };

    fn volume(field: &[u8]) -> Option<u64> {
        let bytes = <[u8; 4]>::try_from(field).ok()?;
        Some(u64::from(Self::read::<u32>(bytes)))
    }
}

// Edition 2, of the new client: big-endian, with volumes of eight bytes.
pub type Edition2 = BigEndian;

// A volume is read as eight bytes.
impl Edition for BigEndian {
    const DIGIT: u8 = b'2';

    const RECORD_LEN: usize = 16;

    ghost DIGIT = { 50 };

    ghost RECORD_LEN = { 16 };

    ghost least = { Prim.search rules };

    ghost most = { Prim.search rules };

    ghost fits = { volume_below big big_below 16 (Prim.omega arith) };

    fn volume(field: &[u8]) -> Option<u64> {
        let bytes = <[u8; 8]>::try_from(field).ok()?;
        Some(Self::read::<u64>(bytes))
    }
}
