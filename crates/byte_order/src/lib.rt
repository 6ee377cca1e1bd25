// Numbers in bytes: the two byte orders, and the editions of the terrain format that build on them.
#![tactic(auto)]

// Numbers of a fixed width.
mod number;
// The order in which a number's bytes stand.
mod order;
// What differs from edition to edition.
mod edition;

pub use edition::{Edition, Edition1, Edition2};
pub use number::Number;
pub use order::{BigEndian, ByteOrder, LittleEndian};
