// The terrain file format: what a file says, and why one is refused.
#![tactic(auto)]

// Why a file is refused.
mod refusal;
// Where a reader stands, and a guard that puts it back.
mod place;
// What the last 12 bytes say.
mod trailer;
// What the bytes of a record say.
mod record;
// Going over a file as it was handed in.
mod reader;

pub use reader::Reader;
pub use record::{Kind, Record, UnknownKind};
pub use refusal::Refusal;
pub use trailer::{EditionName, MOST_RECORDS, TRAILER_LEN, Trailer, UnknownEdition};
