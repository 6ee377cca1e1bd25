// Rasters as text.
#![tactic(auto)]

// A map with a line for each row.
mod map;

pub use map::{Map, map_text};
