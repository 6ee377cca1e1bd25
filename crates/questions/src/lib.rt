// Questions in order, the first answered no, and what a refusal tells: the words that every check shares.
#![tactic(auto)]

// The part of a check that asks.
mod layer;
// What a refusal tells.
mod told;

pub use layer::Layer;
pub use told::{Refused, Told};
