// A stack over a slice that the caller lends, for any item that can be copied.
#![tactic(auto)]

mod stack;

pub use stack::Stack;
