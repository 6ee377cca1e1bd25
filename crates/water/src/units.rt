// What calls are given and answer in.
ghost use Rattle.std.specs.Prelude.{Some as Just, decimal};

use std::fmt;

/// A record number that a caller names as a leaf. Any number can be named; a call refuses what is no leaf.
#[derive(Clone, Copy, Debug, PartialEq, Eq, PartialOrd, Ord)]
pub struct Leaf(pub u64);

/// Water in whole litres.
#[derive(Clone, Copy, Debug, PartialEq, Eq, PartialOrd, Ord)]
pub struct Litres(pub u64);

/// Litres are told as their number.
impl fmt::Display for Litres {
    ghost output = { λ litres. Just (decimal litres.0) };

    fn fmt<W: fmt::Write>(&self, f: &mut fmt::Formatter<W>) -> fmt::Result {
        write!(f, "{}", self.0)
    }
}

/// What a site reports of its water: all accepted rain, what the outlet has taken, and all that was pumped.
#[derive(Clone, Copy, Debug, PartialEq, Eq)]
pub struct Totals {
    pub accepted: Litres,
    pub outflow: Litres,
    pub pumped: Litres,
}
