// What a line of the console asks for.
use water::{Leaf, Litres};

/// A call on a site's water.
#[derive(Clone, Copy, Debug, PartialEq, Eq)]
pub enum Command {
    /// So many litres fall at a leaf.
    Rain { leaf: Leaf, litres: Litres },
    /// How much water stands over a leaf?
    Level { leaf: Leaf },
    /// How much rain was accepted, has left and was pumped?
    Totals,
}
