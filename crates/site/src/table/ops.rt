// Filling a table, and looking into it.
ghost use Rattle.std.specs.Prelude.{◌≡◌, ◌+◌, ◌<◌, ◌≤◌, take, replicate, slice_set};
ghost use Rattle.site.specs.Held.{tabled};
ghost use Rattle.site.specs.Loader.{leaf_among};
ghost use Rattle.water.specs.Tree.{outlet};
ghost use Rattle.site.specs.declared.node.Node.TheVariants.{Unused};

use super::{PLACES, Table};
use crate::node::Node;
use std::ops::Range;

impl Table {
    // A table with every place unused.
    pub(crate) fn unused() -> Table
        ensures nodes { result.nodes ≡ replicate 1023 Unused }
        ensures count { result.count ≡ 0 }
    {
        Table {
            nodes: [Node::Unused; PLACES],
            count: 0,
        }
    }

    // The outlet alone, dry, in the first of 1,023 unused places.
    pub(crate) fn lone_outlet() -> Table
        ensures { result ≡ tabled (outlet 0 0) }
    {
        let mut nodes = [Node::Unused; PLACES];
        nodes[0] = Node::Outlet { water: 0 };
        Table { nodes, count: 1 }
    }

    // Puts a record into the next place.
    pub(crate) fn add(&mut self, node: Node)
        requires { self.old.count < 1023 }
        ensures nodes { self.new.nodes ≡ slice_set self.old.nodes self.old.count node }
        ensures count { self.new.count ≡ self.old.count + 1 }
    {
        self.nodes[self.count] = node;
        self.count += 1;
    }

    // How many places are used.
    pub(crate) fn count(&self) -> usize
        ensures { result ≡ self.now.count }
    {
        self.count
    }

    // The records that are used.
    pub(crate) fn used(&self) -> &[Node]
        requires { self.now.count ≤ 1023 }
        ensures { result.now ≡ take self.now.count self.now.nodes }
    {
        &self.nodes[..self.count]
    }

    // Is the record at a place, if that is among the places, a leaf?
    pub(crate) fn has_leaf(&self, place: usize, places: Range<usize>) -> bool
        ensures { result ≡ leaf_among self.now.nodes place places.start places.end }
    {
        places.contains(&place) && self.nodes.get(place).is_some_and(Node::is_leaf)
    }
}
