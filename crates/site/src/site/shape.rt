// What a site is made of: its records, their total volume and the height of its tree.
ghost use Rattle.site.specs.Records.{records};
ghost use Rattle.water.specs.Formed.{Numbered};
ghost use Rattle.water.specs.Tree.{Tree, height, volume};
ghost use Rattle.std.specs.Prelude.{◌≡◌};

use super::Site;
use crate::measure::{total_volume, tree_height};
use crate::node::Node;

impl Site {
    /// The records in order, numbered from 0. No other tree has these records.
    pub fn records(&self) -> &[Node]
        ensures answer { result.now ≡ records self.now.tree }
        ensures only { (t : Tree) → Numbered 0 t → records t ≡ result.now → t ≡ self.now.tree }
    {
        self.table.used()
    }

    /// The total of the own volumes, in litres.
    pub fn volume(&self) -> u64
        ensures { result ≡ volume self.now.tree }
    {
        total_volume(self.table.used())
    }

    /// The most merges above any leaf.
    pub fn height(&self) -> u16
        ensures { result ≡ height self.now.tree }
    {
        tree_height(self.table.used())
    }
}
