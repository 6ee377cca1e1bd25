// Where the records of a site stand in its table.
ghost use Rattle.std.specs.Prelude.{◌≡◌, ◌+◌};
ghost use Rattle.questions.specs.Ask.{first_no, verdict};
ghost use Rattle.water.specs.Calls.{level_questions};
ghost use Rattle.water.specs.Tree.{size};

use super::Site;
use water::{Leaf, Refusal};

impl Site {
    // The place of the topmost record, which is the last.
    pub(crate) fn top(&self) -> usize
        ensures { result + 1 ≡ size self.now.tree }
    {
        self.table.count() - 1
    }

    // The place of a leaf, or that there is none of this number.
    pub(crate) fn leaf_place(&self, leaf: Leaf) -> Result<usize, Refusal>
        ensures { result ≡ verdict (first_no (level_questions leaf self.now)) leaf.0 }
    {
        // By `as`: 64 bits have no `From` to `usize`, and `try_from` would add an error that cannot come.
        let place = leaf.0 as usize;
        let count = self.table.count();
        if !self.table.has_leaf(place, 0..count) {
            return Err(Refusal::NoLeaf { leaf });
        }
        Ok(place)
    }
}
