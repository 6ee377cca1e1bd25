// The level of the water over a leaf.
ghost use Rattle.questions.specs.Ask.{FirstNo, first_no, refusal_in, verdict};
ghost use Rattle.std.specs.Prelude.{◌≡◌, IfOk};
ghost use Rattle.water.specs.Calls.{LevelIs, level_questions};
ghost use Rattle.water.specs.Level.{level as level_over};
ghost use Rattle.water.specs.State.{litres};

use super::Site;
use water::{Leaf, Litres, Refusal};

impl Site {
    /// The level over a leaf: the water in the topmost pool above it, and 0 over the outlet.
    pub fn level(&self, leaf: Leaf) -> Result<Litres, Refusal>
        ensures answer { result ≡ verdict (first_no (level_questions leaf self.now)) (litres (level_over leaf.0 self.now.tree)) }
        ensures first_no { FirstNo (level_questions leaf self.now) (refusal_in result) }
        ensures pool { IfOk result (λ v. LevelIs leaf.0 self.now.tree v.0) }
    {
        let place = self.leaf_place(leaf)?;
        let seen = self.table.survey(self.top(), place);
        Ok(Litres(seen.level))
    }
}
