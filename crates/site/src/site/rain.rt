// Rain on a site.
ghost use Rattle.std.specs.Prelude.{◌≡◌, ◌+◌, ◌^◌, ◌≤◌, true, false, [], ◌∷◌, is_ok};
ghost use Rattle.questions.specs.Ask.{FirstNo, first_no, refusal_in, verdict};
ghost use Rattle.water.specs.Calls.{Rained, limit_question, rain_questions, rained_on};

use super::Site;
use water::{Leaf, Litres, RAIN_LIMIT, Refusal};

// All accepted rain with some litres more, if that is within the limit.
fn more_rain(accepted: u64, litres: Litres) -> Result<u64, Refusal>
    requires { accepted ≤ 2 ^ 60 }
    ensures { result ≡ verdict (first_no (limit_question litres accepted ∷ [])) (accepted + litres.0) }
{
    if litres.0 > RAIN_LIMIT - accepted {
        return Err(Refusal::RainLimit { litres });
    }
    Ok(accepted + litres.0)
}

impl Site {
    /// Lets litres fall at a leaf: what a basin has no room for spills over its saddle, and so on to the outlet. The
    /// work does not grow with the litres: no record is filled twice. Refused rain changes nothing.
    pub fn rain(&mut self, leaf: Leaf, litres: Litres) -> Result<(), Refusal>
        ensures answer { result ≡ verdict (first_no (rain_questions leaf litres self.old)) tt }
        ensures first_no { FirstNo (rain_questions leaf litres self.old) (refusal_in result) }
        ensures water { is_ok result ≡ true → self.new ≡ rained_on leaf litres self.old }
        ensures rained { is_ok result ≡ true → Rained leaf.0 litres.0 self.old self.new }
        ensures kept { is_ok result ≡ false → self.new ≡ self.old }
    {
        let at = self.leaf_place(leaf)?;
        let accepted = more_rain(self.accepted, litres)?;
        // Nothing leaves the site: its outlet takes what no other record has room for.
        let top = self.top();
        let _ = self.table.pour(top, at, litres.0);
        self.accepted = accepted;
        Ok(())
    }
}
