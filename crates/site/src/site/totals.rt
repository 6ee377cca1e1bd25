// What a site reports of its water.
ghost use Rattle.std.specs.Prelude.{◌≡◌, ◌+◌};
ghost use Rattle.water.specs.State.{Standing, totals as totals_of};
ghost use Rattle.water.specs.Water.{closed_water};

use super::Site;
use crate::measure::total_outflow;
use water::{Litres, Totals};

impl Site {
    /// All accepted rain, what the outlet has taken of it, and all that was pumped. No litre is lost or made: the
    /// rest of the rain stands in the closed records. And whatever the contracts say of a site, it is in a state that
    /// a site can be in.
    pub fn totals(&self) -> Totals
        ensures standing { Standing self.now }
        ensures answer { result ≡ totals_of self.now }
        ensures balance { closed_water self.now.tree + result.outflow.0 + result.pumped.0 ≡ result.accepted.0 }
    {
        Totals {
            accepted: Litres(self.accepted),
            outflow: Litres(total_outflow(self.table.used())),
            pumped: Litres(self.pumped),
        }
    }
}
