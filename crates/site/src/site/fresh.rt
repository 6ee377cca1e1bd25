// The site that there is before any file is loaded.
ghost use Rattle.std.specs.Prelude.{◌≡◌};
ghost use Rattle.water.specs.State.{Standing, untouched};
ghost use Rattle.water.specs.Tree.{outlet};

use super::Site;
use crate::table::Table;

impl Site {
    /// The outlet alone, dry, in place 0.
    pub fn fresh() -> Site
        ensures state { result ≡ untouched (outlet 0 0) }
        ensures stands { Standing result }
    {
        Site {
            table: Table::lone_outlet(),
            accepted: 0,
            pumped: 0,
        }
    }
}
