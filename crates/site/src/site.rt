// A site: the table of its records with their water, and the sums of its calls.
use crate::table::Table;
use std::marker::Model;

/// The records of a site with their water, the litres of accepted rain and of accepted pumping.
#[derive(Drop)]
pub struct Site {
    table: Table,
    accepted: u64,
    pumped: u64,
}

// A contract sees the tree with the water in it and the sums.
impl Model for Site {
    ghost use Rattle.water.specs.Code.{state_code};
    ghost use Rattle.water.specs.State.{State};

    ghost Value = { State };

    ghost coded = { state_code };

    ghost use Rattle.site.specs.Held.{Held};
    ghost use Rattle.site.specs.Shows.{shown};

    ghost view = { λ a. shown a.table a.accepted a.pumped };

    ghost invariant = { λ a. Held a.table a.accepted a.pumped };
}

// The site that there is before any file is loaded.
mod fresh;

// Loading a file.
mod load;

// Asking what it is made of.
mod shape;

// Where its records stand.
mod places;

// Rain.
mod rain;

// Asking for the level over a leaf.
mod level;

// Reporting the sums.
mod totals;
