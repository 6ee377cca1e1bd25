// What is kept while a file's records are loaded.
ghost use Rattle.std.specs.Prelude.{◌≡◌, ◌≤◌, length};

use crate::node::Summary;
use crate::table::{PLACES, Table};
use stack::Stack;

/// The table so far, and the subtrees that wait for their merge. No more of them wait than there are records, so each
/// finds room.
#[derive(Drop)]
pub(crate) struct Loading<'a> {
    pub(crate) table: Table,
    pub(crate) waiting: Stack<'a, Summary>,
    ghost room: { waiting.room ≡ 1023 },
    ghost few: { length waiting.items ≤ table.count },
}

impl<'a> Loading<'a> {
    ghost use Rattle.std.specs.Prelude.{[]};
    ghost use Rattle.site.specs.Building.{Building};

    // Nothing is loaded yet.
    pub(crate) fn new(slots: &'a mut [Summary; PLACES]) -> Loading<'a>
        ensures empty { result.table.count ≡ 0 }
        ensures built { Building result.table result.waiting.items [] }
    {
        Loading {
            table: Table::unused(),
            waiting: Stack::new(slots),
        }
    }
}
