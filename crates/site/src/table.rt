// The table of a site's records.
use crate::node::Node;
use terrain::MOST_RECORDS;

/// A table has a place for each record that a site can have.
// By `as`: the value of a constant may call no conversion.
pub const PLACES: usize = MOST_RECORDS as usize;

/// The records of a site in order, numbered from 0, and how many there are.
// An array and a count, and no `Vec`: the memory of a site is fixed, and nothing that loads or rains may allocate.
#[derive(Clone, Copy)]
pub struct Table {
    nodes: [Node; PLACES],
    count: usize,
}

// Filling a table while loading, and looking into it.
mod ops;

// Pouring water into it.
mod pour;

// Going over its water.
mod survey;
