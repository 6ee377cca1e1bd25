// A place of the table: one record of the site, or none.
ghost use Rattle.std.specs.Prelude.{◌≡◌};
ghost use Rattle.site.specs.Filling.{drained};
ghost use Rattle.site.specs.Loader.{leaf_node};
ghost use Rattle.site.specs.Measures.{own_in};

/// A record with its own volume and its water, in litres. A merge also has the first record number of its
/// right side, and the leaf on each side where water that spills over its saddle lands.
// A merge names its sides by numbers, and no `Box`: the tree lies in one table of fixed size, in the order of the file.
#[derive(Clone, Copy, Debug, PartialEq, Eq)]
pub enum Node {
    // A case of its own, and no `Option` round the others: places and records are handed out as one slice.
    Unused,
    Basin {
        own: u64,
        water: u64,
    },
    Outlet {
        water: u64,
    },
    Merge {
        own: u64,
        water: u64,
        cut: u16,
        left: u16,
        right: u16,
    },
}

impl Node {
    // Is it a leaf?
    pub(crate) fn is_leaf(&self) -> bool
        ensures { result ≡ leaf_node self.now }
    {
        matches!(self, Node::Basin { .. } | Node::Outlet { .. })
    }

    // Its own volume.
    pub(crate) fn own_volume(&self) -> u64
        ensures { result ≡ own_in self.now }
    {
        match self {
            Node::Basin { own, .. } | Node::Merge { own, .. } => *own,
            Node::Outlet { .. } | Node::Unused => 0,
        }
    }

    // The water that an outlet has taken; of any other record 0.
    pub(crate) fn drained_water(&self) -> u64
        ensures { result ≡ drained self.now }
    {
        match self {
            Node::Outlet { water } => *water,
            Node::Unused | Node::Basin { .. } | Node::Merge { .. } => 0,
        }
    }
}

/// What the loader keeps of a subtree that waits for its merge: its first record number, and its outlets.
#[derive(Clone, Copy, Default)]
pub struct Summary {
    pub first: u16,
    pub outlets: u16,
}

/// What is seen of a subtree: whether it is full, all the water in it, and the level over the leaf in question.
#[derive(Clone, Copy, Default)]
pub struct Survey {
    pub full: bool,
    pub held: u64,
    pub level: u64,
}
