// One record more on the tree that is being loaded.
ghost use Rattle.std.specs.Prelude.{◌≡◌, ◌+◌, ◌^◌, ◌<◌, ◌&&◌, true, ◌∷◌, is_ok, slice_set};
ghost use Rattle.site.specs.Loader.{Grew, end_seen, landings_refused, leaf_among, leaf_question};
ghost use Rattle.questions.specs.Ask.{first_no, verdict};
ghost use Rattle.terrain.specs.declared.record.Kind.TheVariants.{Merge};

use crate::loading::Loading;
use crate::node::{Node, Summary};
use terrain::{Kind, Record, Refusal};

/// A record that was read, and the place in the file where it starts.
#[derive(Clone, Copy)]
pub(crate) struct Placed {
    pub(crate) said: Record,
    pub(crate) at: usize,
    ghost fits: { at + 8 < 2 ^ 64 },
}

impl Placed {
    // Refuses its landings.
    fn landings_refused(&self) -> Refusal
        ensures { result ≡ landings_refused self.now.said self.now.at }
    {
        Refusal::Landings {
            left: self.said.left,
            right: self.said.right,
            at: self.at + 2,
        }
    }

    // Leaves have landings 0.
    fn leaf_landings(&self) -> Result<(), Refusal>
        ensures { result ≡ verdict (first_no (leaf_question self.now.said self.now.at)) tt }
    {
        match (self.said.left, self.said.right) {
            (0, 0) => Ok(()),
            _ => Err(self.landings_refused()),
        }
    }
}

impl Loading<'_> {
    // Does a merge of two sides land on a leaf of each?
    fn lands(&self, said: &Record, left: Summary, right: Summary) -> bool
        ensures { result ≡ (leaf_among self.now.table.nodes said.now.left left.first right.first && leaf_among self.now.table.nodes said.now.right right.first self.now.table.count) }
    {
        let table = &self.table;
        let cut = usize::from(right.first);
        let on_left = table.has_leaf(usize::from(said.left), usize::from(left.first)..cut);
        let on_right = table.has_leaf(usize::from(said.right), cut..table.count());
        on_left && on_right
    }

    // A merge joins the two subtrees that were finished last.
    fn merge(&mut self, placed: &Placed) -> Result<(), Refusal>
        requires is_merge { placed.now.said.kind ≡ Merge }
        requires place { self.old.table.count < 1023 }
        ensures { Grew self.old self.new placed.now.said placed.now.at result }
    {
        let Placed { said, at } = *placed;
        let waiting = self.waiting.len();
        let (Some(right), Some(left)) = (self.waiting.pop(), self.waiting.pop()) else {
            return Err(Refusal::Waiting { waiting, at });
        };
        if !self.lands(&said, left, right) {
            return Err(placed.landings_refused());
        }
        let outlets = left.outlets.saturating_add(right.outlets);
        if outlets > 0 && said.own != 0 {
            return Err(Refusal::OpenVolume {
                volume: said.own,
                at: at + 8,
            });
        }
        self.table.add(Node::Merge {
            own: said.own,
            water: 0,
            cut: right.first,
            left: said.left,
            right: said.right,
        });
        // There is room: two have just been taken off.
        self.waiting
            .push(Summary {
                first: left.first,
                outlets,
            })
            .unwrap();
        Ok(())
    }

    // A leaf is a subtree of its own.
    fn leaf(&mut self, placed: &Placed, node: Node, outlets: u16) -> Result<(), Refusal>
        requires { self.old.table.count < 1023 }
        ensures answer { result ≡ verdict (first_no (leaf_question placed.now.said placed.now.at)) tt }
        ensures table { is_ok result ≡ true → self.new.table ≡ record { nodes = slice_set self.old.table.nodes self.old.table.count node; count = self.old.table.count + 1 } }
        ensures waiting { is_ok result ≡ true → self.new.waiting.items ≡ record { first = self.old.table.count; outlets = outlets } ∷ self.old.waiting.items }
    {
        placed.leaf_landings()?;
        // `as` of a count below 1,023: `try_from` would add an error that cannot come.
        let first = self.table.count() as u16;
        self.table.add(node);
        // There is room: fewer subtrees wait than there are records now.
        self.waiting.push(Summary { first, outlets }).unwrap();
        Ok(())
    }

    /// Asks the tree's questions of a record, and puts it into the table. That a place is left is no invariant: it ends
    /// with the last record.
    pub(crate) fn grow(&mut self, placed: &Placed) -> Result<(), Refusal>
        requires { self.old.table.count < 1023 }
        ensures { Grew self.old self.new placed.now.said placed.now.at result }
    {
        match placed.said.kind {
            Kind::Merge => self.merge(placed),
            Kind::Basin => {
                let own = placed.said.own;
                self.leaf(placed, Node::Basin { own, water: 0 }, 0)
            }
            Kind::Outlet => self.leaf(placed, Node::Outlet { water: 0 }, 1),
        }
    }

    /// Asks, after the last record, whether one subtree is left and whether it has one outlet.
    pub(crate) fn one_tree(&self, at: usize) -> Result<(), Refusal>
        ensures { result ≡ verdict (first_no (end_seen at self.now.waiting.items)) tt }
    {
        let waiting = self.waiting.len();
        if waiting != 1 {
            return Err(Refusal::Subtrees { waiting, at });
        }
        let outlets = self.waiting.top().map_or(0, |newest| newest.outlets);
        if outlets != 1 {
            return Err(Refusal::Outlets { outlets, at });
        }
        Ok(())
    }
}
