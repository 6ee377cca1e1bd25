// Pouring water into the tree that a table holds.
ghost use Rattle.std.specs.Prelude.{◌≡◌, ◌+◌, ◌-◌, ◌^◌, ◌<◌, min, slice_index_or, slice_set};
ghost use Rattle.site.specs.Filling.{drained, filled_node, over_node};
ghost use Rattle.site.specs.Subtree.{PouredAt, Rooted, SidesFrom};
ghost use Rattle.site.specs.declared.node.Node.TheVariants.{Unused};

use super::Table;
use crate::node::Node;

// Adds what there is room for to the water, and answers the rest.
fn fill_room(own: u64, water: &mut u64, litres: u64) -> u64
    ensures water { water.new ≡ water.old + min litres (own - water.old) }
    ensures rest { result ≡ litres - (own - water.old) }
{
    let taken = litres.min(own.saturating_sub(*water));
    *water += taken;
    litres - taken
}

impl Node {
    // Takes what there is room for, and answers the rest.
    fn fill_up(&mut self, litres: u64) -> u64
        requires { drained self.old + litres < 2 ^ 64 }
        ensures water { self.new ≡ filled_node litres self.old }
        ensures rest { result ≡ over_node litres self.old }
    {
        match self {
            Node::Unused => litres,
            Node::Outlet { water } => {
                *water += litres;
                0
            }
            // Two arms, though alike: tried as one, where the `&mut` is one of two borrows, and the check makes no proof.
            Node::Basin { own, water } => fill_room(*own, water, litres),
            Node::Merge { own, water, .. } => fill_room(*own, water, litres),
        }
    }
}

// The tops of a merge's two sides in the order in which water comes to them, and where it lands in the second.
#[derive(Clone, Copy)]
struct Sides {
    first: usize,
    second: usize,
    landing: usize,
}

// `cut`, `left` and `right` are fields of a case of `Node`, which has no struct of its own for them.
// The side that has the leaf comes first; what it lets out goes to the merge's landing in the other.
fn sides_from(leaf: usize, root: usize, cut: u16, left: u16, right: u16) -> Sides
    requires has_left { 0 < cut }
    requires has_right { 0 < root }
    ensures { SidesFrom leaf root cut left right result.first result.second result.landing }
{
    let cut = usize::from(cut);
    let below_left = cut - 1;
    let below_right = root - 1;
    if leaf < cut {
        Sides {
            first: below_left,
            second: below_right,
            landing: usize::from(right),
        }
    } else {
        Sides {
            first: below_right,
            second: below_left,
            landing: usize::from(left),
        }
    }
}

impl Table {
    // Lends one record to the function that changes its water.
    fn fill_record(&mut self, at: usize, litres: u64) -> u64
        requires inside { at < 1023 }
        requires litres_fit { drained (slice_index_or self.old.nodes at Unused) + litres < 2 ^ 64 }
        ensures water { self.new.nodes ≡ slice_set self.old.nodes at (filled_node litres (slice_index_or self.old.nodes at Unused)) }
        ensures count { self.new.count ≡ self.old.count }
        ensures rest { result ≡ over_node litres (slice_index_or self.old.nodes at Unused) }
    {
        self.nodes[at].fill_up(litres)
    }

    // `place` is a clause of its own here and in `survey`: an index asks for a plain bound, and `Rooted` is only known to
    // hold of some tree.
    // Pours litres at a leaf of the subtree below `root`, and answers what leaves the subtree: the side that has the
    // leaf comes first, its excess lands in the other side, and what that lets out comes to the merge itself.
    pub(crate) fn pour(&mut self, root: usize, leaf: usize, litres: u64) -> u64
        requires place { root < 1023 }
        requires rooted { ∥ Rooted self.old.nodes root litres ∥₁ }
        ensures water { PouredAt self.old.nodes root leaf litres self.new.nodes result }
        ensures count { self.new.count ≡ self.old.count }
    {
        // Most rain finds room in the first side, and then the other one is not gone through.
        if litres == 0 {
            return 0;
        }
        let node = self.nodes[root];
        let Node::Merge {
            cut,
            left,
            right,
            ..
        } = node
        else {
            return self.fill_record(root, litres);
        };
        let sides = sides_from(leaf, root, cut, left, right);
        let spilled = self.pour(sides.first, leaf, litres);
        let rest = self.pour(sides.second, sides.landing, spilled);
        self.fill_record(root, rest)
    }
}
