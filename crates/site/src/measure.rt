// Sums and heights, in one pass over the records.
ghost use Rattle.std.specs.Prelude.{◌≡◌, ◌^◌, ◌<◌, ◌≤◌, [], length};
ghost use Rattle.site.specs.Measures.{drained_sum, heights, heights_after, joined_heights, newest_height, own_sum};

use crate::node::Node;
use crate::table::PLACES;
use stack::Stack;

/// The sum of the own volumes.
pub(crate) fn total_volume(nodes: &[Node]) -> u64
    requires { own_sum nodes.now < 2 ^ 64 }
    ensures { result ≡ own_sum nodes.now }
{
    nodes.iter().map(Node::own_volume).sum()
}

/// The sum of what the outlets have taken.
pub(crate) fn total_outflow(nodes: &[Node]) -> u64
    requires { drained_sum nodes.now < 2 ^ 64 }
    ensures { result ≡ drained_sum nodes.now }
{
    nodes.iter().map(Node::drained_water).sum()
}

// A merge takes the place of the two newest subtrees, if there are two.
fn join_heights(waiting: &mut Stack<'_, u16>)
    ensures items { waiting.new.items ≡ joined_heights waiting.old.items }
    ensures room { waiting.new.room ≡ waiting.old.room }
{
    let Some(right) = waiting.pop() else {
        return;
    };
    let Some(left) = waiting.pop() else {
        waiting.push(right).unwrap();
        return;
    };
    waiting.push(left.max(right).saturating_add(1)).unwrap();
}

// One record more: a leaf is a subtree of height 0, a merge is one higher than the higher of its sides.
fn add_height(waiting: &mut Stack<'_, u16>, node: &Node)
    requires { length waiting.old.items < waiting.old.room }
    ensures items { waiting.new.items ≡ heights_after node.now waiting.old.items }
    ensures room { waiting.new.room ≡ waiting.old.room }
{
    match node {
        Node::Unused => {}
        Node::Basin { .. } | Node::Outlet { .. } => {
            waiting.push(0).unwrap();
        }
        Node::Merge { .. } => join_heights(waiting),
    }
}

/// The most merges above any leaf.
pub(crate) fn tree_height(nodes: &[Node]) -> u16
    requires { length nodes.now ≤ 1023 }
    ensures { result ≡ newest_height (heights nodes.now []) }
{
    let mut slots = [0; PLACES];
    let mut waiting = Stack::new(&mut slots);
    for node in nodes {
        add_height(&mut waiting, node);
    }
    waiting.top().unwrap_or(0)
}
