// Going over the water of the tree that a table holds.
ghost use Rattle.std.specs.Prelude.{◌≡◌, ◌+◌, ◌^◌, ◌<◌};
ghost use Rattle.site.specs.Subtree.{Rooted, SurveyedAt};
ghost use Rattle.site.specs.Surveys.{joined};

use super::Table;
use crate::node::{Node, Survey};

impl Survey {
    // What is seen of a merge from its two sides, this one to the left: with both of them full it is one pool, else
    // the level is that of the side that has the leaf.
    fn joined(self, right: Survey, own: u64, water: u64, on_left: bool) -> Survey
        requires { self.held + right.held + water < 2 ^ 64 }
        ensures { result ≡ joined self right own water on_left }
    {
        let held = self.held + right.held + water;
        let pool = self.full && right.full;
        let side = if on_left { self.level } else { right.level };
        Survey {
            full: pool && water == own,
            held,
            level: if pool { held } else { side },
        }
    }
}

impl Table {
    // What is seen of the subtree below `root`, with the level over a leaf. Each record is visited once.
    pub(crate) fn survey(&self, root: usize, leaf: usize) -> Survey
        requires place { root < 1023 }
        requires rooted { ∥ Rooted self.now.nodes root 0 ∥₁ }
        ensures { SurveyedAt self.now.nodes root leaf result }
    {
        let node = self.nodes[root];
        match node {
            Node::Unused => Survey::default(),
            Node::Basin { own, water } => Survey {
                full: water == own,
                held: water,
                level: water,
            },
            Node::Outlet { water } => Survey {
                full: false,
                held: water,
                level: 0,
            },
            Node::Merge {
                own,
                water,
                cut,
                ..
            } => {
                let cut = usize::from(cut);
                let left = self.survey(cut - 1, leaf);
                let right = self.survey(root - 1, leaf);
                left.joined(right, own, water, leaf < cut)
            }
        }
    }
}
