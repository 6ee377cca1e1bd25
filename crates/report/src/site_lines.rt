// The text of a site: a first line on its file, a line for each record, and a last line on the whole.
ghost use Rattle.report.specs.SiteLines.{node_line, node_lines, site_text};
ghost use Rattle.std.specs.Prelude.{Some};

use site::Node;
use std::fmt;
use terrain::EditionName;

// A record under its index.
#[derive(Clone, Copy)]
struct NodeLine<'a> {
    index: usize,
    node: &'a Node,
}

// The line on one record.
impl fmt::Display for NodeLine<'_> {
    ghost output = { λ line. Some (node_line line.index line.node.now) };

    fn fmt<W: fmt::Write>(&self, f: &mut fmt::Formatter<W>) -> fmt::Result {
        let index = self.index;
        match self.node {
            Node::Unused => writeln!(f, "{index} unused"),
            Node::Basin { own, .. } => writeln!(f, "{index} basin {own}"),
            Node::Outlet { .. } => writeln!(f, "{index} outlet"),
            Node::Merge {
                own,
                left,
                right,
                ..
            } => writeln!(f, "{index} merge {own} landings {left} {right}"),
        }
    }
}

// The records of a site in order.
#[derive(Clone, Copy)]
struct NodeLines<'a>(&'a [Node]);

// A line for each record.
impl fmt::Display for NodeLines<'_> {
    ghost output = { λ lines. Some (node_lines 0 lines.0.now) };

    fn fmt<W: fmt::Write>(&self, f: &mut fmt::Formatter<W>) -> fmt::Result {
        for (index, node) in self.0.iter().enumerate() {
            NodeLine { index, node }.fmt(f)?;
        }
        Ok(())
    }
}

/// What there is to tell of an accepted file: its edition and note, and the records of its site with their total volume
/// and the height of their tree.
#[derive(Clone, Copy)]
pub(crate) struct SiteLines<'a> {
    pub(crate) edition: EditionName,
    pub(crate) note: usize,
    pub(crate) nodes: &'a [Node],
    pub(crate) volume: u64,
    pub(crate) height: u16,
}

// All lines of a site.
impl fmt::Display for SiteLines<'_> {
    ghost output = { λ s. Some (site_text s.edition s.note s.nodes.now s.volume s.height) };

    fn fmt<W: fmt::Write>(&self, f: &mut fmt::Formatter<W>) -> fmt::Result {
        let SiteLines {
            edition,
            note,
            nodes,
            volume,
            height,
        } = *self;
        let count = nodes.len();
        let lines = NodeLines(nodes);
        writeln!(f, "ok edition {edition} note {note} records {count}")?;
        writeln!(f, "{lines}volume {volume} height {height}")
    }
}
