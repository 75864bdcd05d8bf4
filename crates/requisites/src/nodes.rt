//! Nodes, and what a zone and the catalogue say of each.
ghost use Rattle.std.specs.Prelude.{◌≡◌};
ghost use Rattle.requisites.specs.Nodes.{mark_of, row};

use crate::Rows;

/// Ids by their indices in an ascending list, with what a zone and the catalogue say of each.
///
/// If a list is too short for a node, the node has no mark, or no nodes are listed for it.
#[derive(Debug, Drop)]
pub struct Nodes {
    /// Whether the id may be installed.
    pub candidates: Vec<bool>,
    /// Whether the id is there already: it is listed, or an installed one gives it.
    pub there: Vec<bool>,
    /// The needs of the id. A need past the end of `candidates` is no node: nothing gives it, and it is
    /// there only if `there` is long enough to mark it.
    pub needs: Rows,
    /// The ids that the id supersedes.
    pub supersedes: Rows,
}

impl Nodes {
    pub(crate) fn is_candidate(&self, node: usize) -> bool
        ensures { result ≡ mark_of self.now.candidates.items node }
    {
        is_marked(&self.candidates, node)
    }

    pub(crate) fn is_there(&self, node: usize) -> bool
        ensures { result ≡ mark_of self.now.there.items node }
    {
        is_marked(&self.there, node)
    }

    pub(crate) fn needs_of(&self, node: usize) -> &[usize]
        ensures { result.now ≡ row self.now.needs node }
    {
        self.needs.row(node)
    }
}

/// Whether a node is marked. One past the end is not.
pub fn is_marked(marks: &[bool], node: usize) -> bool
    ensures { result ≡ mark_of marks.now node }
{
    marks.get(node).copied().unwrap_or(false)
}
