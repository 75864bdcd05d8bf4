//! The marked node from which each node is reached first.
ghost use Rattle.std.specs.Prelude.{◌≡◌, ◌↔◌, ℕ, [], ◌∷◌, length, true, IfOk, OnOk, vec_len};
ghost use Rattle.requisites.specs.Sources.{AreLeastSources, HasSource, source_of};
ghost use Rattle.requisites.specs.Spread.{AreClosed, SourcesSpread, SourcesTaken};

use crate::nodes::is_marked;
use crate::{NoMemory, Rows};
use std::alloc::Global;

/// Finds for each node its source: the least marked node from which a list of links leads to it,
/// directly or through others. It is `None` if no marked node leads there.
///
/// It takes time in proportion to the marks and the links.
///
/// # Errors
///
/// `NoMemory` if memory ran out.
pub fn least_sources(
    alloc: Global,
    lists: &Rows,
    marks: &[bool],
) -> Result<Vec<Option<usize>>, NoMemory>
    ensures sources { IfOk result (λ sources. AreLeastSources lists.now marks.now sources.items) }
    ensures len { IfOk result (λ sources. vec_len sources ≡ length marks.now) }
{
    let mut sources = vec![in alloc; None; marks.len()]?;
    spread_all(alloc, &mut sources, lists, marks)?;
    Ok(sources)
}

fn spread_all(
    alloc: Global,
    sources: &mut [Option<usize>],
    lists: &Rows,
    marks: &[bool],
) -> Result<(), NoMemory>
    requires len { length sources.old ≡ length marks.now }
    requires none { (q : ℕ) → source_of sources.old q ≡ None }
    ensures { OnOk result (AreLeastSources lists.now marks.now sources.new) }
{
    let mut work = Vec::new(alloc);
    for start in 0..marks.len() {
        if is_marked(marks, start) {
            spread(sources, &mut work, lists, start)?;
        }
    }
    Ok(())
}

/// Makes `start` the source of each node that has none yet and to which a list leads from `start`.
pub(crate) fn spread(
    sources: &mut [Option<usize>],
    work: &mut Vec<usize>,
    lists: &Rows,
    start: usize,
) -> Result<(), NoMemory>
    requires closed { AreClosed lists.now sources.old work.old.items }
    requires idle { work.old.items ≡ [] }
    ensures spread { OnOk result (SourcesSpread lists.now start sources.old sources.new) }
    ensures closed { OnOk result (AreClosed lists.now sources.new []) }
    ensures idle { OnOk result (work.new.items ≡ []) }
{
    take_row(sources, work, &[start], start)?;
    while let Some(node) = work.pop() {
        take_row(sources, work, lists.row(node), start)?;
    }
    Ok(())
}

// Gives the source to each node of a row that has none yet, and puts these nodes to the work.
fn take_row(
    sources: &mut [Option<usize>],
    work: &mut Vec<usize>,
    row: &[usize],
    source: usize,
) -> Result<(), NoMemory>
    ensures { OnOk result
        (SourcesTaken row.now source sources.old sources.new work.old.items work.new.items) }
{
    for node in row {
        take_node(sources, work, *node, source)?;
    }
    Ok(())
}

fn take_node(
    sources: &mut [Option<usize>],
    work: &mut Vec<usize>,
    node: usize,
    source: usize,
) -> Result<(), NoMemory>
    ensures { OnOk result
        (SourcesTaken (node ∷ []) source sources.old sources.new work.old.items work.new.items) }
{
    if node < sources.len() && source_at(sources, node).is_none() {
        sources[node] = Some(source);
        work.push(node)?;
    }
    Ok(())
}

/// The source of a node in the answer of [`least_sources`]; `None` if it has none.
pub fn source_at(sources: &[Option<usize>], node: usize) -> Option<usize>
    ensures { result ≡ source_of sources.now node }
{
    sources.get(node).copied().flatten()
}

/// Whether a node has a source in the answer of [`least_sources`].
pub fn has_source(sources: &[Option<usize>], node: usize) -> bool
    ensures { (result ≡ true) ↔ HasSource sources.now node }
{
    source_at(sources, node).is_some()
}
