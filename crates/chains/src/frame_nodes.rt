//! The nodes of a frame, made of what was gathered.
ghost use Rattle.std.specs.Prelude.{◌≡◌, ◌<◌, IfOk, length, map};
ghost use Rattle.catalogue.specs.Ids.{Ascend};
ghost use Rattle.verdicts.specs.Indices.{AreIndexed};
ghost use Rattle.chains.specs.FrameIndices.{AreNodesOf, IsNodeAt};

use crate::frames::FrameNode;
use listings::{Gathered, givers_at};
use mcs_reader::{Id, NoMemory};
use requisites::Rows;
use std::alloc::Global;

/// Makes the nodes of some ids, by what was gathered of each.
pub(crate) fn frame_nodes(
    alloc: Global,
    ids: &[Id],
    all: &[Gathered],
    above: &Rows,
) -> Result<Vec<FrameNode>, NoMemory>
    requires ascend { Ascend ids.now }
    requires len { length all.now ≡ length ids.now }
    requires indexed { AreIndexed ids.now (map (λ g. g.above) all.now) above.now }
    ensures { IfOk result (λ nodes. AreNodesOf ids.now all.now (length ids.now) nodes.items) }
{
    let mut nodes = Vec::with_capacity(alloc, ids.len())?;
    for index in 0..ids.len() {
        nodes.push(node_at(alloc, ids, all, above, index)?)?;
    }
    Ok(nodes)
}

fn node_at(
    alloc: Global,
    ids: &[Id],
    all: &[Gathered],
    above: &Rows,
    index: usize,
) -> Result<FrameNode, NoMemory>
    requires ascend { Ascend ids.now }
    requires len { length all.now ≡ length ids.now }
    requires indexed { AreIndexed ids.now (map (λ g. g.above) all.now) above.now }
    requires within { index < length ids.now }
    ensures { IfOk result (λ node. IsNodeAt ids.now all.now above.now index node) }
{
    let givers = givers_at(alloc, ids, all, above, index)?;
    let entry = &all[index].entry;
    Ok(FrameNode {
        id: ids[index],
        catalogued: entry.is_catalogued(),
        fmids: entry.fmids().copy()?,
        needs: entry.needs_in_order(alloc)?,
        conds: entry.conds().copy()?,
        givers,
    })
}
