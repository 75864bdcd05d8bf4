//! The needs that requisites under conditions name, and those of them that a zone has.
ghost use Rattle.std.specs.Prelude.{◌≡◌, ◌++◌, ◌∷◌, [], ℕ, List, OnOk};
ghost use Rattle.catalogue.specs.Ids.{Ascend};
ghost use Rattle.supersede.specs.Giving.{each_need, needs_where};
ghost use Rattle.verdicts.specs.Indices.{AreIndicesOf};

use catalogue::CondNeed;
use mcs_reader::{Id, NoMemory};
use supersede::Zone;
use verdicts::index_of;

/// Adds the need of each, whatever the zone.
pub(crate) fn push_each_need(ids: &mut Vec<Id>, conds: &[CondNeed]) -> Result<(), NoMemory>
    ensures { OnOk result (ids.new.items ≡ ids.old.items ++ each_need conds.now) }
{
    for cond in conds {
        ids.push(cond.need)?;
    }
    Ok(())
}

/// Adds the indices of the needs of those whose function is installed in a zone.
pub(crate) fn push_indices_where(
    indices: &mut Vec<usize>,
    members: &[Id],
    zone: &Zone,
    conds: &[CondNeed],
) -> Result<(), NoMemory>
    requires { Ascend members.now }
    ensures { OnOk result ((ids : List (List ℕ)) → AreIndicesOf members.now ids indices.old.items
        → AreIndicesOf members.now (ids ++ needs_where zone.now conds.now) indices.new.items) }
{
    for cond in conds {
        push_index_where(indices, members, zone, cond)?;
    }
    Ok(())
}

/// Turns a list into that of the indices of all needs in a zone, given those that are needed in every
/// zone.
///
/// # Errors
///
/// `NoMemory` if memory ran out.
pub fn put_needs_where(
    indices: &mut Vec<usize>,
    always: &[usize],
    members: &[Id],
    zone: &Zone,
    conds: &[CondNeed],
) -> Result<(), NoMemory>
    requires { Ascend members.now }
    ensures { OnOk result ((ids : List (List ℕ)) → AreIndicesOf members.now ids always.now
        → AreIndicesOf members.now (ids ++ needs_where zone.now conds.now) indices.new.items) }
{
    indices.clear();
    indices.extend_from_slice(always)?;
    push_indices_where(indices, members, zone, conds)
}

fn push_index_where(
    indices: &mut Vec<usize>,
    members: &[Id],
    zone: &Zone,
    cond: &CondNeed,
) -> Result<(), NoMemory>
    requires { Ascend members.now }
    ensures { OnOk result ((ids : List (List ℕ)) → AreIndicesOf members.now ids indices.old.items
        → AreIndicesOf members.now (ids ++ needs_where zone.now (cond.now ∷ [])) indices.new.items) }
{
    if !zone.installed(&cond.fmid) {
        return Ok(());
    }
    if let Some(index) = index_of(members, &cond.need) {
        indices.push(index)?;
    }
    Ok(())
}
