//! The SYSMODs that supersede some, directly or through others, read once.
ghost use Rattle.std.specs.Prelude.{◌≡◌, ℕ, List, Contains, IfOk, length, map};
ghost use Rattle.std.specs.BTreeMap.{keys, values};
ghost use Rattle.catalogue.specs.Content.{IsInOrder, superseders};
ghost use Rattle.catalogue.specs.Ids.{Ascend};
ghost use Rattle.catalogue.specs.View.{MayAsk, Tells};
ghost use Rattle.catalogue.specs.declared.fault.SourceFault.TheVariants.{Device};
ghost use Rattle.chains.specs.Climbs.{AreListed};
ghost use Rattle.verdicts.specs.Indices.{AreIndexed};
ghost use Rattle.zone_plans.specs.Climbs.{IsClimb, IsTurnedOf};

use catalogue::{Ids, Published, SourceFault};
use faults::NoMemory;
use listings::{ids_found, next_unread};
use mcs_reader::Id;
use requisites::{Rows, turned};
use std::alloc::Global;
use std::collections::BTreeMap;
use verdicts::{ascending, put_indices};

/// Some SYSMODs and all that supersede them, directly or through others, ascending.
#[derive(Debug, Drop)]
pub(crate) struct Climb {
    pub(crate) ids: Vec<Id>,
    // For each the indices of those that it supersedes directly.
    pub(crate) below: Rows,
}

/// Finds what supersedes these SYSMODs, directly or through others. It asks the source for each once.
pub(crate) fn climb_from<P: Published>(
    alloc: Global,
    source: &mut P,
    starts: &[Id],
) -> Result<Climb, SourceFault>
    ensures asks { MayAsk P.content_view Device source.old source.new result }
    ensures climb { IfOk result (λ climb. Tells P.content_view source.old source.new
        (λ content. IsClimb content climb.ids.items climb.below)) }
    ensures ascend { IfOk result (λ climb. Ascend climb.ids.items) }
    ensures starts { IfOk result
        (λ climb. (id : List ℕ) → Contains starts.now id → Contains climb.ids.items id) }
{
    let found = superseders_of(alloc, source, starts)?;
    Ok(by_indices(alloc, found)?)
}

// The SYSMODs that supersede each of these directly, and each of those, and so on.
fn superseders_of<P: Published>(
    alloc: Global,
    source: &mut P,
    starts: &[Id],
) -> Result<BTreeMap<Id, Ids>, SourceFault>
    ensures asks { MayAsk P.content_view Device source.old source.new result }
    ensures above { IfOk result (λ found. Tells P.content_view source.old source.new
        (λ content. values found ≡ map (superseders content) (keys found))) }
    ensures ordered { IfOk result (λ found. Tells P.content_view source.old source.new
        (λ content. (id : List ℕ) → Contains (keys found) id → IsInOrder content)) }
    ensures listed { IfOk result (λ found. AreListed (values found) (keys found)) }
    ensures starts { IfOk result
        (λ found. (id : List ℕ) → Contains starts.now id → Contains (keys found) id) }
{
    let mut found = BTreeMap::new(alloc);
    let mut order = Vec::from_slice(alloc, starts)?;
    let mut at = 0;
    while at < order.len() {
        let id = order[at];
        let above = direct_superseders(source, &id)?;
        order.extend_from_slice(above.as_slice())?;
        found.insert(id, above)?;
        at = next_unread(&found, &order, at + 1);
    }
    Ok(found)
}

// The SYSMODs that supersede one directly.
fn direct_superseders<P: Published>(source: &mut P, id: &Id) -> Result<Ids, SourceFault>
    ensures asks { MayAsk P.content_view Device source.old source.new result }
    ensures superseders { IfOk result (λ found. Tells P.content_view source.old source.new
        (λ content. found ≡ superseders content id.now)) }
    ensures ordered { IfOk result (λ found. Tells P.content_view source.old source.new
        (λ content. IsInOrder content)) }
{
    Ok(ascending(source.superseders(id)?))
}

fn by_indices(alloc: Global, found: BTreeMap<Id, Ids>) -> Result<Climb, NoMemory>
    ensures ids { IfOk result (λ climb. climb.ids.items ≡ keys found) }
    ensures ascend { IfOk result (λ climb. Ascend climb.ids.items) }
    ensures below { IfOk result (λ climb. IsTurnedOf climb.ids.items (values found) climb.below) }
{
    let ids = ids_found(alloc, &found)?;
    let lists = lists_found(alloc, found)?;
    let above = rows_of(alloc, &ids, &lists)?;
    let below = turned(alloc, &above, ids.len())?;
    Ok(Climb { ids, below })
}

// The lists that were read of them, in their order.
fn lists_found(alloc: Global, found: BTreeMap<Id, Ids>) -> Result<Vec<Ids>, NoMemory>
    ensures lists { IfOk result (λ lists. lists.items ≡ values found) }
    ensures len { IfOk result (λ lists. length lists.items ≡ length (keys found)) }
{
    found.into_values().collect(alloc)
}

// For each of the ids the indices of those that are listed for it.
fn rows_of(alloc: Global, ids: &[Id], lists: &[Ids]) -> Result<Rows, NoMemory>
    requires ascend { Ascend ids.now }
    requires len { length lists.now ≡ length ids.now }
    ensures { IfOk result (λ rows. AreIndexed ids.now lists.now rows) }
{
    let mut rows = Rows::new(alloc);
    let mut indices = Vec::new(alloc);
    for (index, list) in lists.iter().enumerate() {
        put_indices(&mut indices, ids, index + 1, list.as_slice())?;
        rows.push_row(&indices)?;
    }
    Ok(rows)
}
