//! The SYSMODs that supersede some, directly or through others, read once.
ghost use Rattle.std.specs.Prelude.{◌≡◌, ◌<◌, ℕ, List, Contains, IfOk, IfSome, length, map};
ghost use Rattle.std.specs.BTreeMap.{keys, values};
ghost use Rattle.catalogue.specs.Content.{Content, ids_of, superseders};
ghost use Rattle.catalogue.specs.Ids.{Ascend};
ghost use Rattle.catalogue.specs.View.{MayAsk, Tells};
ghost use Rattle.catalogue.specs.declared.fault.SourceFault.TheVariants.{Device};
ghost use Rattle.requisites.specs.Nodes.{AreReversed};
ghost use Rattle.chains.specs.Climbs.{AreAbove, AreListed};
ghost use Rattle.verdicts.specs.Indices.{AreIndexed};
ghost use Rattle.listings.specs.Marks.{IsAtHand, SaysOf};

use catalogue::{Ids, Published, SourceFault};
use listings::{Listing, ids_found, is_marked, next_unread};
use mcs_reader::{Id, NoMemory};
use requisites::{Rows, turned};
use std::alloc::Global;
use std::collections::BTreeMap;
use verdicts::{ascending, put_indices};

/// Some SYSMODs and all that supersede them, directly or through others, ascending.
#[derive(Debug, Drop)]
pub(crate) struct Climb {
    pub(crate) ids: Vec<Id>,
    // For each the indices of those that supersede it directly, and of those that it supersedes directly.
    pub(crate) above: Rows,
    pub(crate) below: Rows,
}

/// Finds what supersedes these SYSMODs, directly or through others. If a listing is at hand, it asks the
/// source only for ids that are marked in it. Else it asks the source for each SYSMOD once.
pub(crate) fn climb_from<P: Published>(
    alloc: Global,
    source: &mut P,
    listing: Option<&Listing>,
    marks: &[Id],
    starts: &[Id],
) -> Result<Climb, SourceFault>
    requires { Ascend marks.now }
    ensures asks { MayAsk P.content_view Device source.old source.new result }
    ensures above { IfOk result (λ climb. Tells P.content_view source.old source.new
        (λ content. IsAtHand content listing.entry marks.now
        → AreAbove content climb.ids.items climb.above)) }
    ensures ordered { IfOk result (λ climb. Tells P.content_view source.old source.new
        (λ content. IsAtHand content listing.entry marks.now
        → (id : List ℕ) → Contains starts.now id → Ascend (ids_of content))) }
    ensures ascend { IfOk result (λ climb. Ascend climb.ids.items) }
    ensures starts { IfOk result
        (λ climb. (id : List ℕ) → Contains starts.now id → Contains climb.ids.items id) }
    ensures rows { IfOk result (λ climb. length climb.above ≡ length climb.ids.items) }
    ensures turned { IfOk result (λ climb. AreReversed climb.above (length climb.ids.items) climb.below) }
{
    let found = superseders_of(alloc, source, listing, marks, starts)?;
    Ok(by_indices(alloc, found)?)
}

// The SYSMODs that supersede each of these directly, and each of those, and so on.
fn superseders_of<P: Published>(
    alloc: Global,
    source: &mut P,
    listing: Option<&Listing>,
    marks: &[Id],
    starts: &[Id],
) -> Result<BTreeMap<Id, Ids>, SourceFault>
    requires { Ascend marks.now }
    ensures asks { MayAsk P.content_view Device source.old source.new result }
    ensures above { IfOk result (λ found. Tells P.content_view source.old source.new
        (λ content. IsAtHand content listing.entry marks.now
        → values found ≡ map (superseders content) (keys found))) }
    ensures ordered { IfOk result (λ found. Tells P.content_view source.old source.new
        (λ content. IsAtHand content listing.entry marks.now
        → (id : List ℕ) → Contains (keys found) id → Ascend (ids_of content))) }
    ensures listed { IfOk result (λ found. AreListed (values found) (keys found)) }
    ensures starts { IfOk result
        (λ found. (id : List ℕ) → Contains starts.now id → Contains (keys found) id) }
{
    let mut found = BTreeMap::new(alloc);
    let mut order = Vec::from_slice(alloc, starts)?;
    let mut at = 0;
    while at < order.len() {
        let id = order[at];
        let above = direct_superseders(alloc, source, listing, marks, &id)?;
        order.extend_from_slice(above.as_slice())?;
        found.insert(id, above)?;
        at = next_unread(&found, &order, at + 1);
    }
    Ok(found)
}

// The SYSMODs that supersede one directly.
fn direct_superseders<P: Published>(
    alloc: Global,
    source: &mut P,
    listing: Option<&Listing>,
    marks: &[Id],
    id: &Id,
) -> Result<Ids, SourceFault>
    requires { Ascend marks.now }
    ensures asks { MayAsk P.content_view Device source.old source.new result }
    ensures superseders { IfOk result (λ found. Tells P.content_view source.old source.new
        (λ content. IsAtHand content listing.entry marks.now → found ≡ superseders content id.now)) }
    ensures ordered { IfOk result (λ found. Tells P.content_view source.old source.new
        (λ content. IsAtHand content listing.entry marks.now → Ascend (ids_of content))) }
{
    match that_says(listing, marks, id) {
        Some(listing) => Ok(listing.superseders(alloc, id)?),
        None => Ok(ascending(source.superseders(id)?)),
    }
}

/// The listing at hand, if it says what there is of an id: the id isn't marked.
pub(crate) fn that_says<'a>(
    listing: Option<&'a Listing>,
    marks: &[Id],
    id: &Id,
) -> Option<&'a Listing>
    requires { Ascend marks.now }
    ensures { (content : Content) → IsAtHand content listing.entry marks.now
        → IfSome result (λ listing. SaysOf content id.now listing.now) }
{
    if is_marked(marks, id) {
        return None;
    }
    listing
}

fn by_indices(alloc: Global, found: BTreeMap<Id, Ids>) -> Result<Climb, NoMemory>
    ensures ids { IfOk result (λ climb. climb.ids.items ≡ keys found) }
    ensures ascend { IfOk result (λ climb. Ascend climb.ids.items) }
    ensures indexed { IfOk result (λ climb. AreIndexed climb.ids.items (values found) climb.above) }
    ensures turned { IfOk result (λ climb. AreReversed climb.above (length climb.ids.items) climb.below) }
{
    let ids = ids_found(alloc, &found)?;
    let lists = lists_found(alloc, found)?;
    let above = rows_of(alloc, &ids, &lists)?;
    let below = turned(alloc, &above, ids.len())?;
    Ok(Climb { ids, above, below })
}

// The lists that were read of them, in their order.
fn lists_found(alloc: Global, found: BTreeMap<Id, Ids>) -> Result<Vec<Ids>, NoMemory>
    ensures lists { IfOk result (λ lists. lists.items ≡ values found) }
    ensures len { IfOk result (λ lists. length lists.items ≡ length (keys found)) }
{
    found.into_values().collect(alloc)
}

// For each of the ids the indices of those that are listed for it.
fn rows_of(alloc: Global, ids: &[Id], lists: &[Ids]) -> Result<Rows, NoMemory>
    requires ascend { Ascend ids.now }
    requires len { length lists.now ≡ length ids.now }
    ensures { IfOk result (λ rows. AreIndexed ids.now lists.now rows) }
{
    let mut rows = Rows::new(alloc);
    let mut indices = Vec::new(alloc);
    for (index, list) in lists.iter().enumerate() {
        put_indices(&mut indices, ids, index + 1, list.as_slice())?;
        rows.push_row(&indices)?;
    }
    Ok(rows)
}
