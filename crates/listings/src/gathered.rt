//! All that a SYSMOD reaches, read once.
ghost use Rattle.std.specs.Prelude.{◌≡◌, ◌++◌, ◌≤◌, ◌<◌, true, false, IfNone, IfOk, IfSome, IsSome, OnOk, length};
ghost use Rattle.std.specs.BTreeMap.{insert_entry, keys, values};
ghost use Rattle.catalogue.specs.Ids.{id_cmp};
ghost use Rattle.catalogue.specs.View.{IsOpen, MayAsk, Tells};
ghost use Rattle.catalogue.specs.declared.fault.SourceFault.TheVariants.{Device};
ghost use Rattle.listings.specs.Gathered as spec;
ghost use Rattle.listings.specs.Gathered.{AreNamed, IsGathered, named_by};

use crate::conditional::push_each_need;
use crate::found::next_unread;
use crate::listing::{Entry, entry_from};
use catalogue::{Ids, Published, SourceFault};
use mcs_reader::{Id, NoMemory};
use std::alloc::Global;
use std::collections::BTreeMap;
use verdicts::ascending;

/// A SYSMOD that another one reaches, as it is read.
#[derive(Debug, Drop)]
pub struct Gathered {
    /// The SYSMOD itself.
    pub entry: Entry,
    /// The SYSMODs that supersede it directly.
    pub above: Ids,
}

/// Reads a SYSMOD, all that it may need and all that supersedes it, all that these may need, and so on, each
/// once. With a limit it gives up if there are more than so many.
///
/// # Errors
///
/// `Memory` if memory ran out, `Device` if the source failed.
pub fn gather<P: Published>(
    alloc: Global,
    source: &mut P,
    start: &Id,
    most: Option<usize>,
) -> Result<Option<BTreeMap<Id, Gathered>>, SourceFault>
    ensures asks { MayAsk P.content_view Device source.old source.new result }
    ensures gathered { IfOk result (λ found. IfSome found (λ found. Tells P.content_view source.old source.new
        (λ content. IsGathered content start.now (keys found) (values found)))) }
    ensures named { IfOk result (λ found. IfSome found (λ found. AreNamed (values found) (keys found))) }
    ensures standing { IfOk result (λ found. IfSome found (λ found. IsOpen P.content_view source.new)) }
    ensures whole { IfOk result (λ found. IfNone found (IsSome most)) }
    ensures few { IfOk result (λ found. IfSome found
        (λ found. IfSome most (λ most. length (keys found) ≤ most))) }
{
    let mut found = BTreeMap::new(alloc);
    let mut order = Vec::new(alloc);
    order.push(*start)?;
    let mut at = 0;
    while at < order.len() {
        if is_full(&found, most) {
            return Ok(None);
        }
        let id = order[at];
        let gathered = gathered_of(alloc, source, &id)?;
        add(&mut found, &mut order, id, gathered)?;
        at = next_unread(&found, &order, at + 1);
    }
    Ok(Some(found))
}

// Whether there is no room for one more.
fn is_full(found: &BTreeMap<Id, Gathered>, most: Option<usize>) -> bool
    ensures full { result ≡ true → IsSome most }
    ensures room { result ≡ false → IfSome most (λ most. length (keys found.now) < most) }
{
    match most {
        Some(most) => found.len() >= most,
        None => false,
    }
}

// Adds a SYSMOD that was read, and puts the ids that it names at the end of the order.
fn add(
    found: &mut BTreeMap<Id, Gathered>,
    order: &mut Vec<Id>,
    id: Id,
    gathered: Gathered,
) -> Result<(), NoMemory>
    ensures found { OnOk result (found.new.entries ≡ insert_entry id_cmp found.old.entries id gathered) }
    ensures order { OnOk result (order.new.items ≡ order.old.items ++ named_by gathered) }
{
    order.extend_from_slice(gathered.entry.needs())?;
    push_each_need(order, gathered.entry.conds().as_slice())?;
    order.extend_from_slice(gathered.above.as_slice())?;
    found.insert(id, gathered)?;
    Ok(())
}

fn gathered_of<P: Published>(
    alloc: Global,
    source: &mut P,
    id: &Id,
) -> Result<Gathered, SourceFault>
    ensures asks { MayAsk P.content_view Device source.old source.new result }
    ensures gathered { IfOk result (λ gathered. Tells P.content_view source.old source.new
        (λ content. gathered ≡ spec.gathered_of content id.now)) }
    ensures standing { IfOk result (λ gathered. IsOpen P.content_view source.new) }
{
    let sysmod = source.sysmod(id)?;
    let holds = source.holds_on(id)?;
    let above = source.superseders(id)?;
    Ok(Gathered {
        entry: entry_from(alloc, sysmod, &holds)?,
        above: ascending(above),
    })
}
