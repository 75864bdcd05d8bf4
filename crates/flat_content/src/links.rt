//! The SYSMODs that supersede each SYSMOD, in one list.
ghost use Rattle.std.specs.Prelude.{◌≡◌, ◌≤◌, ◌++◌, ℕ, List, true, false, IfOk, OnOk, length, map};
ghost use Rattle.std.specs.Ordering.{is_le, is_lt};
ghost use Rattle.std.specs.List.{slice_range};
ghost use Rattle.std.specs.List.Sorted.{IsPartitionPoint};
ghost use Rattle.catalogue.specs.Ids.{id_cmp};
ghost use Rattle.flat_content.specs.Links.{AreOf, IsSortedList, linked, links_to};

use crate::records::{Head, Records};
use crate::spans::ids_in;
use catalogue::NoMemory;
use mcs_reader::Id;
use std::alloc::Global;

/// A SYSMOD whose SUP names another.
#[derive(Clone, Copy, Debug)]
pub(crate) struct Link {
    superseded: Id,
    superseder: Id,
}

/// The links of all records, in the order of the SYSMODs that are superseded.
pub(crate) fn links_of(records: &Records) -> Result<Vec<Link>, NoMemory>
    ensures sorted { IfOk result (λ links. IsSortedList links.items) }
    ensures of { IfOk result (λ links. AreOf records.now links.items) }
{
    let mut links = links_in_turn(records)?;
    sort(&mut links)?;
    Ok(links)
}

/// The SYSMODs whose links are to an id, in the order of the links.
pub(crate) fn superseders(alloc: Global, links: &[Link], id: &Id) -> Result<Vec<Id>, NoMemory>
    requires { IsSortedList links.now }
    ensures { IfOk result (λ ids. ids.items ≡ linked id.now links.now) }
{
    let mut ids = Vec::new(alloc);
    for link in links_around(links, id) {
        ids.push(link.superseder)?;
    }
    Ok(ids)
}

// The links of the records in their order.
fn links_in_turn(records: &Records) -> Result<Vec<Link>, NoMemory>
    ensures { IfOk result (λ links. AreOf records.now links.items) }
{
    let mut links = Vec::with_capacity(records.alloc, count(&records.heads))?;
    for head in &records.heads {
        push_links(&mut links, ids_in(&records.names, head.sup()), head.id)?;
    }
    Ok(links)
}

// The number of links that records have. It decides only how much room is made at once.
fn count(heads: &[Head]) -> usize {
    let mut count = 0usize;
    for head in heads {
        count = count.saturating_add(head.sup().len());
    }
    count
}

// Adds the links of one record.
fn push_links(links: &mut Vec<Link>, sup: &[Id], superseder: Id) -> Result<(), NoMemory>
    ensures { OnOk result (links.new.items ≡ links.old.items ++ links_to sup.now superseder) }
{
    for superseded in sup {
        links.push(Link {
            superseded: *superseded,
            superseder,
        })?;
    }
    Ok(())
}

// Puts links in the order of the SYSMODs that are superseded. Those to one stay in their order.
fn sort(links: &mut Vec<Link>) -> Result<(), NoMemory>
    ensures sorted { OnOk result (IsSortedList links.new.items) }
    ensures same { (id : List ℕ) → linked id links.new.items ≡ linked id links.old.items }
{
    links.sort_by_key(|link| link.superseded)
}

// The links to an id.
fn links_around<'a>(links: &'a [Link], id: &Id) -> &'a [Link]
    requires { IsSortedList links.now }
    ensures { map (λ link. link.superseder) result.now ≡ linked id.now links.now }
{
    between(links, count_before(links, id), count_up_to(links, id))
}

fn between(links: &[Link], start: usize, end: usize) -> &[Link]
    requires start { start ≤ end }
    requires end { end ≤ length links.now }
    ensures { result.now ≡ slice_range links.now start end }
{
    &links[start..end]
}

// The number of links to ids before this one.
fn count_before(links: &[Link], id: &Id) -> usize
    requires { IsSortedList links.now }
    ensures bound { result ≤ length links.now }
    ensures split { IsPartitionPoint (λ link. is_lt (id_cmp link.superseded id.now) ≡ true)
        (λ link. is_lt (id_cmp link.superseded id.now) ≡ false) links.now result }
{
    links.partition_point(
        |link: &Link| -> bool
            ensures { result ≡ is_lt (id_cmp link.now.superseded id.entry.now) }
        { link.superseded.cmp(id).is_lt() },
    )
}

// The number of links to ids before this one or to this one.
fn count_up_to(links: &[Link], id: &Id) -> usize
    requires { IsSortedList links.now }
    ensures bound { result ≤ length links.now }
    ensures split { IsPartitionPoint (λ link. is_le (id_cmp link.superseded id.now) ≡ true)
        (λ link. is_le (id_cmp link.superseded id.now) ≡ false) links.now result }
{
    links.partition_point(
        |link: &Link| -> bool
            ensures { result ≡ is_le (id_cmp link.now.superseded id.entry.now) }
        { link.superseded.cmp(id).is_le() },
    )
}
