//! All that is catalogued, read once from a source.
ghost use Rattle.std.specs.Prelude.{◌≡◌, ◌<◌, ◌≤◌, ◌++◌, length, map, IfOk, OnOk};
ghost use Rattle.std.specs.List.{list_any};
ghost use Rattle.zone_lists.specs.Installed.{is_installed};
ghost use Rattle.catalogue.specs.Content.{Content, ids_of, superseders};
ghost use Rattle.catalogue.specs.Ids.{Ascend, in_order};
ghost use Rattle.catalogue.specs.View.{MayAsk, Tells};
ghost use Rattle.catalogue.specs.declared.fault.SourceFault.TheVariants.{Device};
ghost use Rattle.supersede.specs.Giving.{is_candidate};
ghost use Rattle.catalogue.specs.Seen.{seen_in};
ghost use Rattle.listings.specs.ListedRows.{AreListedRows};
ghost use Rattle.listings.specs.Marks.{IsListingBut, SaysOf, sight_seen};
ghost use Rattle.listings.specs.Sights.{IsListing, reasons_in, sight_from, sight_of, unseen};

use crate::listed_rows::ListedRows;
use crate::renewing::{found_entries, ids_now, unmarked_entries, woven};
use crate::superseders::Superseders;
use catalogue::{CondNeeds, Ids, Published, Seen, SourceFault, Sysmod};
use holddata::{Hold, Kind};
use mcs_reader::{Id, NoMemory};
use std::alloc::Global;
use std::marker::Model;
use supersede::Zone;
use verdicts::{ascending, ids_at, index_of, sort_each_once};

/// The parts of a SYSMOD that verdicts need. A contract sees it with its lists.
#[derive(Debug, Drop)]
pub struct Entry {
    catalogued: bool,
    fmids: Ids,
    needs: Vec<Id>,
    conds: CondNeeds,
    superseded: Vec<Id>,
}

impl Model for Entry {
    ghost use Rattle.listings.specs.Sights.{Sight};

    ghost Value = { Sight };

    ghost view = { λ entry. record {
      catalogued = entry.catalogued;
      fmids = entry.fmids;
      needs = entry.needs.items;
      conds = entry.conds;
      superseded = entry.superseded.items;
    } };
}

impl Entry {
    /// The entry of an id that isn't catalogued. It takes no memory.
    pub(crate) fn unseen(alloc: Global) -> Self
        ensures { result ≡ unseen }
    {
        Entry {
            catalogued: false,
            fmids: Ids::new(alloc),
            needs: Vec::new(alloc),
            conds: CondNeeds::new(alloc),
            superseded: Vec::new(alloc),
        }
    }

    /// Whether it may be installed in a zone: one of the functions that it is for is there.
    pub(crate) fn is_candidate(&self, zone: &Zone) -> bool
        ensures { result ≡ list_any (λ fmid. is_installed zone.now fmid) self.now.fmids }
    {
        is_any_installed(zone, &self.fmids)
    }

    /// Whether it is catalogued.
    pub fn is_catalogued(&self) -> bool
        ensures { result ≡ self.now.catalogued }
    {
        self.catalogued
    }

    /// The functions that it is for; none if it isn't catalogued.
    pub fn fmids(&self) -> &Ids
        ensures { result.now ≡ self.now.fmids }
    {
        &self.fmids
    }

    /// The ids that it needs in every zone, in the order in which they were read: its PRE, its REQ and the reasons
    /// of the ERROR holds on it.
    pub fn needs(&self) -> &[Id]
        ensures { result.now ≡ self.now.needs }
    {
        self.needs.as_slice()
    }

    /// The same, ascending, each once.
    ///
    /// # Errors
    ///
    /// `NoMemory` if memory ran out.
    pub fn needs_in_order(&self, alloc: Global) -> Result<Ids, NoMemory>
        ensures { IfOk result (λ needs. needs ≡ in_order self.now.needs) }
    {
        let mut needs = Vec::from_slice(alloc, &self.needs)?;
        sort_each_once(&mut needs)?;
        Ok(ascending(needs))
    }

    /// The ids that it needs if a function is installed.
    pub fn conds(&self) -> &CondNeeds
        ensures { result.now ≡ self.now.conds }
    {
        &self.conds
    }

    /// The ids that it supersedes directly.
    pub fn superseded(&self) -> &[Id]
        ensures { result.now ≡ self.now.superseded }
    {
        self.superseded.as_slice()
    }
}

/// All that is catalogued: the functions that each SYSMOD is for, its needs and what it supersedes. It names no
/// zone.
#[derive(Debug, Drop)]
pub struct Listing {
    ids: Vec<Id>,
    entries: Vec<Entry>,
    superseders: Superseders,
    rows: ListedRows,
}

impl Model for Listing {
    ghost use Rattle.std.specs.Prelude.{◌≡◌, length};
    ghost use Rattle.catalogue.specs.Ids.{Ascend, in_order};
    ghost use Rattle.listings.specs.ListedRows.{AreListedRows};
    ghost use Rattle.listings.specs.Sights.{ListingLists};
    ghost use Rattle.listings.specs.Superseders.{AreSuperseders};

    ghost Value = { ListingLists };

    ghost view = { λ listing. record { ids = listing.ids.items; sights = listing.entries.items } };

    ghost invariant = { λ listing. Ascend listing.ids.items
        × (length listing.entries.items ≡ length listing.ids.items)
        × AreSuperseders listing.entries.items listing.superseders.superseded.items
        listing.superseders.below listing.superseders.above
        × AreListedRows listing.ids.items listing.entries.items listing.rows.members.items
        listing.rows.listed.items listing.rows.needs listing.rows.supersedes };
}

impl Listing {
    /// The entry of each of them, in their order.
    pub(crate) fn entries(&self) -> &[Entry]
        ensures sights { result.now ≡ self.now.sights }
        ensures len { length result.now ≡ length self.now.ids }
    {
        self.entries.as_slice()
    }

    /// The rows by the indices of its members.
    pub(crate) fn rows(&self) -> &ListedRows
        ensures { AreListedRows self.now.ids self.now.sights result.now.members.items
            result.now.listed.items result.now.needs result.now.supersedes }
    {
        &self.rows
    }

    /// The SYSMODs whose SUP names an id, ascending.
    ///
    /// # Errors
    ///
    /// `NoMemory` if memory ran out.
    pub fn superseders(&self, alloc: Global, id: &Id) -> Result<Ids, NoMemory>
        ensures superseders { IfOk result (λ found. (content : Content) → SaysOf content id.now self.now
            → found ≡ superseders content id.now) }
        ensures ascend { (content : Content) → SaysOf content id.now self.now → Ascend (ids_of content) }
    {
        let mut found = ids_at(alloc, &self.ids, self.superseders.indices(id))?;
        sort_each_once(&mut found)?;
        Ok(ascending(found))
    }

    /// Makes the listing of a later content. This one is of that content but for some marked ids, and `read` has
    /// what the content says of these. It looks at the marked ids only, and takes over all else.
    ///
    /// # Errors
    ///
    /// `NoMemory` if memory ran out.
    pub fn renewed(self, alloc: Global, marks: &[Id], read: Vec<Seen>) -> Result<Listing, NoMemory>
        requires { Ascend marks.now }
        ensures listing { IfOk result (λ renewed. (content : Content)
            → IsListingBut content marks.now self → read.items ≡ map (seen_in content) marks.now
            → IsListing content renewed) }
        ensures ascend { IfOk result (λ renewed. Ascend renewed.ids) }
    {
        let Listing {
            ids: listed,
            entries,
            superseders,
            rows,
        } = self;
        drop(rows); // The new ones take its room.
        let ids = ids_now(alloc, &listed, marks, &read)?;
        let kept = unmarked_entries(alloc, &listed, entries, marks)?;
        let found = found_entries(alloc, read)?;
        let entries = woven(alloc, &ids, marks, kept, found)?;
        let superseders = superseders.renewed(alloc, &listed, marks, &ids, &entries)?;
        let rows = ListedRows::of(alloc, &ids, &entries, &superseders)?;
        Ok(Listing {
            ids,
            entries,
            superseders,
            rows,
        })
    }

    /// Whether an id is listed, and one of the functions that it is for is there.
    pub fn is_candidate(&self, zone: &Zone, id: &Id) -> bool
        ensures { (content : Content) → SaysOf content id.now self.now
            → result ≡ is_candidate content zone.now id.now }
    {
        match index_of(&self.ids, id) {
            Some(index) => self.entries[index].is_candidate(zone),
            None => false,
        }
    }
}

// The most SYSMODs that are read at once: so few that their records take little memory beside the listing.
const RUN: usize = 4096;

// The number of SYSMODs that are read at once, of so many. Runs are as few as may be and of one length, since a
// store reads a short one id by id.
fn run_len(count: usize) -> usize
    ensures some { 0 < result }
    ensures most { result ≤ 4096 }
{
    let runs = count.div_ceil(RUN).max(1);
    count.div_ceil(runs).max(1)
}

/// Reads all that is catalogued, once.
///
/// # Errors
///
/// `Memory` if memory ran out, `Device` if the source failed.
pub fn listing_of<P: Published>(alloc: Global, source: &mut P) -> Result<Listing, SourceFault>
    ensures asks { MayAsk P.content_view Device source.old source.new result }
    ensures listing { IfOk result (λ listing. Tells P.content_view source.old source.new
        (λ content. IsListing content listing)) }
    ensures ascend { IfOk result (λ listing. Ascend listing.ids) }
{
    let ids = source.ids()?;
    let entries = entries_of(alloc, source, &ids)?;
    let superseders = Superseders::of(alloc, &entries)?;
    let rows = ListedRows::of(alloc, &ids, &entries, &superseders)?;
    Ok(Listing {
        ids,
        entries,
        superseders,
        rows,
    })
}

/// Reads the entries of some ids, in runs.
pub(crate) fn entries_of<P: Published>(
    alloc: Global,
    source: &mut P,
    ids: &[Id],
) -> Result<Vec<Entry>, SourceFault>
    ensures asks { MayAsk P.content_view Device source.old source.new result }
    ensures entries { IfOk result (λ entries. Tells P.content_view source.old source.new
        (λ content. entries.items ≡ map (sight_of content) ids.now)) }
    ensures len { IfOk result (λ entries. length entries.items ≡ length ids.now) }
{
    let mut entries = Vec::with_capacity(alloc, ids.len())?;
    for run in ids.chunks(run_len(ids.len())) {
        read_run(alloc, source, run, &mut entries)?;
    }
    make_as_many(alloc, &mut entries, ids.len())?;
    Ok(entries)
}

// Makes the entries so many. They are so many already, unless a disk returned what was never written.
fn make_as_many(alloc: Global, entries: &mut Vec<Entry>, len: usize) -> Result<(), NoMemory>
    ensures len { OnOk result (length entries.new.items ≡ len) }
    ensures same { OnOk result (length entries.old.items ≡ len → entries.new.items ≡ entries.old.items) }
{
    entries.truncate(len);
    for _ in entries.len()..len {
        entries.push(Entry::unseen(alloc))?;
    }
    Ok(())
}

fn read_run<P: Published>(
    alloc: Global,
    source: &mut P,
    run: &[Id],
    entries: &mut Vec<Entry>,
) -> Result<(), SourceFault>
    ensures asks { MayAsk P.content_view Device source.old source.new result }
    ensures entries { OnOk result (Tells P.content_view source.old source.new
        (λ content. entries.new.items ≡ entries.old.items ++ map (sight_of content) run.now)) }
{
    let read = source.seen(alloc, run)?;
    push_entries(alloc, entries, read)?;
    Ok(())
}

/// Adds the entries of SYSMODs that were read, in their order.
pub(crate) fn push_entries(
    alloc: Global,
    entries: &mut Vec<Entry>,
    read: Vec<Seen>,
) -> Result<(), NoMemory>
    ensures { OnOk result (entries.new.items ≡ entries.old.items ++ map sight_seen read.items) }
{
    for seen in read {
        entries.push(entry_from(alloc, seen.sysmod, &seen.holds)?)?;
    }
    Ok(())
}

/// The entry of an id, by its record and the holds on it.
pub(crate) fn entry_from(
    alloc: Global,
    sysmod: Option<Sysmod>,
    holds: &[Hold],
) -> Result<Entry, NoMemory>
    ensures { IfOk result (λ entry. entry ≡ sight_from sysmod holds.now) }
{
    let Some(sysmod) = sysmod else {
        let mut needs = Vec::new(alloc);
        push_reasons(&mut needs, holds)?;
        return Ok(Entry {
            catalogued: false,
            fmids: Ids::new(alloc),
            needs,
            conds: CondNeeds::new(alloc),
            superseded: Vec::new(alloc),
        });
    };
    let mut needs = append(sysmod.pre.into_vec(), sysmod.req.into_vec())?;
    push_reasons(&mut needs, holds)?;
    Ok(Entry {
        catalogued: true,
        fmids: sysmod.fmids,
        needs,
        conds: sysmod.conds,
        superseded: sysmod.sup.into_vec(),
    })
}

// The ids of two lists, one after the other. It takes no memory if the first is empty.
fn append(mut first: Vec<Id>, second: Vec<Id>) -> Result<Vec<Id>, NoMemory>
    ensures { IfOk result (λ both. both.items ≡ first.items ++ second.items) }
{
    if first.is_empty() {
        return Ok(second);
    }
    first.extend_from_slice(second.as_slice())?;
    Ok(first)
}

/// Whether one of these functions is installed.
pub fn is_any_installed(zone: &Zone, fmids: &Ids) -> bool
    ensures { result ≡ list_any (λ fmid. is_installed zone.now fmid) fmids.now }
{
    fmids.as_slice().iter().any(|fmid| zone.installed(fmid))
}

// Adds the reasons of the ERROR holds.
fn push_reasons(needs: &mut Vec<Id>, holds: &[Hold]) -> Result<(), NoMemory>
    ensures { OnOk result (needs.new.items ≡ needs.old.items ++ reasons_in holds.now) }
{
    for hold in holds {
        if hold.key.kind == Kind::ErrorHold {
            needs.push(hold.key.reason)?;
        }
    }
    Ok(())
}
