//! The published content in lists.
ghost use Rattle.std.specs.Prelude.{◌≡◌, ◌↔◌, ◌++◌, ℕ, List, [], length, Contains, IfOk, IfErr, OnOk, OnErr, Some, find, map, if◌then◌else◌};
ghost use Rattle.std.specs.BTreeMap.{IsOrdered, keys, values};
ghost use Rattle.holddata.specs.declared.hold.HoldChange.TheVariants.{Put};
ghost use Rattle.holddata.specs.HoldBook.{IsInKeyOrder, book_of};
ghost use Rattle.catalogue.specs.declared.change.Change.{Change};
ghost use Rattle.catalogue.specs.declared.fault.SourceFault.TheVariants.{Memory};
ghost use Rattle.catalogue.specs.Changes.{records_in, hold_changes_in};
ghost use Rattle.catalogue.specs.Content.{Content, IsCatalogued, IsInOrder, Supersedes, nothing, is_of, ids_of, record_of, superseders, holds_on};
ghost use Rattle.catalogue.specs.Ids.{Ascend, id_cmp, same_id};
ghost use Rattle.catalogue.specs.ListPublished.{IsKeyed};
ghost use Rattle.catalogue.specs.Publication.{after, catalogue_of, content_of, IsAfter};

use crate::index::{Index, index_of, listed_under};
use crate::{Change, NoMemory, Published, SourceFault, Sysmod};
use holddata::{Hold, HoldBook};
use mcs_reader::Id;
use std::alloc::Global;
use std::collections::BTreeMap;
use std::marker::Model;

/// The published content in lists. A contract sees the content.
#[derive(Drop)]
pub struct ListPublished {
    alloc: Global,
    sysmods: BTreeMap<Id, Sysmod>,
    superseders: Index,
    book: HoldBook,
}

impl Model for ListPublished {
    ghost use Rattle.std.specs.BTreeMap.{IsOrdered, values};
    ghost use Rattle.holddata.specs.HoldBook.{IsInKeyOrder};
    ghost use Rattle.catalogue.specs.Content.{Content};
    ghost use Rattle.catalogue.specs.Ids.{id_cmp};
    ghost use Rattle.catalogue.specs.ListPublished.{IsKeyed, IsIndex};

    ghost Value = { Content };

    ghost view = { λ lists. record { sysmods = values lists.sysmods; holds = lists.book } };

    ghost invariant = { λ lists. record {
      ordered : IsOrdered id_cmp lists.sysmods;
      keyed : IsKeyed lists.sysmods.entries;
      index : IsIndex lists.superseders (values lists.sysmods);
      in_key_order : IsInKeyOrder lists.book;
    } };
}

impl ListPublished {
    /// Nothing is published.
    pub fn new(alloc: Global) -> Self
        ensures empty { result ≡ nothing }
        ensures in_order { IsInOrder result }
    {
        ListPublished {
            alloc,
            sysmods: BTreeMap::new(alloc),
            superseders: BTreeMap::new(alloc),
            book: HoldBook::new(alloc),
        }
    }

    /// The number of SYSMODs that are catalogued.
    pub fn sysmod_count(&self) -> usize
        ensures { result ≡ length self.now.sysmods }
    {
        self.sysmods.len()
    }

    /// The number of holds.
    pub fn hold_count(&self) -> usize
        ensures { result ≡ length self.now.holds }
    {
        self.book.len()
    }

    /// The hold book.
    pub fn book(&self) -> &HoldBook
        ensures value { result.now ≡ self.now.holds }
        ensures in_order { IsInKeyOrder self.now.holds }
    {
        &self.book
    }

    /// Makes the changes: the last record of each id replaces the whole record that it had, and holds are put and
    /// released.
    ///
    /// # Errors
    ///
    /// `NoMemory` if memory ran out. The content is as it was.
    pub fn publish(&mut self, changes: &[Change]) -> Result<(), NoMemory>
        ensures after { OnOk result (self.new ≡ after self.old changes.now) }
        ensures is_after { OnOk result (IsAfter self.old changes.now self.new) }
        ensures so_far { OnOk result ((earlier : List Change) →
            self.old ≡ content_of earlier → self.new ≡ content_of (earlier ++ changes.now)) }
        ensures in_order { IsInOrder self.new }
        ensures err { OnErr result (self.new ≡ self.old) }

        // Publications join, and one of nothing changes nothing.
        ensures joins { OnOk result ((content : Content) (earlier later : List Change) →
            after content (earlier ++ later) ≡ after (after content earlier) later) }
        ensures none { OnOk result ((content : Content) → IsInOrder content → after content [] ≡ content) }
    {
        let sysmods = catalogue_after(&self.sysmods, changes)?;
        let superseders = index_of(self.alloc, &sysmods)?;
        let book = book_after(&self.book, changes)?;
        self.sysmods = sysmods;
        self.superseders = superseders;
        self.book = book;
        Ok(())
    }
}

impl Published for ListPublished {
    ghost use Rattle.catalogue.specs.ListPublished.{lists_in_order, lists_lawful, lists_view};
    ghost use Rattle.catalogue.specs.Content.{IsInOrder};

    ghost content_view = { lists_view };

    fn ids(&mut self) -> Result<Vec<Id>, SourceFault>
        ensures same { self.new ≡ self.old }
        ensures in_order { IsInOrder self.old }
        ensures ids { IfOk result (λ ids. ids.items ≡ ids_of self.old) }
        ensures ascend { IfOk result (λ ids. Ascend ids.items) }
        ensures memory { IfErr result (λ fault. fault ≡ Memory) }
    {
        Ok(ids_listed(self.alloc, &self.sysmods)?)
    }

    fn sysmod(&mut self, id: &Id) -> Result<Option<Sysmod>, SourceFault>
        ensures same { self.new ≡ self.old }
        ensures in_order { IsInOrder self.old }
        ensures sysmod { IfOk result (λ found. found ≡ record_of self.old id.now) }
        ensures memory { IfErr result (λ fault. fault ≡ Memory) }
    {
        Ok(record_listed(&self.sysmods, id)?)
    }

    fn superseders(&mut self, id: &Id) -> Result<Vec<Id>, SourceFault>
        ensures same { self.new ≡ self.old }
        ensures in_order { IsInOrder self.old }
        ensures superseders { IfOk result (λ ids. ids.items ≡ superseders self.old id.now) }
        ensures ascend { IfOk result (λ ids. Ascend ids.items) }
        ensures memory { IfErr result (λ fault. fault ≡ Memory) }

        // They are the catalogued SYSMODs that supersede it.
        ensures each { (content : Content) (id superseder : List ℕ) → IsInOrder content
            → Contains (superseders content id) superseder ↔ Supersedes content superseder id }
        ensures catalogued { (content : Content) (id superseder : List ℕ)
            → Contains (superseders content id) superseder → IsCatalogued content superseder }
    {
        Ok(listed_under(self.alloc, &self.superseders, id)?)
    }

    fn holds_on(&mut self, id: &Id) -> Result<Vec<Hold>, SourceFault>
        ensures same { self.new ≡ self.old }
        ensures in_order { IsInOrder self.old }
        ensures holds { IfOk result (λ holds. holds.items ≡ holds_on self.old id.now) }
        ensures in_key_order { IfOk result (λ holds. IsInKeyOrder holds.items) }
        ensures memory { IfErr result (λ fault. fault ≡ Memory) }
    {
        Ok(self.book.holds_on(id)?)
    }

    ghost lawful = { lists_lawful };

    ghost in_order = { lists_in_order };
}

// The ids of all records.
fn ids_listed(alloc: Global, sysmods: &BTreeMap<Id, Sysmod>) -> Result<Vec<Id>, NoMemory>
    ensures ids { IfOk result (λ ids. ids.items ≡ keys sysmods.now) }
    ensures ascend { IfOk result (λ ids. Ascend ids.items) }
{
    let mut ids = Vec::with_capacity(alloc, sysmods.len())?;
    for id in sysmods.keys() {
        ids.push(*id)?;
    }
    Ok(ids)
}

// The record of an id.
fn record_listed(sysmods: &BTreeMap<Id, Sysmod>, id: &Id) -> Result<Option<Sysmod>, NoMemory>
    requires { IsKeyed sysmods.now.entries }
    ensures { IfOk result (λ found. found ≡ find (is_of id.now) (values sysmods.now)) }
{
    match sysmods.get(id) {
        Some(sysmod) => Ok(Some(sysmod.copy()?)),
        None => Ok(None),
    }
}

// The records after a publication.
fn catalogue_after(
    old: &BTreeMap<Id, Sysmod>,
    changes: &[Change],
) -> Result<BTreeMap<Id, Sysmod>, NoMemory>
    requires ordered { IsOrdered id_cmp old.now }
    requires keyed { IsKeyed old.now.entries }
    ensures records { IfOk result (λ new. values new
        ≡ catalogue_of (values old.now ++ records_in changes.now)) }
    ensures ordered { IfOk result (λ new. IsOrdered id_cmp new) }
    ensures keyed { IfOk result (λ new. IsKeyed new.entries) }
{
    let mut sysmods = copied(old)?;
    for change in changes {
        if let Change::Whole(sysmod) = change {
            put(&mut sysmods, sysmod.copy()?)?;
        }
    }
    Ok(sysmods)
}

fn copied(sysmods: &BTreeMap<Id, Sysmod>) -> Result<BTreeMap<Id, Sysmod>, NoMemory>
    ensures { IfOk result (λ copy. copy.entries ≡ sysmods.now.entries) }
{
    sysmods.clone()
}

// Puts a record in place of one with the same id.
fn put(sysmods: &mut BTreeMap<Id, Sysmod>, sysmod: Sysmod) -> Result<(), NoMemory>
    requires { IsKeyed sysmods.old.entries }
    ensures found { OnOk result ((id : List ℕ) →
        find (is_of id) (values sysmods.new)
        ≡ (if same_id sysmod.id id then Some sysmod else find (is_of id) (values sysmods.old))) }
    ensures ordered { IsOrdered id_cmp sysmods.new }
    ensures keyed { OnOk result (IsKeyed sysmods.new.entries) }
{
    sysmods.insert(sysmod.id, sysmod)?;
    Ok(())
}

// The hold book after a publication.
fn book_after(old: &HoldBook, changes: &[Change]) -> Result<HoldBook, NoMemory>
    requires { IsInKeyOrder old.now }
    ensures book { IfOk result (λ new. new ≡ book_of (map Put old.now ++ hold_changes_in changes.now)) }
    ensures in_key_order { IfOk result (λ new. IsInKeyOrder new) }
{
    let mut book = old.copy()?;
    for change in changes {
        if let Change::OfHold(change) = change {
            book.apply(change.copy()?)?;
        }
    }
    Ok(book)
}
