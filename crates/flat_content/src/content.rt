//! The content that was gathered.
ghost use Rattle.std.specs.Prelude.{◌≡◌, length, IfOk, IfErr};
ghost use Rattle.holddata.specs.HoldBook.{IsInKeyOrder};
ghost use Rattle.catalogue.specs.Content.{IsInOrder, holds_on, ids_of, record_of, superseders};
ghost use Rattle.catalogue.specs.Ids.{Ascend};
ghost use Rattle.catalogue.specs.declared.fault.SourceFault.TheVariants.{Memory};

use crate::links::{Link, superseders};
use crate::records::Records;
use catalogue::{Published, SourceFault, Sysmod};
use holddata::{Hold, HoldBook};
use mcs_reader::Id;
use std::alloc::Global;
use std::marker::Model;

/// Published content to which nothing is added. A contract sees the content.
#[derive(Drop)]
pub struct FlatContent {
    pub(crate) alloc: Global,
    pub(crate) records: Records,
    pub(crate) links: Vec<Link>,
    pub(crate) book: HoldBook,
}

impl Model for FlatContent {
    ghost use Rattle.holddata.specs.HoldBook.{IsInKeyOrder};
    ghost use Rattle.catalogue.specs.Content.{Content, ids_in};
    ghost use Rattle.catalogue.specs.Ids.{Ascend};
    ghost use Rattle.flat_content.specs.Links.{AreOf, IsSortedList};

    ghost Value = { Content };

    ghost view = { λ flat. record { sysmods = flat.records; holds = flat.book } };

    ghost invariant = { λ flat. record {
      ascend : Ascend (ids_in flat.records);
      sorted : IsSortedList flat.links.items;
      of : AreOf flat.records flat.links.items;
      in_key_order : IsInKeyOrder flat.book;
    } };
}

impl FlatContent {
    /// The number of SYSMODs.
    pub fn sysmod_count(&self) -> usize
        ensures { result ≡ length self.now.sysmods }
    {
        self.records.count()
    }

    /// The hold book.
    pub fn book(&self) -> &HoldBook
        ensures value { result.now ≡ self.now.holds }
        ensures in_order { IsInKeyOrder self.now.holds }
    {
        &self.book
    }
}

impl Published for FlatContent {
    ghost use Rattle.catalogue.specs.ListPublished.{lists_in_order, lists_lawful, lists_view};
    ghost use Rattle.catalogue.specs.Content.{IsInOrder};

    ghost content_view = { lists_view };

    fn ids(&mut self) -> Result<Vec<Id>, SourceFault>
        ensures same { self.new ≡ self.old }
        ensures in_order { IsInOrder self.old }
        ensures ids { IfOk result (λ ids. ids.items ≡ ids_of self.old) }
        ensures ascend { IfOk result (λ ids. Ascend ids.items) }
        ensures memory { IfErr result (λ fault. fault ≡ Memory) }
    {
        Ok(self.records.ids()?)
    }

    fn sysmod(&mut self, id: &Id) -> Result<Option<Sysmod>, SourceFault>
        ensures same { self.new ≡ self.old }
        ensures in_order { IsInOrder self.old }
        ensures sysmod { IfOk result (λ found. found ≡ record_of self.old id.now) }
        ensures memory { IfErr result (λ fault. fault ≡ Memory) }
    {
        Ok(self.records.get(id)?)
    }

    fn superseders(&mut self, id: &Id) -> Result<Vec<Id>, SourceFault>
        ensures same { self.new ≡ self.old }
        ensures in_order { IsInOrder self.old }
        ensures superseders { IfOk result (λ ids. ids.items ≡ superseders self.old id.now) }
        ensures ascend { IfOk result (λ ids. Ascend ids.items) }
        ensures memory { IfErr result (λ fault. fault ≡ Memory) }
    {
        Ok(superseders(self.alloc, &self.links, id)?)
    }

    fn holds_on(&mut self, id: &Id) -> Result<Vec<Hold>, SourceFault>
        ensures same { self.new ≡ self.old }
        ensures in_order { IsInOrder self.old }
        ensures holds { IfOk result (λ holds. holds.items ≡ holds_on self.old id.now) }
        ensures in_key_order { IfOk result (λ holds. IsInKeyOrder holds.items) }
        ensures memory { IfErr result (λ fault. fault ≡ Memory) }
    {
        Ok(self.book.holds_on(id)?)
    }

    ghost lawful = { lists_lawful };

    ghost in_order = { lists_in_order };
}
