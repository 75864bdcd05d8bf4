//! The published content of the store in lists.
ghost use Rattle.std.specs.Prelude.{◌≡◌, IfOk};
ghost use Rattle.holddata.specs.HoldBook.{IsInKeyOrder};
ghost use Rattle.catalogue.specs.Content.{ids_of, record_of, superseders, holds_on};
ghost use Rattle.catalogue.specs.Ids.{Ascend};
ghost use Rattle.bureau_store.specs.Lists.{ReadsLists};
ghost use Rattle.catalogue.specs.declared.fault.SourceFault.TheVariants.{Memory as SourceMemory};

use super::ListStore;
use catalogue::{Published, SourceFault, Sysmod};
use holddata::Hold;
use mcs_reader::Id;

impl Published for ListStore {
    ghost use Rattle.bureau_store.specs.Lists.{lists_content_in_order, lists_content_lawful, lists_content_view};

    ghost content_view = { lists_content_view };

    fn ids(&mut self) -> Result<Vec<Id>, SourceFault>
        ensures reads { ReadsLists SourceMemory self.old self.new result }
        ensures ids { IfOk result (λ ids. ids.items ≡ ids_of self.old.content) }
        ensures ascend { IfOk result (λ ids. Ascend ids.items) }
    {
        self.published.ids()
    }

    fn sysmod(&mut self, id: &Id) -> Result<Option<Sysmod>, SourceFault>
        ensures reads { ReadsLists SourceMemory self.old self.new result }
        ensures sysmod { IfOk result (λ found. found ≡ record_of self.old.content id.now) }
    {
        self.published.sysmod(id)
    }

    fn superseders(&mut self, id: &Id) -> Result<Vec<Id>, SourceFault>
        ensures reads { ReadsLists SourceMemory self.old self.new result }
        ensures superseders { IfOk result (λ ids. ids.items ≡ superseders self.old.content id.now) }
        ensures ascend { IfOk result (λ ids. Ascend ids.items) }
    {
        self.published.superseders(id)
    }

    fn holds_on(&mut self, id: &Id) -> Result<Vec<Hold>, SourceFault>
        ensures reads { ReadsLists SourceMemory self.old self.new result }
        ensures holds { IfOk result (λ holds. holds.items ≡ holds_on self.old.content id.now) }
        ensures in_key_order { IfOk result (λ holds. IsInKeyOrder holds.items) }
    {
        self.published.holds_on(id)
    }

    ghost lawful = { lists_content_lawful };

    ghost in_order = { lists_content_in_order };
}
