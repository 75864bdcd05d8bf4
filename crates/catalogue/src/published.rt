//! Sources of the published content.
ghost use Rattle.std.specs.Prelude.{◌≡◌, IfOk, map};
ghost use Rattle.holddata.specs.HoldBook.{IsInKeyOrder};
ghost use Rattle.catalogue.specs.Content.{Content, IsInOrder, ids_of, record_of, superseders, holds_on};
ghost use Rattle.catalogue.specs.Ids.{Ascend};
ghost use Rattle.catalogue.specs.Seen.{seen_in};
ghost use Rattle.catalogue.specs.View.{Asks, IsLawful, IsOpen, MayAsk, Tells, View};
ghost use Rattle.catalogue.specs.declared.fault.SourceFault.TheVariants.{Device};

use crate::{Seen, SourceFault, Sysmod};
use holddata::Hold;
use mcs_reader::Id;
use std::alloc::Global;

/// A source of the published content: lists, or a file.
///
/// What a call tells of the content is promised under two conditions. The file was this product's own as the
/// call began, and the disk has returned what was written, up to the call's end. For lists both are always true.
/// Lists ascend in any case, each entry once: rows that don't are a fault of the device.
pub trait Published {
    /// The view of the source, and what is published.
    ghost content_view: { View Self Content };

    /// The ids of all SYSMODs that are catalogued, ascending.
    ///
    /// # Errors
    ///
    /// `Memory` if memory ran out; `Device` if what lies below has failed, now or before, or tells rows out of
    /// order.
    fn ids(&mut self) -> Result<Vec<Id>, SourceFault>
        ensures asks { Asks content_view Device self.old self.new result }
        ensures ids { IfOk result (λ ids. Tells content_view self.old self.new
            (λ content. ids.items ≡ ids_of content)) }
        ensures ascend { IfOk result (λ ids. Ascend ids.items) };

    /// The record of a SYSMOD, or `None` if it isn't catalogued.
    ///
    /// # Errors
    ///
    /// Those of [`Published::ids`].
    fn sysmod(&mut self, id: &Id) -> Result<Option<Sysmod>, SourceFault>
        ensures asks { Asks content_view Device self.old self.new result }
        ensures sysmod { IfOk result (λ found. Tells content_view self.old self.new
            (λ content. found ≡ record_of content id.now)) };

    /// The catalogued SYSMODs whose SUP names this one, ascending.
    ///
    /// # Errors
    ///
    /// Those of [`Published::ids`].
    fn superseders(&mut self, id: &Id) -> Result<Vec<Id>, SourceFault>
        ensures asks { Asks content_view Device self.old self.new result }
        ensures superseders { IfOk result (λ ids. Tells content_view self.old self.new
            (λ content. ids.items ≡ superseders content id.now)) }
        ensures ascend { IfOk result (λ ids. Ascend ids.items) };

    /// The holds on a SYSMOD, in the order of their keys.
    ///
    /// # Errors
    ///
    /// Those of [`Published::ids`].
    fn holds_on(&mut self, id: &Id) -> Result<Vec<Hold>, SourceFault>
        ensures asks { Asks content_view Device self.old self.new result }
        ensures holds { IfOk result (λ holds. Tells content_view self.old self.new
            (λ content. holds.items ≡ holds_on content id.now)) }
        ensures in_key_order { IfOk result (λ holds. IsInKeyOrder holds.items) };

    /// Reads what is published of each of some SYSMODs, in the order of the list. A source that can read many at
    /// once does so; any other reads one after the other.
    ///
    /// # Errors
    ///
    /// Those of [`Published::ids`].
    fn seen(&mut self, alloc: Global, ids: &[Id]) -> Result<Vec<Seen>, SourceFault>
        ensures asks { MayAsk content_view Device self.old self.new result }
        ensures seen { IfOk result (λ found. Tells content_view self.old self.new
            (λ content. found.items ≡ map (seen_in content) ids.now)) }
    {
        let mut found = Vec::with_capacity(alloc, ids.len())?;
        for id in ids {
            let sysmod = self.sysmod(id)?;
            let holds = self.holds_on(id)?;
            found.push(Seen { sysmod, holds })?;
        }
        Ok(found)
    }

    /// The laws of the view.
    ghost lawful: { IsLawful content_view };

    /// If this product made the source, what is published is in order.
    ghost in_order: { (source : Self) (content : Content) → content_view.is_ours source →
        IsOpen content_view source → content_view.stands source content → IsInOrder content };
}
