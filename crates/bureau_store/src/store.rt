//! The store of all that the bureau keeps.
ghost use Rattle.std.specs.Prelude.{◌≡◌, ◌≤◌, length, map, nat_lt, option_map, IfErr, IfOk, IfSome, is_some};
ghost use Rattle.holddata.specs.HoldBook.{IsInKeyOrder};
ghost use Rattle.zone_lists.specs.ZoneList.{RowsAscend};
ghost use Rattle.catalogue.specs.Ids.{Ascend};
ghost use Rattle.catalogue.specs.View.{IsLawful, IsOpen, Tells, View};
ghost use Rattle.bureau_store.specs.Caller.{IsProper, caller_with};
ghost use Rattle.bureau_store.specs.Effect.{publication, zone_put, zone_dropped, received_put, patterns_put};
ghost use Rattle.bureau_store.specs.Effects.{IsAscending, effect_as, maker_of};
ghost use Rattle.bureau_store.specs.Held.{held_in};
ghost use Rattle.bureau_store.specs.Store.{AreOfOneStore, Makes, Reads, Update, greatest_number, update};
ghost use Rattle.bureau_store.specs.Tables.{AreInOrder, NamesAscend, PatternsAscend, Tables, patterns_of, rows_of, zone_named};
ghost use Rattle.bureau_store.specs.declared.caller.Caller.TheVariants.{Publisher, Client};
ghost use Rattle.bureau_store.specs.declared.fault.StoreFault.{StoreFault};

use crate::{Caller, Effect, StoreFault};
use catalogue::{Change, Published};
use holddata::{Hold, Kind};
use mcs_reader::Id;
use zone_lists::{Pattern, ZoneRow};

/// All that the bureau keeps, in lists or in a file.
///
/// Reads leave the tables as they are, and return an empty list of what isn't there. A change replaces what it names
/// whole, and sets the caller's last number and reply, both at once. A refused change leaves the tables as they were.
/// Contracts say what a change does if it is due: one of the callers makes it, with that caller's next number, and the
/// zone that it names is there. What a call tells of the tables is promised under two conditions. The file was this
/// product's own as the call began, and the disk has returned what was written, up to the call's end. For lists both
/// are always true. Lists ascend in any case, each entry once.
///
/// # Errors
///
/// `Memory` if memory ran out; `Device` if the device failed, now or before; of a change alone, `Size` if there was no
/// room for it on the device. A refused call changes nothing.
pub trait Store: Published {
    /// The view of the store, with all its tables.
    ghost tables_view: { View Self Tables };

    /// Between these two states the change has outgrown the device: there was no room on it. In lists that never
    /// happens.
    ghost outgrown: { Update → Self → Self → Type 0 };

    /// Between these two states the change is refused with this fault: what each store says of it beyond what all do.
    /// Lists refuse a change only for want of memory.
    ghost refuses: { Update → Self → Self → StoreFault → Type 0 };

    /// Whether the device has failed since the store was made. From then on every call is refused so. It takes no
    /// memory.
    fn device_failed(&self) -> bool
        ensures { result ≡ nat_lt 0 (tables_view.failures self.now) };

    /// The caller whose token this is, or `None` if no caller has it.
    fn caller_of(&mut self, token: &[u8]) -> Result<Option<Caller>, StoreFault>
        ensures reads { Reads tables_view self.old self.new result }
        ensures caller { IfOk result (λ found. Tells tables_view self.old self.new
            (λ tables. found ≡ caller_with tables.callers token.now)) }
        ensures proper { IfOk result (λ found. IfSome found IsProper) };

    /// The number of the caller's last change and the reply that is kept for it: 0 and an empty reply before the first.
    fn last(&mut self, caller: &Caller) -> Result<(u64, Vec<u8>), StoreFault>
        requires { IsProper caller.now }
        ensures reads { Reads tables_view self.old self.new result }
        ensures last { IfOk result (λ last. Tells tables_view self.old self.new
            (λ tables. record { number = last.0; reply = last.1.items } ≡ tables.last caller.now)) };

    /// The number of SYSMODs that are catalogued, and of holds in the book.
    fn counts(&mut self) -> Result<(u64, u64), StoreFault>
        ensures reads { Reads tables_view self.old self.new result }
        ensures counts { IfOk result (λ counts. Tells tables_view self.old self.new
            (λ tables. (counts.0 ≡ length tables.content.sysmods)
            × (counts.1 ≡ length tables.content.holds))) };

    /// The zones of a client, ascending by name, each with the number of its rows.
    fn zones(&mut self, client: &Id) -> Result<Vec<(Id, u64)>, StoreFault>
        requires { IsProper (Client client.now) }
        ensures reads { Reads tables_view self.old self.new result }
        ensures zones { IfOk result (λ zones. Tells tables_view self.old self.new
            (λ tables. zones.items ≡ map (λ zone. (zone.0, length zone.1.rows)) (tables.zones client.now))) }
        ensures ascend { IfOk result
            (λ zones. NamesAscend (map (λ zone. zone.0) zones.items)) };

    /// The number of zones that a client has.
    fn zone_count(&mut self, client: &Id) -> Result<u64, StoreFault>
        requires { IsProper (Client client.now) }
        ensures reads { Reads tables_view self.old self.new result }
        ensures count { IfOk result (λ count. Tells tables_view self.old self.new
            (λ tables. count ≡ length (tables.zones client.now))) };

    /// Whether a client has a zone of this name.
    fn has_zone(&mut self, client: &Id, zone: &Id) -> Result<bool, StoreFault>
        requires { IsProper (Client client.now) }
        ensures reads { Reads tables_view self.old self.new result }
        ensures found { IfOk result (λ found. Tells tables_view self.old self.new
            (λ tables. found ≡ is_some (zone_named zone.now (tables.zones client.now)))) };

    /// The rows of a zone, ascending, or `None` if the client has no such zone.
    fn zone(&mut self, client: &Id, zone: &Id) -> Result<Option<Vec<ZoneRow>>, StoreFault>
        requires { IsProper (Client client.now) }
        ensures reads { Reads tables_view self.old self.new result }
        ensures zone { IfOk result (λ found. Tells tables_view self.old self.new
            (λ tables. option_map (λ rows. rows.items) found
            ≡ option_map (λ table. table.rows) (zone_named zone.now (tables.zones client.now)))) }
        ensures ascend { IfOk result (λ found. IfSome found (λ rows. RowsAscend rows.items)) };

    /// The SYSMODs that a client has received, ascending.
    fn received(&mut self, client: &Id) -> Result<Vec<Id>, StoreFault>
        requires { IsProper (Client client.now) }
        ensures reads { Reads tables_view self.old self.new result }
        ensures received { IfOk result (λ ids. Tells tables_view self.old self.new
            (λ tables. ids.items ≡ tables.received client.now)) }
        ensures ascend { IfOk result (λ ids. Ascend ids.items) };

    /// The patterns of the fix categories that a client asks for in a zone, ascending.
    fn patterns(&mut self, client: &Id, zone: &Id) -> Result<Vec<Pattern>, StoreFault>
        requires { IsProper (Client client.now) }
        ensures reads { Reads tables_view self.old self.new result }
        ensures patterns { IfOk result (λ patterns. Tells tables_view self.old self.new
            (λ tables. patterns.items ≡ patterns_of (zone_named zone.now (tables.zones client.now)))) }
        ensures ascend { IfOk result (λ patterns. PatternsAscend patterns.items) };

    /// The holds of a kind on SYSMODs that are installed in a zone, in the order of their keys.
    fn held_in(&mut self, client: &Id, zone: &Id, kind: Kind) -> Result<Vec<Hold>, StoreFault>
        requires { IsProper (Client client.now) }
        ensures reads { Reads tables_view self.old self.new result }
        ensures holds { IfOk result (λ holds. Tells tables_view self.old self.new
            (λ tables. holds.items
            ≡ held_in tables.content (rows_of (zone_named zone.now (tables.zones client.now))) kind)) }
        ensures in_key_order { IfOk result (λ holds. IsInKeyOrder holds.items) };

    /// Makes a change with this effect. Its number and reply are kept as its caller's last.
    fn make(&mut self, number: u64, reply: &[u8], effect: &Effect<'_>) -> Result<(), StoreFault>
        requires maker { IsProper (maker_of effect.now) }
        requires number { number ≤ greatest_number }
        requires ascending { IsAscending effect.now }
        ensures makes { Makes tables_view outgrown
            (update (maker_of effect.now) (effect_as effect.now) number reply.now)
            self.old self.new result }
        ensures cause { IfErr result (refuses
            (update (maker_of effect.now) (effect_as effect.now) number reply.now)
            self.old self.new) };

    /// Makes a publication of these changes to the content. Its number and reply are kept as the publisher's last.
    fn publish(&mut self, number: u64, reply: &[u8], changes: &[Change]) -> Result<(), StoreFault>
        requires { number ≤ greatest_number }
        ensures makes { Makes tables_view outgrown
            (update Publisher (publication changes.now) number reply.now)
            self.old self.new result }
        ensures cause { IfErr result (refuses
            (update Publisher (publication changes.now) number reply.now)
            self.old self.new) }
    {
        self.make(number, reply, &Effect::Publication { changes })
    }

    /// Puts a client's zone, which keeps its patterns if it was there before.
    fn put_zone(
        &mut self,
        client: &Id,
        number: u64,
        reply: &[u8],
        zone: &Id,
        rows: &[ZoneRow],
    ) -> Result<(), StoreFault>
        requires client { IsProper (Client client.now) }
        requires number { number ≤ greatest_number }
        requires ascending { RowsAscend rows.now }
        ensures makes { Makes tables_view outgrown
            (update (Client client.now) (zone_put zone.now rows.now) number reply.now)
            self.old self.new result }
        ensures cause { IfErr result (refuses
            (update (Client client.now) (zone_put zone.now rows.now) number reply.now)
            self.old self.new) }
    {
        self.make(number, reply, &Effect::ZonePut { client, zone, rows })
    }

    /// Drops a client's zone with its patterns.
    fn drop_zone(
        &mut self,
        client: &Id,
        number: u64,
        reply: &[u8],
        zone: &Id,
    ) -> Result<(), StoreFault>
        requires client { IsProper (Client client.now) }
        requires number { number ≤ greatest_number }
        ensures makes { Makes tables_view outgrown
            (update (Client client.now) (zone_dropped zone.now) number reply.now)
            self.old self.new result }
        ensures cause { IfErr result (refuses
            (update (Client client.now) (zone_dropped zone.now) number reply.now)
            self.old self.new) }
    {
        self.make(number, reply, &Effect::ZoneDropped { client, zone })
    }

    /// Puts the list of SYSMODs that a client has received.
    fn put_received(
        &mut self,
        client: &Id,
        number: u64,
        reply: &[u8],
        ids: &[Id],
    ) -> Result<(), StoreFault>
        requires client { IsProper (Client client.now) }
        requires number { number ≤ greatest_number }
        requires ascending { Ascend ids.now }
        ensures makes { Makes tables_view outgrown
            (update (Client client.now) (received_put ids.now) number reply.now)
            self.old self.new result }
        ensures cause { IfErr result (refuses
            (update (Client client.now) (received_put ids.now) number reply.now)
            self.old self.new) }
    {
        self.make(number, reply, &Effect::ReceivedPut { client, ids })
    }

    /// Puts the patterns of the fix categories that a client asks for in a zone that is there.
    fn put_patterns(
        &mut self,
        client: &Id,
        number: u64,
        reply: &[u8],
        zone: &Id,
        patterns: &[Pattern],
    ) -> Result<(), StoreFault>
        requires client { IsProper (Client client.now) }
        requires number { number ≤ greatest_number }
        requires ascending { PatternsAscend patterns.now }
        ensures makes { Makes tables_view outgrown
            (update (Client client.now) (patterns_put zone.now patterns.now) number reply.now)
            self.old self.new result }
        ensures cause { IfErr result (refuses
            (update (Client client.now) (patterns_put zone.now patterns.now) number reply.now)
            self.old self.new) }
    {
        let effect = Effect::PatternsPut {
            client,
            zone,
            patterns,
        };
        self.make(number, reply, &effect)
    }

    /// The laws of the view.
    ghost tables_lawful: { IsLawful tables_view };

    /// The published content is part of the tables.
    ghost shows_content: { AreOfOneStore Self.Published.content_view tables_view };

    /// A store that this product made, and whose device never failed, holds some tables.
    ghost holds_tables: { (store : Self) → tables_view.is_ours store → IsOpen tables_view store
        → (tables : Tables) × tables_view.stands store tables };

    /// If this product made a store, its published content and each client's zones are in order.
    ghost tables_in_order: { (store : Self) (tables : Tables)
        → tables_view.is_ours store → IsOpen tables_view store → tables_view.stands store tables
        → AreInOrder tables };
}
