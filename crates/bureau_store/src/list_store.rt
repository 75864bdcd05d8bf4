//! The store in lists.
ghost use Rattle.std.specs.Prelude.{◌≡◌, length, map, option_copied, option_map, IfOk, IfErr, IfSome, OnOk, OnErr, is_some, false};
ghost use Rattle.holddata.specs.HoldBook.{IsInKeyOrder};
ghost use Rattle.zone_lists.specs.ZoneList.{RowsAscend};
ghost use Rattle.catalogue.specs.Ids.{Ascend};
ghost use Rattle.bureau_store.specs.Caller.{IsProper, caller_with};
ghost use Rattle.bureau_store.specs.Effect.{publication, tables_after};
ghost use Rattle.bureau_store.specs.Effects.{IsAscending, effect_as, maker_of};
ghost use Rattle.bureau_store.specs.Held.{held_in};
ghost use Rattle.bureau_store.specs.Lists.{IsOurs, Lists, client_in, last_in, tables_of};
ghost use Rattle.bureau_store.specs.Tables.{NamesAscend, PatternsAscend, opened, patterns_of, rows_of, zone_named};
ghost use Rattle.bureau_store.specs.declared.caller.Caller.TheVariants.{Client as OfClient, Publisher as OfPublisher};
ghost use Rattle.bureau_store.specs.declared.caller.CallerRow.{CallerRow};
ghost use Rattle.bureau_store.specs.declared.fault.StoreFault.TheVariants.{Memory};

mod published;

use crate::by_token::{callers_by_token, copy_rows};
use crate::clients::{client_of, make_for, zone_counts};
use crate::held::held_among;
use crate::kept::{Client, Last, Zone, copy_patterns, zone_of};
use crate::{Caller, CallerRow, Effect, Store, StoreFault};
use catalogue::{Change, ListPublished};
use faults::NoMemory;
use holddata::{Hold, Kind};
use mcs_reader::Id;
use std::alloc::Global;
use std::collections::BTreeMap;
use std::marker::Model;
use zone_lists::{Pattern, ZoneRow};

/// All that the bureau keeps, in lists. A contract sees the lists; their tables are `tables_of`.
#[derive(Drop)]
pub struct ListStore {
    alloc: Global,
    rows: Vec<CallerRow>,
    by_token: BTreeMap<Vec<u8>, Caller>,
    published: ListPublished,
    published_last: Last,
    by_name: BTreeMap<Id, Client>,
}

impl Model for ListStore {
    ghost use Rattle.bureau_store.specs.Lists.{Lists};

    ghost Value = { Lists };

    ghost use Rattle.bureau_store.specs.Kept.{KnowsTokens};
    ghost use Rattle.bureau_store.specs.Lists.{IsOurs};

    ghost view = { λ store. record {
      callers = store.rows.items;
      content = store.published;
      publisher = store.published_last;
      clients = store.by_name.entries;
    } };

    ghost invariant = { λ store. record {
      tokens : KnowsTokens (λ text. text.items) store.by_token.entries store.rows.items;
      ours : IsOurs (record {
        callers = store.rows.items;
        content = store.published;
        publisher = store.published_last;
        clients = store.by_name.entries;
      });
    } };
}

impl ListStore {
    /// A store with these callers, and empty otherwise.
    pub fn new(alloc: Global, callers: &[CallerRow]) -> Result<ListStore, StoreFault>
        ensures opened { IfOk result (λ store. tables_of store ≡ opened callers.now) }
        ensures ours { IfOk result IsOurs }
        ensures memory { IfErr result (λ fault. fault ≡ Memory) }
    {
        let rows = copy_rows(alloc, callers)?;
        let by_token = callers_by_token(alloc, callers)?;
        Ok(ListStore {
            alloc,
            rows,
            by_token,
            published: ListPublished::new(alloc),
            published_last: Last::new(0, Vec::new(alloc)),
            by_name: BTreeMap::new(alloc),
        })
    }

    fn caller_with(&self, token: &[u8]) -> Option<Caller>
        ensures caller { result ≡ caller_with self.now.callers token.now }
        ensures proper { IfSome result IsProper }
    {
        self.by_token.get(token).copied()
    }

    fn last_of(&self, caller: &Caller) -> Result<(u64, Vec<u8>), NoMemory>
        ensures { IfOk result (λ last. record { number = last.0; reply = last.1.items }
            ≡ last_in self.now caller.now) }
    {
        match caller {
            Caller::Publisher => self.published_last.to_pair(),
            Caller::Client(name) => match client_of(&self.by_name, name) {
                Some(client) => client.last().to_pair(),
                None => Ok((0, Vec::new(self.alloc))),
            },
        }
    }

    fn zones_of(&self, client: &Id) -> Result<Vec<(Id, u64)>, NoMemory>
        ensures zones { IfOk result (λ zones. zones.items
            ≡ map (λ zone. (zone.0, length zone.1.rows)) (client_in self.now.clients client.now).zones) }
        ensures ascend { IfOk result
            (λ zones. NamesAscend (map (λ zone. zone.0) zones.items)) }
    {
        match client_of(&self.by_name, client) {
            Some(client) => zone_counts(self.alloc, client.zones()),
            None => Ok(Vec::new(self.alloc)),
        }
    }

    fn zone_count_of(&self, client: &Id) -> u64
        ensures { result ≡ length (client_in self.now.clients client.now).zones }
    {
        match client_of(&self.by_name, client) {
            Some(client) => client.zones().len() as u64,
            None => 0,
        }
    }

    fn zone_at(&self, client: &Id, zone: &Id) -> Option<&Zone>
        ensures { option_copied result ≡ zone_named zone.now (client_in self.now.clients client.now).zones }
    {
        match client_of(&self.by_name, client) {
            Some(client) => zone_of(client.zones(), zone),
            None => None,
        }
    }

    fn rows_at(&self, client: &Id, zone: &Id) -> Result<Option<Vec<ZoneRow>>, NoMemory>
        ensures rows { IfOk result (λ found. option_map (λ rows. rows.items) found
            ≡ option_map (λ table. table.rows)
            (zone_named zone.now (client_in self.now.clients client.now).zones)) }
        ensures ascend { IfOk result (λ found. IfSome found (λ rows. RowsAscend rows.items)) }
    {
        match self.zone_at(client, zone) {
            Some(kept) => Ok(Some(Vec::from_slice(self.alloc, kept.rows())?)),
            None => Ok(None),
        }
    }

    fn received_by(&self, client: &Id) -> Result<Vec<Id>, NoMemory>
        ensures ids { IfOk result (λ ids. ids.items ≡ (client_in self.now.clients client.now).received) }
        ensures ascend { IfOk result (λ ids. Ascend ids.items) }
    {
        match client_of(&self.by_name, client) {
            Some(client) => Vec::from_slice(self.alloc, client.received()),
            None => Ok(Vec::new(self.alloc)),
        }
    }

    fn patterns_at(&self, client: &Id, zone: &Id) -> Result<Vec<Pattern>, NoMemory>
        ensures patterns { IfOk result (λ patterns. patterns.items
            ≡ patterns_of (zone_named zone.now (client_in self.now.clients client.now).zones)) }
        ensures ascend { IfOk result (λ patterns. PatternsAscend patterns.items) }
    {
        match self.zone_at(client, zone) {
            Some(kept) => copy_patterns(self.alloc, kept.patterns()),
            None => Ok(Vec::new(self.alloc)),
        }
    }

    fn holds_in(&self, client: &Id, zone: &Id, kind: Kind) -> Result<Vec<Hold>, NoMemory>
        ensures holds { IfOk result (λ holds. holds.items
            ≡ held_in self.now.content
            (rows_of (zone_named zone.now (client_in self.now.clients client.now).zones)) kind) }
        ensures in_key_order { IfOk result (λ holds. IsInKeyOrder holds.items) }
    {
        match self.zone_at(client, zone) {
            Some(kept) => held_among(self.alloc, self.published.book(), kept.rows(), kind),
            None => held_among(self.alloc, self.published.book(), &[], kind),
        }
    }

    // Makes a publication. If memory runs out, the tables are as they were.
    fn make_publication(&mut self, changes: &[Change], last: Last) -> Result<(), NoMemory>
        ensures done { OnOk result (tables_of self.new
            ≡ tables_after OfPublisher (publication changes.now) last (tables_of self.old)) }
        ensures err { OnErr result (tables_of self.new ≡ tables_of self.old) }
        ensures ours { IsOurs self.new }
    {
        self.published.publish(changes)?;
        self.published_last = last;
        Ok(())
    }

    // Makes a client's change. If memory runs out, the tables are as they were.
    fn make_client(&mut self, client: &Id, effect: &Effect<'_>, last: Last) -> Result<(), NoMemory>
        requires client { maker_of effect.now ≡ OfClient client.now }
        requires ascending { IsAscending effect.now }
        ensures done { OnOk result (tables_of self.new
            ≡ tables_after (maker_of effect.now) (effect_as effect.now) last (tables_of self.old)) }
        ensures err { OnErr result (tables_of self.new ≡ tables_of self.old) }
        ensures ours { IsOurs self.new }
    {
        make_for(self.alloc, &mut self.by_name, client, effect, last)
    }
}

impl Store for ListStore {
    ghost use Rattle.bureau_store.specs.Lists.{NeverOutgrown, RefusesForMemory, tables_of};
    ghost use Rattle.bureau_store.specs.Lists.{lists_hold_tables, lists_in_order};
    ghost use Rattle.bureau_store.specs.Lists.{lists_lawful, lists_show_content, lists_view};

    ghost tables_view = { lists_view };

    ghost outgrown = { NeverOutgrown };

    ghost refuses = { RefusesForMemory };

    fn device_failed(&self) -> bool
        ensures { result ≡ false }
    {
        false
    }

    fn caller_of(&mut self, token: &[u8]) -> Result<Option<Caller>, StoreFault>
        ensures same { self.new ≡ self.old }
        ensures caller { IfOk result (λ found. found ≡ caller_with (tables_of self.old).callers token.now) }
        ensures proper { IfOk result (λ found. IfSome found IsProper) }
        ensures memory { IfErr result (λ fault. fault ≡ Memory) }
    {
        Ok(self.caller_with(token))
    }

    fn last(&mut self, caller: &Caller) -> Result<(u64, Vec<u8>), StoreFault>
        ensures same { self.new ≡ self.old }
        ensures last { IfOk result (λ last. record { number = last.0; reply = last.1.items }
            ≡ (tables_of self.old).last caller.now) }
        ensures memory { IfErr result (λ fault. fault ≡ Memory) }
    {
        Ok(self.last_of(caller)?)
    }

    fn counts(&mut self) -> Result<(u64, u64), StoreFault>
        ensures same { self.new ≡ self.old }
        ensures ours { IsOurs self.old }
        ensures counts { IfOk result (λ counts. (counts.0 ≡ length (tables_of self.old).content.sysmods)
            × (counts.1 ≡ length (tables_of self.old).content.holds)) }
        ensures memory { IfErr result (λ fault. fault ≡ Memory) }
    {
        Ok((
            self.published.sysmod_count() as u64,
            self.published.hold_count() as u64,
        ))
    }

    fn zones(&mut self, client: &Id) -> Result<Vec<(Id, u64)>, StoreFault>
        ensures same { self.new ≡ self.old }
        ensures zones { IfOk result (λ zones. zones.items
            ≡ map (λ zone. (zone.0, length zone.1.rows)) ((tables_of self.old).zones client.now)) }
        ensures ascend { IfOk result
            (λ zones. NamesAscend (map (λ zone. zone.0) zones.items)) }
        ensures memory { IfErr result (λ fault. fault ≡ Memory) }
    {
        Ok(self.zones_of(client)?)
    }

    fn zone_count(&mut self, client: &Id) -> Result<u64, StoreFault>
        ensures same { self.new ≡ self.old }
        ensures count { IfOk result (λ count. count ≡ length ((tables_of self.old).zones client.now)) }
        ensures memory { IfErr result (λ fault. fault ≡ Memory) }
    {
        Ok(self.zone_count_of(client))
    }

    fn has_zone(&mut self, client: &Id, zone: &Id) -> Result<bool, StoreFault>
        ensures same { self.new ≡ self.old }
        ensures found { IfOk result (λ found. found
            ≡ is_some (zone_named zone.now ((tables_of self.old).zones client.now))) }
        ensures memory { IfErr result (λ fault. fault ≡ Memory) }
    {
        Ok(self.zone_at(client, zone).is_some())
    }

    fn zone(&mut self, client: &Id, zone: &Id) -> Result<Option<Vec<ZoneRow>>, StoreFault>
        ensures same { self.new ≡ self.old }
        ensures zone { IfOk result (λ found. option_map (λ rows. rows.items) found
            ≡ option_map (λ table. table.rows)
            (zone_named zone.now ((tables_of self.old).zones client.now))) }
        ensures ascend { IfOk result (λ found. IfSome found (λ rows. RowsAscend rows.items)) }
        ensures memory { IfErr result (λ fault. fault ≡ Memory) }
    {
        Ok(self.rows_at(client, zone)?)
    }

    fn received(&mut self, client: &Id) -> Result<Vec<Id>, StoreFault>
        ensures same { self.new ≡ self.old }
        ensures received { IfOk result (λ ids. ids.items ≡ (tables_of self.old).received client.now) }
        ensures ascend { IfOk result (λ ids. Ascend ids.items) }
        ensures memory { IfErr result (λ fault. fault ≡ Memory) }
    {
        Ok(self.received_by(client)?)
    }

    fn patterns(&mut self, client: &Id, zone: &Id) -> Result<Vec<Pattern>, StoreFault>
        ensures same { self.new ≡ self.old }
        ensures patterns { IfOk result (λ patterns. patterns.items
            ≡ patterns_of (zone_named zone.now ((tables_of self.old).zones client.now))) }
        ensures ascend { IfOk result (λ patterns. PatternsAscend patterns.items) }
        ensures memory { IfErr result (λ fault. fault ≡ Memory) }
    {
        Ok(self.patterns_at(client, zone)?)
    }

    fn held_in(&mut self, client: &Id, zone: &Id, kind: Kind) -> Result<Vec<Hold>, StoreFault>
        ensures same { self.new ≡ self.old }
        ensures holds { IfOk result (λ holds. holds.items
            ≡ held_in (tables_of self.old).content
            (rows_of (zone_named zone.now ((tables_of self.old).zones client.now))) kind) }
        ensures in_key_order { IfOk result (λ holds. IsInKeyOrder holds.items) }
        ensures memory { IfErr result (λ fault. fault ≡ Memory) }
    {
        Ok(self.holds_in(client, zone, kind)?)
    }

    fn make(&mut self, number: u64, reply: &[u8], effect: &Effect<'_>) -> Result<(), StoreFault>
        requires { IsAscending effect.now }
        ensures done { OnOk result (tables_of self.new
            ≡ tables_after (maker_of effect.now) (effect_as effect.now)
            (record { number = number; reply = reply.now }) (tables_of self.old)) }
        ensures err { OnErr result (tables_of self.new ≡ tables_of self.old) }
        ensures ours { IsOurs self.new }
        ensures memory { IfErr result (λ fault. fault ≡ Memory) }
    {
        let last = Last::new(number, Vec::from_slice(self.alloc, reply)?);
        match *effect {
            Effect::Publication { changes } => self.make_publication(changes, last)?,
            Effect::ZonePut { client, .. }
            | Effect::ZoneDropped { client, .. }
            | Effect::ReceivedPut { client, .. }
            | Effect::PatternsPut { client, .. } => self.make_client(client, effect, last)?,
        }
        Ok(())
    }

    ghost tables_lawful = { lists_lawful };

    ghost shows_content = { lists_show_content };

    ghost holds_tables = { lists_hold_tables };

    ghost tables_in_order = { lists_in_order };
}
