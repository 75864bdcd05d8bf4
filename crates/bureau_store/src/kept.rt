//! The tables of one client.
ghost use Rattle.std.specs.Prelude.{◌≡◌, length, IfOk, OnOk, OnErr, option_copied};
ghost use Rattle.std.specs.Map.{keys_of};
ghost use Rattle.zone_lists.specs.ZoneList.{RowsAscend};
ghost use Rattle.catalogue.specs.Ids.{Ascend};
ghost use Rattle.bureau_store.specs.Effect.{zone_put, zone_dropped, received_put, patterns_put};
ghost use Rattle.bureau_store.specs.Effects.{IsAscending, effect_as};
ghost use Rattle.bureau_store.specs.Kept.{rows_at, patterns_at, with_zone};
ghost use Rattle.bureau_store.specs.Lists.{client_after, nothing_sent};
ghost use Rattle.bureau_store.specs.Tables.{NamesAscend, PatternsAscend, zone_named};

use crate::Effect;
use faults::NoMemory;
use mcs_reader::Id;
use std::alloc::Global;
use std::collections::BTreeMap;
use std::marker::Model;
use zone_lists::{Pattern, ZoneRow};

/// A caller's last change. A contract sees its number and the bytes of its reply.
#[derive(Drop)]
pub(crate) struct Last {
    number: u64,
    reply: Vec<u8>,
}

impl Model for Last {
    ghost use Rattle.bureau_store.specs.Tables.{LastChange};

    ghost Value = { LastChange };

    ghost view = { λ last. record { number = last.number; reply = last.reply.items } };
}

impl Last {
    /// The change with this number and reply.
    pub(crate) fn new(number: u64, reply: Vec<u8>) -> Last
        ensures { result ≡ record { number = number; reply = reply.items } }
    {
        Last { number, reply }
    }

    /// Copies the number and the reply.
    pub(crate) fn to_pair(&self) -> Result<(u64, Vec<u8>), NoMemory>
        ensures { IfOk result (λ pair. record { number = pair.0; reply = pair.1.items } ≡ self.now) }
    {
        let reply = self.reply.clone()?;
        Ok((self.number, reply))
    }
}

/// A zone of a client: its rows and its patterns, both ascending.
#[derive(Drop)]
pub(crate) struct Zone {
    rows: Vec<ZoneRow>,
    patterns: Vec<Pattern>,
}

impl Model for Zone {
    ghost use Rattle.zone_lists.specs.ZoneList.{RowsAscend};
    ghost use Rattle.bureau_store.specs.Tables.{PatternsAscend, ZoneTable};

    ghost Value = { ZoneTable };

    ghost view = { λ zone. record { rows = zone.rows.items; patterns = zone.patterns.items } };

    ghost invariant = { λ zone. record {
      rows : RowsAscend zone.rows.items;
      patterns : PatternsAscend zone.patterns.items;
    } };
}

impl Zone {
    /// A zone with these rows and patterns.
    pub(crate) fn new(rows: Vec<ZoneRow>, patterns: Vec<Pattern>) -> Zone
        requires rows { RowsAscend rows.items }
        requires patterns { PatternsAscend patterns.items }
        ensures { result ≡ record { rows = rows.items; patterns = patterns.items } }
    {
        Zone { rows, patterns }
    }

    /// The number of its rows.
    pub(crate) fn row_count(&self) -> u64
        ensures { result ≡ length self.now.rows }
    {
        self.rows.len() as u64
    }

    /// Its rows.
    pub(crate) fn rows(&self) -> &[ZoneRow]
        ensures value { result.now ≡ self.now.rows }
        ensures ascend { RowsAscend self.now.rows }
    {
        self.rows.as_slice()
    }

    /// Its patterns.
    pub(crate) fn patterns(&self) -> &[Pattern]
        ensures value { result.now ≡ self.now.patterns }
        ensures ascend { PatternsAscend self.now.patterns }
    {
        self.patterns.as_slice()
    }
}

/// The tables of a client.
#[derive(Drop)]
pub(crate) struct Client {
    alloc: Global,
    last: Last,
    zones: BTreeMap<Id, Zone>,
    received: Vec<Id>,
}

impl Model for Client {
    ghost use Rattle.std.specs.Map.{keys_of};
    ghost use Rattle.catalogue.specs.Ids.{Ascend};
    ghost use Rattle.bureau_store.specs.Lists.{ClientTable};
    ghost use Rattle.bureau_store.specs.Tables.{NamesAscend};

    ghost Value = { ClientTable };

    ghost view = { λ client. record {
      last = client.last;
      zones = client.zones.entries;
      received = client.received.items;
    } };

    ghost invariant = { λ client. record {
      zones : NamesAscend (keys_of client.zones.entries);
      received : Ascend client.received.items;
    } };
}

impl Client {
    /// A client that has sent nothing.
    pub(crate) fn new(alloc: Global) -> Client
        ensures { result ≡ nothing_sent }
    {
        Client {
            alloc,
            last: Last::new(0, Vec::new(alloc)),
            zones: BTreeMap::new(alloc),
            received: Vec::new(alloc),
        }
    }

    /// Its last change.
    pub(crate) fn last(&self) -> &Last
        ensures { result.now ≡ self.now.last }
    {
        &self.last
    }

    /// Its zones by name.
    pub(crate) fn zones(&self) -> &BTreeMap<Id, Zone>
        ensures value { result.now.entries ≡ self.now.zones }
        ensures ascend { NamesAscend (keys_of self.now.zones) }
    {
        &self.zones
    }

    /// The SYSMODs that it has received.
    pub(crate) fn received(&self) -> &[Id]
        ensures value { result.now ≡ self.now.received }
        ensures ascend { Ascend self.now.received }
    {
        self.received.as_slice()
    }

    /// Makes a change, which becomes the client's last. If memory runs out, all is as it was.
    pub(crate) fn make(&mut self, effect: &Effect<'_>, last: Last) -> Result<(), NoMemory>
        requires { IsAscending effect.now }
        ensures done { OnOk result (self.new ≡ client_after (effect_as effect.now) last self.old) }
        ensures err { OnErr result (self.new ≡ self.old) }
        ensures ascend { NamesAscend (keys_of self.new.zones) }
    {
        match *effect {
            Effect::Publication { .. } => self.last = last,
            Effect::ZonePut { zone, rows, .. } => self.put_rows(zone, rows, last)?,
            Effect::ZoneDropped { zone, .. } => self.drop_zone(zone, last),
            Effect::ReceivedPut { ids, .. } => self.put_received(ids, last)?,
            Effect::PatternsPut { zone, patterns, .. } => self.put_patterns(zone, patterns, last)?,
        }
        Ok(())
    }

    fn put_rows(&mut self, zone: &Id, rows: &[ZoneRow], last: Last) -> Result<(), NoMemory>
        requires { RowsAscend rows.now }
        ensures done { OnOk result (self.new ≡ client_after (zone_put zone.now rows.now) last self.old) }
        ensures err { OnErr result (self.new ≡ self.old) }
        ensures ascend { NamesAscend (keys_of self.new.zones) }
    {
        let rows = Vec::from_slice(self.alloc, rows)?;
        let patterns = patterns_kept(self.alloc, &self.zones, zone)?;
        self.put_table(*zone, Zone::new(rows, patterns), last)
    }

    fn drop_zone(&mut self, zone: &Id, last: Last)
        ensures done { self.new ≡ client_after (zone_dropped zone.now) last self.old }
        ensures ascend { NamesAscend (keys_of self.new.zones) }
    {
        self.zones.remove(zone);
        self.last = last;
    }

    fn put_received(&mut self, ids: &[Id], last: Last) -> Result<(), NoMemory>
        requires { Ascend ids.now }
        ensures done { OnOk result (self.new ≡ client_after (received_put ids.now) last self.old) }
        ensures err { OnErr result (self.new ≡ self.old) }
        ensures ascend { NamesAscend (keys_of self.new.zones) }
    {
        self.received = Vec::from_slice(self.alloc, ids)?;
        self.last = last;
        Ok(())
    }

    fn put_patterns(&mut self, zone: &Id, patterns: &[Pattern], last: Last) -> Result<(), NoMemory>
        requires { PatternsAscend patterns.now }
        ensures done { OnOk result
            (self.new ≡ client_after (patterns_put zone.now patterns.now) last self.old) }
        ensures err { OnErr result (self.new ≡ self.old) }
        ensures ascend { NamesAscend (keys_of self.new.zones) }
    {
        let patterns = copy_patterns(self.alloc, patterns)?;
        let rows = rows_kept(self.alloc, &self.zones, zone)?;
        self.put_table(*zone, Zone::new(rows, patterns), last)
    }

    // Puts the rows and patterns of a zone.
    fn put_table(&mut self, name: Id, zone: Zone, last: Last) -> Result<(), NoMemory>
        ensures done { OnOk result (self.new ≡ with_zone name zone last self.old) }
        ensures err { OnErr result (self.new ≡ self.old) }
        ensures ascend { NamesAscend (keys_of self.new.zones) }
    {
        self.zones.insert(name, zone)?;
        self.last = last;
        Ok(())
    }
}

/// The zone of this name.
pub(crate) fn zone_of<'a>(zones: &'a BTreeMap<Id, Zone>, zone: &Id) -> Option<&'a Zone>
    ensures { option_copied result ≡ zone_named zone.now zones.now.entries }
{
    zones.get(zone)
}

// Copies the patterns of a zone.
fn patterns_kept(
    alloc: Global,
    zones: &BTreeMap<Id, Zone>,
    zone: &Id,
) -> Result<Vec<Pattern>, NoMemory>
    ensures patterns { IfOk result (λ patterns. patterns.items ≡ patterns_at zone.now zones.now.entries) }
    ensures ascend { IfOk result (λ patterns. PatternsAscend patterns.items) }
{
    match zone_of(zones, zone) {
        Some(kept) => copy_patterns(alloc, kept.patterns()),
        None => Ok(Vec::new(alloc)),
    }
}

/// Copies patterns.
pub(crate) fn copy_patterns(alloc: Global, patterns: &[Pattern]) -> Result<Vec<Pattern>, NoMemory>
    ensures { IfOk result (λ copy. copy.items ≡ patterns.now) }
{
    let mut copy = Vec::with_capacity(alloc, patterns.len())?;
    for pattern in patterns {
        copy.push(pattern.copy()?)?;
    }
    Ok(copy)
}

// Copies the rows of a zone.
fn rows_kept(alloc: Global, zones: &BTreeMap<Id, Zone>, zone: &Id) -> Result<Vec<ZoneRow>, NoMemory>
    ensures rows { IfOk result (λ rows. rows.items ≡ rows_at zone.now zones.now.entries) }
    ensures ascend { IfOk result (λ rows. RowsAscend rows.items) }
{
    match zone_of(zones, zone) {
        Some(kept) => Vec::from_slice(alloc, kept.rows()),
        None => Ok(Vec::new(alloc)),
    }
}
