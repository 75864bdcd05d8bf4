//! A change, with its number and the reply that is kept for it.
ghost use Rattle.std.specs.Prelude.{◌≡◌, ◌≤◌, ℕ, Some, true};
ghost use Rattle.bureau_store.specs.Caller.{IsProper, publisher_name};
ghost use Rattle.bureau_store.specs.Effects.{effect_as, maker_of};
ghost use Rattle.bureau_store.specs.Store.{greatest_number};
ghost use Rattle.sql_tables.specs.Changes.{changed};
ghost use Rattle.sql_tables.specs.Stored.{name_of};
ghost use Rattle.sql_tables.specs.Fit.{IsFit};
ghost use Rattle.sql_writes.specs.Altering.{Alters, RefusesExcused, TakesRoom};
ghost use Rattle.sql_writes.specs.Effects.{stored_by};
ghost use Rattle.sql_writes.specs.Room.{HasRoom, IsRoomy, is_short_effect, rows_made};

use crate::publication::put_changes;
use crate::zone::keep_head;
use crate::{delete, insert, load};
use bureau_store::{Caller, Effect};
use mcs_reader::Id;
use sql_rows::{Heads, LastChanges, Received, Zone, ZoneRows};
use sqlite::{Alter, Error, Transaction};
use std::alloc::Global;

/// Makes the change of an effect, without its number. A zone that is put keeps its patterns if it was there before.
fn change<S: Alter>(
    alloc: Global,
    tx: &mut Transaction<'_, S>,
    effect: &Effect<'_>,
) -> Result<(), Error>
    ensures same { tx.new.conn.ghost_name ≡ tx.old.conn.ghost_name }
    ensures changes { Alters S.Store tx.old.conn.now tx.new.conn.now result
        (changed (maker_of effect.now) (effect_as effect.now)) }
    ensures takes { IsFit (effect_as effect.now) → is_short_effect (effect_as effect.now) ≡ true
        → TakesRoom S.Store tx.old.conn.now tx.new.conn.now result
        (rows_made (effect_as effect.now)) (λ stored. Unit {0}) }
{
    match *effect {
        Effect::Publication { changes } => put_changes(alloc, tx, changes),
        Effect::ZonePut { client, zone, rows } => {
            keep_head(alloc, tx, client, zone)?;
            let key = Zone {
                client: *client,
                zone: *zone,
            };
            load::replace::<Zone, ZoneRows, S>(tx, &key, rows)
        }
        Effect::ZoneDropped { client, zone } => {
            let key = Zone {
                client: *client,
                zone: *zone,
            };
            delete::any_of::<Zone, Heads, S>(tx, &key)?;
            delete::any_of::<Zone, ZoneRows, S>(tx, &key)
        }
        Effect::ReceivedPut { client, ids } => {
            load::replace_joined::<Id, Received, S>(alloc, tx, client, ids)
        }
        Effect::PatternsPut {
            client,
            zone,
            patterns,
        } => {
            let key = Zone {
                client: *client,
                zone: *zone,
            };
            load::replace_joined::<Zone, Heads, S>(alloc, tx, &key, patterns)
        }
    }
}

fn publisher() -> Id
    ensures { result ≡ publisher_name }
{
    match Id::new(Caller::Publisher.name()) {
        Some(name) => name,
        None => unreachable!(),
    }
}

/// The name under which the last change of this one's caller is kept.
fn name(effect: &Effect<'_>) -> Id
    requires { IsProper (maker_of effect.now) }
    ensures { name_of (maker_of effect.now) ≡ Some result }
{
    match *effect {
        Effect::Publication { .. } => publisher(),
        Effect::ZonePut { client, .. }
        | Effect::ZoneDropped { client, .. }
        | Effect::ReceivedPut { client, .. }
        | Effect::PatternsPut { client, .. } => *client,
    }
}

/// Makes a change, with this number and with the reply that is kept for it.
pub fn write<S: Alter>(
    alloc: Global,
    tx: &mut Transaction<'_, S>,
    number: u64,
    reply: &[u8],
    effect: &Effect<'_>,
) -> Result<(), Error>
    requires maker { IsProper (maker_of effect.now) }
    requires number { number ≤ greatest_number }
    ensures same { tx.new.conn.ghost_name ≡ tx.old.conn.ghost_name }
    ensures changes { Alters S.Store tx.old.conn.now tx.new.conn.now result
        (stored_by effect.now number reply.now) }
    ensures excused { (most : ℕ) → IsFit (effect_as effect.now)
        → HasRoom (effect_as effect.now) (record { number = number; reply = reply.now }) most
        → RefusesExcused S.Store tx.old.conn.now tx.new.conn.now result (IsRoomy most) }
{
    change(alloc, tx, effect)?;
    let name = name(effect);
    delete::rows_of::<Id, LastChanges, S>(tx, &name)?;
    insert::last_change(tx, &name, number, reply)
}
