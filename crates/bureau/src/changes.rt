//! The outcomes of changes: the number counts first, then whether the zone is there, then the body.
ghost use Rattle.std.specs.Prelude.{◌≡◌, ◌≤◌, IfOk};
ghost use Rattle.catalogue.specs.View.{Tells};
ghost use Rattle.bureau_store.specs.Caller.{IsProper};
ghost use Rattle.bureau_store.specs.Store.{greatest_number};
ghost use Rattle.bureau_store.specs.Tables.{zone_named};
ghost use Rattle.bureau_store.specs.declared.caller.Caller.TheVariants.{Publisher, Client};
ghost use Rattle.bureau.specs.Call as call;
ghost use Rattle.bureau.specs.Outcomes.{IsOutcome, IsFit, IsInTurn, IsInTurnAt};
ghost use Rattle.bureau.specs.Outcome.{has_room, plain};
ghost use Rattle.bureau.specs.Reading.{HasRead};
ghost use Rattle.faults.specs.FaultText.{text_of};
ghost use Rattle.faults.specs.declared.fault.Cause.TheVariants.{Input};
ghost use Rattle.bureau.specs.Replies.{reply_as};

use crate::lack::Lack;
use crate::number_order::number_in_turn;
use crate::outcome::{AcceptedChange, Effect, Outcome};
use crate::publication::changes_in;
use crate::texts::{
    patterns_line, publication_line, received_line, zone_dropped_line, zone_put_line,
};
use crate::{NoMemory, Reply};
use bureau_store::{Caller, Store};
use catalogue::touched;
use faults::{AnyFault, Cause};
use mcs_reader::Id;
use std::alloc::Global;
use zone_lists::{patterns, received_rows, zone_rows};

/// The most zones of a client.
const MOST_ZONES: u64 = 64;

/// The outcome of a publication.
pub(crate) fn publish<S: Store>(
    alloc: Global,
    store: &mut S,
    number: Option<u64>,
    body: &[u8],
) -> Result<Outcome, Lack>
    ensures reads { HasRead S.tables_view store.old store.new result }
    ensures outcome { IfOk result (λ outcome. Tells S.tables_view store.old store.new
        (λ this. IsOutcome Publisher (call.publish number body.now) this outcome)) }
    ensures fit { IfOk result IsFit }
{
    let number = match in_turn(alloc, store, &Caller::Publisher, number)? {
        Ok(number) => number,
        Err(reply) => return Ok(Outcome::Answered(reply)),
    };
    let changes = match changes_in(alloc, body) {
        Ok(changes) => changes,
        Err(fault) => return Ok(Outcome::Answered(refusal(alloc, fault)?)),
    };
    let reply = publication_line(alloc, &changes)?;
    let touched = touched(alloc, store, &changes)?;
    Ok(Outcome::Accepted(AcceptedChange {
        number,
        reply,
        effect: Effect::Publication { changes, touched },
    }))
}

/// The outcome of a zone that is put.
pub(crate) fn put_zone<S: Store>(
    alloc: Global,
    store: &mut S,
    client: &Id,
    number: Option<u64>,
    zone: &Id,
    body: &[u8],
) -> Result<Outcome, Lack>
    requires { IsProper (Client client.now) }
    ensures reads { HasRead S.tables_view store.old store.new result }
    ensures outcome { IfOk result (λ outcome. Tells S.tables_view store.old store.new
        (λ this. IsOutcome (Client client.now) (call.put_zone number zone.now body.now) this outcome)) }
    ensures fit { IfOk result IsFit }
{
    let number = match in_turn(alloc, store, &Caller::Client(*client), number)? {
        Ok(number) => number,
        Err(reply) => return Ok(Outcome::Answered(reply)),
    };
    let rows = match zone_rows(alloc, body) {
        Ok(rows) => rows,
        Err(fault) => return Ok(Outcome::Answered(refusal(alloc, AnyFault::from(fault))?)),
    };
    if !has_room_for(store, client, zone)? {
        return Ok(Outcome::Answered(Reply::plain(alloc, 422, b"FAULT 61\n")?));
    }
    let reply = zone_put_line(alloc, zone, &rows)?;
    Ok(Outcome::Accepted(AcceptedChange {
        number,
        reply,
        effect: Effect::ZonePut {
            client: *client,
            zone: *zone,
            rows,
        },
    }))
}

/// The outcome of a zone that is dropped.
pub(crate) fn drop_zone<S: Store>(
    alloc: Global,
    store: &mut S,
    client: &Id,
    number: Option<u64>,
    zone: &Id,
) -> Result<Outcome, Lack>
    requires { IsProper (Client client.now) }
    ensures reads { HasRead S.tables_view store.old store.new result }
    ensures outcome { IfOk result (λ outcome. Tells S.tables_view store.old store.new
        (λ this. IsOutcome (Client client.now) (call.drop_zone number zone.now) this outcome)) }
    ensures fit { IfOk result IsFit }
{
    let number = match in_turn_at(alloc, store, client, number, zone)? {
        Ok(number) => number,
        Err(reply) => return Ok(Outcome::Answered(reply)),
    };
    let reply = zone_dropped_line(alloc, zone)?;
    Ok(Outcome::Accepted(AcceptedChange {
        number,
        reply,
        effect: Effect::ZoneDropped {
            client: *client,
            zone: *zone,
        },
    }))
}

/// The outcome of a list of received SYSMODs that is put.
pub(crate) fn put_received<S: Store>(
    alloc: Global,
    store: &mut S,
    client: &Id,
    number: Option<u64>,
    body: &[u8],
) -> Result<Outcome, Lack>
    requires { IsProper (Client client.now) }
    ensures reads { HasRead S.tables_view store.old store.new result }
    ensures outcome { IfOk result (λ outcome. Tells S.tables_view store.old store.new
        (λ this. IsOutcome (Client client.now) (call.put_received number body.now) this outcome)) }
    ensures fit { IfOk result IsFit }
{
    let number = match in_turn(alloc, store, &Caller::Client(*client), number)? {
        Ok(number) => number,
        Err(reply) => return Ok(Outcome::Answered(reply)),
    };
    let ids = match received_rows(alloc, body) {
        Ok(ids) => ids,
        Err(fault) => return Ok(Outcome::Answered(refusal(alloc, AnyFault::from(fault))?)),
    };
    let reply = received_line(alloc, &ids)?;
    Ok(Outcome::Accepted(AcceptedChange {
        number,
        reply,
        effect: Effect::ReceivedPut {
            client: *client,
            ids,
        },
    }))
}

/// The outcome of patterns that are put to a zone.
pub(crate) fn put_patterns<S: Store>(
    alloc: Global,
    store: &mut S,
    client: &Id,
    number: Option<u64>,
    zone: &Id,
    body: &[u8],
) -> Result<Outcome, Lack>
    requires { IsProper (Client client.now) }
    ensures reads { HasRead S.tables_view store.old store.new result }
    ensures outcome { IfOk result (λ outcome. Tells S.tables_view store.old store.new
        (λ this. IsOutcome (Client client.now) (call.put_patterns number zone.now body.now) this outcome)) }
    ensures fit { IfOk result IsFit }
{
    let number = match in_turn_at(alloc, store, client, number, zone)? {
        Ok(number) => number,
        Err(reply) => return Ok(Outcome::Answered(reply)),
    };
    let patterns = match patterns(alloc, body) {
        Ok(patterns) => patterns,
        Err(fault) => return Ok(Outcome::Answered(refusal(alloc, AnyFault::from(fault))?)),
    };
    let reply = patterns_line(alloc, zone, &patterns)?;
    Ok(Outcome::Accepted(AcceptedChange {
        number,
        reply,
        effect: Effect::PatternsPut {
            client: *client,
            zone: *zone,
            patterns,
        },
    }))
}

// The number of a caller's change that comes in its turn, or the answer to one that doesn't.
fn in_turn<S: Store>(
    alloc: Global,
    store: &mut S,
    caller: &Caller,
    number: Option<u64>,
) -> Result<Result<u64, Reply>, Lack>
    requires { IsProper caller.now }
    ensures reads { HasRead S.tables_view store.old store.new result }
    ensures order { IfOk result (λ found. Tells S.tables_view store.old store.new
        (λ this. IsInTurn (this.last caller.now) number found)) }
    ensures bound { IfOk result (λ found. IfOk found (λ next. next ≤ greatest_number)) }
{
    let (last, reply) = store.last(caller)?;
    Ok(number_in_turn(alloc, number, last, reply)?)
}

// The number of a client's change to one of its zones that comes in its turn, or the answer to one that doesn't, or
// whose zone isn't there.
fn in_turn_at<S: Store>(
    alloc: Global,
    store: &mut S,
    client: &Id,
    number: Option<u64>,
    zone: &Id,
) -> Result<Result<u64, Reply>, Lack>
    requires { IsProper (Client client.now) }
    ensures reads { HasRead S.tables_view store.old store.new result }
    ensures order { IfOk result (λ found. Tells S.tables_view store.old store.new
        (λ this. IsInTurnAt (this.last (Client client.now))
        (zone_named zone.now (this.zones client.now)) number found)) }
    ensures bound { IfOk result (λ found. IfOk found (λ next. next ≤ greatest_number)) }
{
    let next = match in_turn(alloc, store, &Caller::Client(*client), number)? {
        Ok(next) => next,
        Err(reply) => return Ok(Err(reply)),
    };
    if !store.has_zone(client, zone)? {
        return Ok(Err(Reply::not_found(alloc)?));
    }
    Ok(Ok(next))
}

// The answer to a body that has this fault.
fn refusal(alloc: Global, fault: AnyFault) -> Result<Reply, Lack>
    ensures input { IfOk result (λ reply. fault.cause ≡ Input) }
    ensures reply { IfOk result (λ reply. reply_as reply ≡ plain 422 (text_of fault)) }
{
    match fault.cause {
        Cause::Machine => Err(Lack::Memory),
        Cause::Input => Ok(Reply::plain(alloc, 422, fault.text().as_bytes())?),
    }
}

// Whether a client may have a zone of this name: it has it already, or not yet as many as it may.
fn has_room_for<S: Store>(store: &mut S, client: &Id, zone: &Id) -> Result<bool, Lack>
    requires { IsProper (Client client.now) }
    ensures reads { HasRead S.tables_view store.old store.new result }
    ensures room { IfOk result (λ room. Tells S.tables_view store.old store.new
        (λ this. room ≡ has_room zone.now (this.zones client.now))) }
{
    if store.has_zone(client, zone)? {
        return Ok(true);
    }
    Ok(store.zone_count(client)? < MOST_ZONES)
}
