//! The outcomes of calls. Nothing changes here, and all memory that a change takes is taken here.
ghost use Rattle.std.specs.Prelude.{◌≡◌, ◌⊎◌, IfOk, false};
ghost use Rattle.catalogue.specs.View.{IsOpen, Tells};
ghost use Rattle.bureau_store.specs.Caller.{IsProper};
ghost use Rattle.bureau_store.specs.declared.caller.Caller.TheVariants.{Publisher, Client};
ghost use Rattle.bureau.specs.Calls.{call_as};
ghost use Rattle.bureau.specs.Outcomes.{IsReplyAlone, IsOutcome, IsFit};
ghost use Rattle.bureau.specs.Outcome.{may_ask};

use crate::answers::{chain, counts, list_zones, report_answer, zone_counts};
use crate::changes::{drop_zone, publish, put_patterns, put_received, put_zone};
use crate::lack::Lack;
use crate::outcome::Outcome;
use crate::{Call, Reply};
use bureau_store::{Caller, Store};
use mcs_reader::Id;
use questions::Report::{ErrSysmods, MissingFix};
use std::alloc::Global;
use verdicts::Judge;

/// The outcome of a call by a caller.
pub(crate) fn decide<S: Store, J: Judge<S>>(
    alloc: Global,
    store: &mut S,
    judge: &mut J,
    caller: &Caller,
    call: &Call<'_>,
) -> Result<Outcome, Lack>
    requires { IsProper caller.now }
    ensures keeps { S.tables_view.keeps store.old store.new }
    ensures told { IfOk result (λ outcome.
        IsOpen S.tables_view store.new ⊎ (may_ask caller.now (call_as call.now) ≡ false)) }
    ensures outcome { IfOk result (λ outcome. Tells S.tables_view store.old store.new
        (λ this. J.is_right judge.old this.content →
        IsOutcome caller.now (call_as call.now) this outcome)) }
    ensures fit { IfOk result IsFit }
    ensures right { Tells S.tables_view store.old store.new
        (λ this. J.is_right judge.old this.content → J.is_right judge.new this.content) }
{
    match caller {
        Caller::Publisher => decide_for_publisher(alloc, store, call),
        Caller::Client(client) => decide_for_client(alloc, store, judge, client, call),
    }
}

// The outcome of a call by the publisher.
fn decide_for_publisher<S: Store>(
    alloc: Global,
    store: &mut S,
    call: &Call<'_>,
) -> Result<Outcome, Lack>
    ensures keeps { S.tables_view.keeps store.old store.new }
    ensures told { IfOk result (λ outcome.
        IsOpen S.tables_view store.new ⊎ (may_ask Publisher (call_as call.now) ≡ false)) }
    ensures outcome { IfOk result (λ outcome. Tells S.tables_view store.old store.new
        (λ this. IsOutcome Publisher (call_as call.now) this outcome)) }
    ensures fit { IfOk result IsFit }
{
    match *call {
        Call::Publish { number, body } => publish(alloc, store, number, body),
        Call::Counts { form } => reply_alone(counts(alloc, store, form)),
        _ => Ok(Outcome::Answered(Reply::forbidden(alloc)?)),
    }
}

// The outcome of a call by a client.
fn decide_for_client<S: Store, J: Judge<S>>(
    alloc: Global,
    store: &mut S,
    judge: &mut J,
    client: &Id,
    call: &Call<'_>,
) -> Result<Outcome, Lack>
    requires { IsProper (Client client.now) }
    ensures keeps { S.tables_view.keeps store.old store.new }
    ensures told { IfOk result (λ outcome.
        IsOpen S.tables_view store.new ⊎ (may_ask (Client client.now) (call_as call.now) ≡ false)) }
    ensures outcome { IfOk result (λ outcome. Tells S.tables_view store.old store.new
        (λ this. J.is_right judge.old this.content →
        IsOutcome (Client client.now) (call_as call.now) this outcome)) }
    ensures fit { IfOk result IsFit }
    ensures right { Tells S.tables_view store.old store.new
        (λ this. J.is_right judge.old this.content → J.is_right judge.new this.content) }
{
    match *call {
        Call::Publish { .. } => Ok(Outcome::Answered(Reply::forbidden(alloc)?)),
        Call::PutZone { number, zone, body } => {
            put_zone(alloc, store, client, number, &zone, body)
        }
        Call::DropZone { number, zone } => drop_zone(alloc, store, client, number, &zone),
        Call::PutReceived { number, body } => put_received(alloc, store, client, number, body),
        Call::PutPatterns { number, zone, body } => {
            put_patterns(alloc, store, client, number, &zone, body)
        }
        Call::ListZones { form } => reply_alone(list_zones(alloc, store, client, form)),
        Call::ErrSysmods { zone, wanted } => {
            reply_alone(report_answer(alloc, store, judge, client, &zone, ErrSysmods, wanted))
        }
        Call::MissingFix { zone, wanted } => {
            reply_alone(report_answer(alloc, store, judge, client, &zone, MissingFix, wanted))
        }
        Call::ZoneCounts { zone } => {
            reply_alone(zone_counts(alloc, store, judge, client, &zone))
        }
        Call::Chain { zone, sysmod } => {
            reply_alone(chain(alloc, store, judge, client, &zone, &sysmod))
        }
        Call::Counts { form } => reply_alone(counts(alloc, store, form)),
    }
}

// The outcome that is a reply alone.
fn reply_alone(reply: Result<Reply, Lack>) -> Result<Outcome, Lack>
    ensures { IsReplyAlone reply result }
{
    Ok(Outcome::Answered(reply?))
}
