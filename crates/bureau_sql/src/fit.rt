//! Facts for proofs: the types of a change say that it is fit to be written. These functions change nothing; their
//! contracts say it.
ghost use Rattle.std.specs.Prelude.{IfSome, IsTrue};
ghost use Rattle.std.specs.Fn.{FnReturnsAt};
ghost use Rattle.std.specs.List.{AllByRecursion};
ghost use Rattle.mcs_reader.specs.Id.{IsId};
ghost use Rattle.zone_lists.specs.Pattern.{is_pattern};
ghost use Rattle.bureau_store.specs.Caller.{IsProper};
ghost use Rattle.bureau_store.specs.Effects.{IsAscending, effect_as, maker_of};
ghost use Rattle.sql_tables.specs.Fit.{CanBeWritten, IsCond, IsFitChange, IsHold, IsRecord, IsZoneRow};

use bureau_store::{CallerRow, Effect};
use catalogue::{Change, CondNeed, Sysmod};
use holddata::{Hold, HoldChange};
use mcs_reader::Id;
use zone_lists::{Pattern, ZoneRow};

// Shows by `show` a fact of each item.
fn each<T, F: Fn(&T)>(items: &[T], show: F)
    requires { F.IsAlwaysCallable show }
    ensures { AllByRecursion (λ item. FnReturnsAt F.Fn show item tt) items.now }
{
    for item in items {
        show(item);
    }
}

// The bytes of an id are an id's.
fn id(id: &Id)
    ensures { IsId id.now }
{
    let _text = id.as_bytes();
}

#[tactic(auto, using(crate::proofs::FitFacts::of_each))]
fn ids(ids: &[Id])
    ensures { AllByRecursion IsId ids.now }
{
    each(ids, id);
}

fn caller(caller: &CallerRow)
    ensures { IsId caller.now.name }
{
    id(&caller.name);
}

/// The callers of a new store.
#[tactic(auto, using(crate::proofs::FitFacts::of_each))]
pub(crate) fn callers(callers: &[CallerRow])
    ensures { AllByRecursion (λ caller. IsId caller.name) callers.now }
{
    each(callers, caller);
}

fn row(row: &ZoneRow)
    ensures { IsZoneRow row.now }
{
    id(&row.sysmod);
}

fn pattern(pattern: &Pattern)
    ensures { IsTrue (is_pattern pattern.now) }
{
    let _text = pattern.text();
}

fn cond(cond: &CondNeed)
    ensures { IsCond cond.now }
{
    id(&cond.fmid);
    id(&cond.need);
}

// A record of the catalogue.
#[tactic(auto, using(crate::proofs::FitFacts::of_each))]
fn record(sysmod: &Sysmod)
    ensures { IsRecord sysmod.now }
{
    id(&sysmod.id);
    ids(sysmod.fmids.as_slice());
    ids(sysmod.pre.as_slice());
    ids(sysmod.req.as_slice());
    each(sysmod.conds.as_slice(), cond);
    ids(sysmod.sup.as_slice());
}

// An id that may be absent.
fn optional(found: &Option<Id>)
    ensures { IfSome found.now IsId }
{
    if let Some(one) = found {
        id(one);
    }
}

// A hold.
fn hold(hold: &Hold)
    ensures { IsHold hold.now }
{
    id(&hold.key.sysmod);
    id(&hold.key.reason);
    optional(&hold.fmid);
    optional(&hold.class);
    optional(&hold.resolver);
    if let Some(date) = hold.dated {
        let _number = date.number();
    }
    let _text = hold.categories.joined();
}

// The changes of one statement.
fn change(change: &Change)
    ensures { IsFitChange change.now }
{
    match change {
        Change::Whole(sysmod) => record(sysmod),
        Change::OfHold(HoldChange::Put(one)) => hold(one),
        Change::OfHold(HoldChange::Release(_)) => {}
    }
}

/// The lists that a change writes.
#[tactic(auto, using(crate::proofs::FitFacts::client_named, crate::proofs::FitFacts::all_patterns, crate::proofs::FitFacts::of_each))]
pub(crate) fn effect(effect: &Effect<'_>)
    requires maker { IsProper (maker_of effect.now) }
    requires ascending { IsAscending effect.now }
    ensures { CanBeWritten (maker_of effect.now) (effect_as effect.now) }
{
    match *effect {
        Effect::Publication { changes } => each(changes, change),
        Effect::ZonePut { client, zone, rows } => {
            id(client);
            id(zone);
            each(rows, row);
        }
        Effect::ZoneDropped { client, zone } => {
            id(client);
            id(zone);
        }
        Effect::ReceivedPut { client, ids: put } => {
            id(client);
            ids(put);
        }
        Effect::PatternsPut {
            client,
            zone,
            patterns,
        } => {
            id(client);
            id(zone);
            each(patterns, pattern);
        }
    }
}
