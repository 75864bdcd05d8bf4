//! The answers to questions. They change nothing.
ghost use Rattle.std.specs.Prelude.{◌≡◌, IfOk};
ghost use Rattle.catalogue.specs.View.{Tells};
ghost use Rattle.bureau_store.specs.Caller.{IsProper};
ghost use Rattle.bureau_store.specs.Tables.{zone_named};
ghost use Rattle.bureau_store.specs.declared.caller.Caller.TheVariants.{Client};
ghost use Rattle.bureau.specs.Call as call;
ghost use Rattle.bureau.specs.Outcome.{in_form};
ghost use Rattle.bureau.specs.Outcomes.{IsReplyTo};
ghost use Rattle.bureau.specs.Reading.{HasRead, MayRead};
ghost use Rattle.bureau.specs.Replies.{reply_as};
ghost use Rattle.bureau.specs.Texts as Spec;
ghost use Rattle.bureau.specs.Texts.{counts_text};

use crate::Reply;
use crate::forms::{kind_of, reply_in};
use crate::lack::Lack;
use crate::report_texts::{chain_text, report_text, zone_counts_text};
use crate::texts::{counts_told, zones_told};
use bureau_store::Store;
use holddata::Kind;
use mcs_reader::Id;
use questions::{Form, Report, Wanted};
use std::alloc::Global;
use supersede::Zone;
use verdicts::Judge;
use zone_lists::Pattern;

/// Counts what is published.
pub(crate) fn counts<S: Store>(alloc: Global, store: &mut S, form: Form) -> Result<Reply, Lack>
    ensures reads { HasRead S.tables_view store.old store.new result }
    ensures reply { IfOk result (λ reply. Tells S.tables_view store.old store.new
        (λ this. reply_as reply ≡ in_form form (counts_text form this.content))) }
{
    let (sysmods, holds) = store.counts()?;
    let text = counts_told(alloc, form, sysmods, holds)?;
    Ok(reply_in(form, text))
}

/// Lists the zones of a client.
pub(crate) fn list_zones<S: Store>(
    alloc: Global,
    store: &mut S,
    client: &Id,
    form: Form,
) -> Result<Reply, Lack>
    requires { IsProper (Client client.now) }
    ensures reads { HasRead S.tables_view store.old store.new result }
    ensures reply { IfOk result (λ reply. Tells S.tables_view store.old store.new
        (λ this. IsReplyTo (Client client.now) (call.list_zones form) this reply)) }
{
    let zones = store.zones(client)?;
    let text = zones_told(alloc, form, &zones)?;
    Ok(reply_in(form, text))
}

/// Answers with the report on a zone, or the plan for it.
pub(crate) fn report_answer<S: Store, J: Judge<S>>(
    alloc: Global,
    store: &mut S,
    judge: &mut J,
    client: &Id,
    zone: &Id,
    report: Report,
    wanted: Wanted,
) -> Result<Reply, Lack>
    requires { IsProper (Client client.now) }
    ensures reads { HasRead S.tables_view store.old store.new result }
    ensures reply { IfOk result (λ reply. Tells S.tables_view store.old store.new
        (λ this. J.is_right judge.old this.content →
        IsReplyTo (Client client.now) (call.report_on report wanted zone.now) this reply)) }
    ensures right { Tells S.tables_view store.old store.new
        (λ this. J.is_right judge.old this.content → J.is_right judge.new this.content) }
{
    let Some(rows) = store.zone(client, zone)? else {
        return Ok(Reply::not_found(alloc)?);
    };
    let received = store.received(client)?;
    let patterns = patterns_for(alloc, store, client, zone, report)?;
    let kind = kind_of(report);
    let holds = store.held_in(client, zone, kind)?;
    let installed = Zone::from_rows(rows);
    let text = report_text(
        alloc, store, judge, report, wanted, zone, &installed, &received, &patterns, &holds,
    )?;
    Ok(reply_in(wanted.form(), text))
}

// The patterns of a zone, if the report has some.
fn patterns_for<S: Store>(
    alloc: Global,
    store: &mut S,
    client: &Id,
    zone: &Id,
    report: Report,
) -> Result<Vec<Pattern>, Lack>
    requires { IsProper (Client client.now) }
    ensures reads { MayRead S.tables_view store.old store.new result }
    ensures patterns { IfOk result (λ patterns. Tells S.tables_view store.old store.new
        (λ this. patterns.items
        ≡ Spec.patterns_for report (zone_named zone.now (this.zones client.now)))) }
{
    match report {
        Report::ErrSysmods => Ok(Vec::new(alloc)),
        Report::MissingFix => Ok(store.patterns(client, zone)?),
    }
}

/// Counts what both reports on a zone have.
pub(crate) fn zone_counts<S: Store, J: Judge<S>>(
    alloc: Global,
    store: &mut S,
    judge: &mut J,
    client: &Id,
    zone: &Id,
) -> Result<Reply, Lack>
    requires { IsProper (Client client.now) }
    ensures reads { HasRead S.tables_view store.old store.new result }
    ensures reply { IfOk result (λ reply. Tells S.tables_view store.old store.new
        (λ this. J.is_right judge.old this.content →
        IsReplyTo (Client client.now) (call.zone_counts zone.now) this reply)) }
    ensures right { Tells S.tables_view store.old store.new
        (λ this. J.is_right judge.old this.content → J.is_right judge.new this.content) }
{
    let Some(rows) = store.zone(client, zone)? else {
        return Ok(Reply::not_found(alloc)?);
    };
    let patterns = store.patterns(client, zone)?;
    let errors = store.held_in(client, zone, Kind::ErrorHold)?;
    let fixes = store.held_in(client, zone, Kind::FixcatHold)?;
    let installed = Zone::from_rows(rows);
    let text = zone_counts_text(
        alloc, store, judge, zone, &installed, &patterns, &errors, &fixes,
    )?;
    Ok(Reply::json(text))
}

/// Answers with the verdict on a SYSMOD in a zone.
pub(crate) fn chain<S: Store, J: Judge<S>>(
    alloc: Global,
    store: &mut S,
    judge: &mut J,
    client: &Id,
    zone: &Id,
    sysmod: &Id,
) -> Result<Reply, Lack>
    requires { IsProper (Client client.now) }
    ensures reads { HasRead S.tables_view store.old store.new result }
    ensures reply { IfOk result (λ reply. Tells S.tables_view store.old store.new
        (λ this. J.is_right judge.old this.content →
        IsReplyTo (Client client.now) (call.chain zone.now sysmod.now) this reply)) }
    ensures right { Tells S.tables_view store.old store.new
        (λ this. J.is_right judge.old this.content → J.is_right judge.new this.content) }
{
    let Some(rows) = store.zone(client, zone)? else {
        return Ok(Reply::not_found(alloc)?);
    };
    let installed = Zone::from_rows(rows);
    let text = chain_text(alloc, store, judge, zone, &installed, sysmod)?;
    Ok(Reply::json(text))
}
