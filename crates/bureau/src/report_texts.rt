//! The texts that are made from the published content, for a zone: reports, plans and verdicts.
ghost use Rattle.std.specs.Prelude.{[]};
ghost use Rattle.catalogue.specs.Ids.{Ascend};
ghost use Rattle.reports.specs.Holds.{missing_holds_of};
ghost use Rattle.report_json.specs.Counts.{zone_counts_json_of};
ghost use Rattle.bureau.specs.Reading.{TellsText};
ghost use Rattle.bureau.specs.Texts.{chain_text_from, err_json_from, err_report_from, missing_json_from, missing_report_from, text_from, zone_counts_from};

use catalogue::{Published, SourceFault};
use holddata::Hold;
use mcs_reader::Id;
use plan_reports::plan_answer;
use questions::{Form, Report, Wanted};
use report_json::{err_json, missing_json, zone_counts_json};
use reports::{
    HoldResolvers, err_holds, err_rows, err_text, missing_holds, missing_rows, missing_text,
    plan_json,
};
use std::alloc::Global;
use supersede::Zone;
use verdicts::Judge;
use zone_lists::Pattern;

/// The report or the plan for it. The exception SYSMOD report has no patterns.
pub(crate) fn report_text<P: Published, J: Judge<P>>(
    alloc: Global,
    source: &mut P,
    judge: &mut J,
    report: Report,
    wanted: Wanted,
    zone: &Id,
    installed: &Zone,
    received: &[Id],
    patterns: &[Pattern],
    holds: &[Hold],
) -> Result<Vec<u8>, SourceFault>
    requires { Ascend received.now }
    ensures { TellsText P.content_view J.is_right source.old source.new judge.old judge.new result
        (λ content. text_from report wanted content
        zone.now installed.now received.now patterns.now holds.now) }
{
    match (report, wanted) {
        (Report::ErrSysmods, Wanted::Rows(Form::Text)) => {
            err_report(alloc, source, judge, zone, installed, received, holds)
        }
        (Report::ErrSysmods, Wanted::Rows(Form::Json)) => {
            err_report_json(alloc, source, judge, zone, installed, received, holds)
        }
        (Report::MissingFix, Wanted::Rows(Form::Text)) => missing_report(
            alloc, source, judge, zone, installed, received, patterns, holds,
        ),
        (Report::MissingFix, Wanted::Rows(Form::Json)) => missing_report_json(
            alloc, source, judge, zone, installed, received, patterns, holds,
        ),
        (_, Wanted::Plan(form)) => plan_answer(
            alloc, source, judge, report, form, zone, installed, received, patterns, holds,
        ),
    }
}

// The report on installed SYSMODs that have since been held in error.
fn err_report<P: Published, J: Judge<P>>(
    alloc: Global,
    source: &mut P,
    judge: &mut J,
    zone: &Id,
    installed: &Zone,
    received: &[Id],
    holds: &[Hold],
) -> Result<Vec<u8>, SourceFault>
    requires { Ascend received.now }
    ensures { TellsText P.content_view J.is_right source.old source.new judge.old judge.new result
        (λ content. err_report_from content zone.now installed.now received.now holds.now) }
{
    let rows = err_rows(alloc, source, judge, installed, received, holds)?;
    Ok(err_text(alloc, zone, &rows)?)
}

// The same report as JSON.
fn err_report_json<P: Published, J: Judge<P>>(
    alloc: Global,
    source: &mut P,
    judge: &mut J,
    zone: &Id,
    installed: &Zone,
    received: &[Id],
    holds: &[Hold],
) -> Result<Vec<u8>, SourceFault>
    requires { Ascend received.now }
    ensures { TellsText P.content_view J.is_right source.old source.new judge.old judge.new result
        (λ content. err_json_from content zone.now installed.now received.now holds.now) }
{
    let helds = err_holds(alloc, source, judge, installed, received, holds)?;
    err_json(alloc, source, zone, &helds)
}

// The report on missing fixes.
fn missing_report<P: Published, J: Judge<P>>(
    alloc: Global,
    source: &mut P,
    judge: &mut J,
    zone: &Id,
    installed: &Zone,
    received: &[Id],
    patterns: &[Pattern],
    holds: &[Hold],
) -> Result<Vec<u8>, SourceFault>
    requires { Ascend received.now }
    ensures { TellsText P.content_view J.is_right source.old source.new judge.old judge.new result
        (λ content. missing_report_from content zone.now installed.now received.now patterns.now holds.now) }
{
    let rows = missing_rows(alloc, source, judge, installed, received, patterns, holds)?;
    Ok(missing_text(alloc, zone, &rows)?)
}

// The same report as JSON.
fn missing_report_json<P: Published, J: Judge<P>>(
    alloc: Global,
    source: &mut P,
    judge: &mut J,
    zone: &Id,
    installed: &Zone,
    received: &[Id],
    patterns: &[Pattern],
    holds: &[Hold],
) -> Result<Vec<u8>, SourceFault>
    requires { Ascend received.now }
    ensures { TellsText P.content_view J.is_right source.old source.new judge.old judge.new result
        (λ content. missing_json_from content zone.now installed.now received.now patterns.now holds.now) }
{
    let helds = missing_holds(alloc, source, judge, installed, received, patterns, holds)?;
    missing_json(alloc, source, zone, patterns, &helds)
}

/// The counts of both reports.
pub(crate) fn zone_counts_text<P: Published, J: Judge<P>>(
    alloc: Global,
    source: &mut P,
    judge: &mut J,
    zone: &Id,
    installed: &Zone,
    patterns: &[Pattern],
    errors: &[Hold],
    fixes: &[Hold],
) -> Result<Vec<u8>, SourceFault>
    ensures { TellsText P.content_view J.is_right source.old source.new judge.old judge.new result
        (λ content. zone_counts_from content zone.now installed.now patterns.now errors.now fixes.now) }
{
    let errors = err_holds(alloc, source, judge, installed, &[], errors)?;
    counts_with(
        alloc, source, judge, zone, installed, patterns, &errors, fixes,
    )
}

// The same, once the holds of the report on errors are found.
fn counts_with<P: Published, J: Judge<P>>(
    alloc: Global,
    source: &mut P,
    judge: &mut J,
    zone: &Id,
    installed: &Zone,
    patterns: &[Pattern],
    errors: &[HoldResolvers],
    fixes: &[Hold],
) -> Result<Vec<u8>, SourceFault>
    ensures { TellsText P.content_view J.is_right source.old source.new judge.old judge.new result
        (λ content. zone_counts_json_of zone.now patterns.now errors.now
        (missing_holds_of content installed.now [] patterns.now fixes.now)) }
{
    let fixes = missing_holds(alloc, source, judge, installed, &[], patterns, fixes)?;
    Ok(zone_counts_json(alloc, zone, patterns, errors, &fixes)?)
}

/// The verdict on a SYSMOD.
pub(crate) fn chain_text<P: Published, J: Judge<P>>(
    alloc: Global,
    source: &mut P,
    judge: &mut J,
    zone: &Id,
    installed: &Zone,
    sysmod: &Id,
) -> Result<Vec<u8>, SourceFault>
    ensures { TellsText P.content_view J.is_right source.old source.new judge.old judge.new result
        (λ content. chain_text_from content zone.now installed.now sysmod.now) }
{
    let verdict = judge.verdict(alloc, source, installed, sysmod)?;
    plan_json(alloc, source, zone, sysmod, &verdict)
}
