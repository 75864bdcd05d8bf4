//! The texts of the reports on a zone, and of the verdict on a SYSMOD.
ghost use Rattle.std.specs.Prelude.{◌≡◌, Ok, IfOk, IfErr, map};
ghost use Rattle.catalogue.specs.Content.{IsInOrder};
ghost use Rattle.catalogue.specs.Ids.{Ascend};
ghost use Rattle.verdicts.specs.Judge as judge;
ghost use Rattle.verdicts.specs.Verdicts.{verdict_of};
ghost use Rattle.questions.specs.declared.report.Report.TheVariants.{ErrSysmods, MissingFix};
ghost use Rattle.questions.specs.declared.wanted.Form.TheVariants.{Text};
ghost use Rattle.questions.specs.declared.wanted.Wanted.TheVariants.{Rows};
ghost use Rattle.bureau.specs.Call as call;
ghost use Rattle.bureau.specs.Outcome.{as_json, plain};
ghost use Rattle.bureau.specs.Texts as desk;
ghost use Rattle.bureau_store.specs.Held.{held_in};
ghost use Rattle.file_reports.specs.Desk.{IsDesksAnswer};
ghost use Rattle.file_reports.specs.Inputs.{IsFirstFault};
ghost use Rattle.file_reports.specs.Lists.{chain_inputs_of, err_inputs_of, inputs_of};
ghost use Rattle.file_reports.specs.Read.{said_of};
ghost use Rattle.file_reports.specs.Reports.{chain_text_said, counts_said, err_text_said, made_from, missing_text_said, with_counts};
ghost use Rattle.holddata.specs.declared.key.Kind.TheVariants.{ErrorHold, FixcatHold};

use crate::InputFault;
use crate::held::held_in;
use crate::inputs::{Lists, Read, read_all};
use catalogue::SourceFault;
use chains::{Whole, frame_within, plan};
use flat_content::FlatContent;
use holddata::Kind;
use mcs_reader::Id;
use reports::{err_rows, err_text, missing_rows, missing_text, plan_json};
use std::alloc::Global;
use supersede::Zone;
use verdicts::{Judge, Verdict};
use zone_lists::Pattern;

// The most nodes of a frame from which a chain is answered. If a SYSMOD reaches further, all that is catalogued is
// read once.
const NODES_MOST: usize = 256;

/// How much publications leave.
#[derive(Clone, Copy, Debug, PartialEq, Eq)]
pub struct Counts {
    /// The SYSMODs that are catalogued.
    pub sysmods: usize,
    /// The holds in force.
    pub holds: usize,
}

/// A report, and what was read for it.
#[derive(Debug, Drop)]
pub struct Made {
    /// The text of the report.
    pub text: Vec<u8>,
    /// How much was read.
    pub counts: Counts,
}

/// Prints the exception SYSMOD report on a zone of this name, as a new desk answers it after the same publications and
/// lists. It doesn't read the fix categories.
///
/// # Errors
///
/// The first fault of the lists and of the publications in their order, with its input; or memory ran out.
pub fn err_report(
    alloc: Global,
    zone: &Id,
    lists: Lists<'_>,
    publications: Vec<Vec<u8>>,
) -> Result<Made, InputFault>
    ensures made { IfOk result (λ made. made_from (with_counts (err_text_said zone.now))
        (err_inputs_of lists.entry (map (λ body. body.items) publications.items)) ≡ Ok (made.text.items, made.counts)) }
    ensures fault { IfErr result (IsFirstFault (made_from (with_counts (err_text_said zone.now))
        (err_inputs_of lists.entry (map (λ body. body.items) publications.items)))) }

    // A desk answers the same.
    ensures desk { IfOk result (λ made. IsDesksAnswer zone.now
        (err_inputs_of lists.entry (map (λ body. body.items) publications.items))
        (call.report_on ErrSysmods (Rows Text) zone.now) (plain 200 made.text.items)) }
{
    let read = read_all(alloc, lists.without_categories(), publications)?;
    let counts = counts_in(&read);
    let text = err_text_in(alloc, zone, read)?;
    Ok(Made { text, counts })
}

/// Prints the missing fix report on a zone, as [`err_report`] does.
///
/// # Errors
///
/// Those of [`err_report`].
pub fn missing_report(
    alloc: Global,
    zone: &Id,
    lists: Lists<'_>,
    publications: Vec<Vec<u8>>,
) -> Result<Made, InputFault>
    ensures made { IfOk result (λ made. made_from (with_counts (missing_text_said zone.now))
        (inputs_of lists.entry (map (λ body. body.items) publications.items)) ≡ Ok (made.text.items, made.counts)) }
    ensures fault { IfErr result (IsFirstFault (made_from (with_counts (missing_text_said zone.now))
        (inputs_of lists.entry (map (λ body. body.items) publications.items)))) }

    // A desk answers the same.
    ensures desk { IfOk result (λ made. IsDesksAnswer zone.now
        (inputs_of lists.entry (map (λ body. body.items) publications.items))
        (call.report_on MissingFix (Rows Text) zone.now) (plain 200 made.text.items)) }
{
    let read = read_all(alloc, lists, publications)?;
    let counts = counts_in(&read);
    let text = missing_text_in(alloc, zone, read)?;
    Ok(Made { text, counts })
}

/// Prints the verdict on a SYSMOD in a zone, as JSON, as [`err_report`] does. It reads no list but that of the zone's
/// SYSMODs.
///
/// # Errors
///
/// Those of [`err_report`].
pub fn chain_report(
    alloc: Global,
    zone: &Id,
    sysmod: &Id,
    lists: Lists<'_>,
    publications: Vec<Vec<u8>>,
) -> Result<Made, InputFault>
    ensures made { IfOk result (λ made. made_from (with_counts (chain_text_said zone.now sysmod.now))
        (chain_inputs_of lists.entry (map (λ body. body.items) publications.items)) ≡ Ok (made.text.items, made.counts)) }
    ensures fault { IfErr result (IsFirstFault (made_from (with_counts (chain_text_said zone.now sysmod.now))
        (chain_inputs_of lists.entry (map (λ body. body.items) publications.items)))) }

    // A desk answers the same.
    ensures desk { IfOk result (λ made. IsDesksAnswer zone.now
        (chain_inputs_of lists.entry (map (λ body. body.items) publications.items))
        (call.chain zone.now sysmod.now) (as_json made.text.items)) }
{
    let read = read_all(alloc, lists.zone_alone(), publications)?;
    let counts = counts_in(&read);
    let text = chain_text_in(alloc, zone, sysmod, read)?;
    Ok(Made { text, counts })
}

// How much was published.
fn counts_in(read: &Read) -> Counts
    ensures { result ≡ counts_said (said_of read.now) }
{
    Counts {
        sysmods: read.content.sysmod_count(),
        holds: read.content.book().len(),
    }
}

// The exception SYSMOD report of what was read.
fn err_text_in(alloc: Global, zone: &Id, read: Read) -> Result<Vec<u8>, SourceFault>
    requires received { Ascend read.received.items }
    requires content { IsInOrder read.content }
    ensures text { IfOk result (λ text. text.items ≡ err_text_said zone.now (said_of read)) }
    ensures fault { IfErr result (λ fault. fault ≡ SourceFault.Memory) }
{
    let Read {
        installed,
        patterns: _,
        received,
        mut content,
    } = read;
    let holds = held_in(alloc, content.book(), &installed, Kind::ErrorHold)?;
    let mut judge = Whole::new();
    let rows = err_rows(
        alloc,
        &mut content,
        &mut judge,
        &installed,
        &received,
        &holds,
    )?;
    Ok(err_text(alloc, zone, &rows)?)
}

// The missing fix report of what was read.
fn missing_text_in(alloc: Global, zone: &Id, read: Read) -> Result<Vec<u8>, SourceFault>
    requires received { Ascend read.received.items }
    requires content { IsInOrder read.content }
    ensures text { IfOk result (λ text. text.items ≡ missing_text_said zone.now (said_of read)) }
    ensures fault { IfErr result (λ fault. fault ≡ SourceFault.Memory) }
{
    let Read {
        installed,
        patterns,
        received,
        mut content,
    } = read;
    let holds = held_in(alloc, content.book(), &installed, Kind::FixcatHold)?;
    let mut judge = Whole::new();
    let rows = missing_rows(
        alloc,
        &mut content,
        &mut judge,
        &installed,
        &received,
        &patterns,
        &holds,
    )?;
    Ok(missing_text(alloc, zone, &rows)?)
}

// The verdict of what was read.
fn chain_text_in(alloc: Global, zone: &Id, sysmod: &Id, read: Read) -> Result<Vec<u8>, SourceFault>
    requires { IsInOrder read.content }
    ensures text { IfOk result (λ text. text.items ≡ chain_text_said zone.now sysmod.now (said_of read)) }
    ensures fault { IfErr result (λ fault. fault ≡ SourceFault.Memory) }
{
    let Read {
        installed,
        patterns: _,
        received: _,
        mut content,
    } = read;
    let verdict = verdict_in(alloc, &mut content, &installed, sysmod)?;
    Ok(plan_json(alloc, &mut content, zone, sysmod, &verdict)?)
}

// The verdict on a SYSMOD: from its frame, if that is small, or from all that is catalogued.
fn verdict_in(
    alloc: Global,
    content: &mut FlatContent,
    installed: &Zone,
    sysmod: &Id,
) -> Result<Verdict, SourceFault>
    requires { IsInOrder content.old }
    ensures verdict { IfOk result (λ verdict.
        judge.judged_by verdict ≡ verdict_of content.old installed.now sysmod.now) }
    ensures fault { IfErr result (λ fault. fault ≡ SourceFault.Memory) }
    ensures same { content.new ≡ content.old }
{
    match frame_within(alloc, content, sysmod, NODES_MOST)? {
        Some(frame) => Ok(plan(alloc, &frame, installed, sysmod)?),
        None => Whole::new().verdict(alloc, content, installed, sysmod),
    }
}
