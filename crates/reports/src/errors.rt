//! The exception SYSMOD report: its holds, its lines and its rows.
ghost use Rattle.std.specs.Prelude.{◌≡◌, [], map, IfOk, OnOk};
ghost use Rattle.std.specs.BTreeMap.{insert_entry};
ghost use Rattle.catalogue.specs.Ids.{Ascend};
ghost use Rattle.catalogue.specs.View.{MayAsk, Tells};
ghost use Rattle.catalogue.specs.declared.fault.SourceFault.TheVariants.{Device};
ghost use Rattle.reports.specs.ErrRows.{ErrRowsAscend, err_rows_of};
ghost use Rattle.reports.specs.Found.{error_cmp, error_entries, error_held, lent};
ghost use Rattle.reports.specs.Holds.{err_holds_of};
ghost use Rattle.reports.specs.Lines.{ErrRowsAreLines, err_lines_of, err_row_of, group_of};

use crate::ErrRow;
use crate::asking::By;
use crate::holds::HoldResolvers;
use crate::lines::{Group, Line, lines_in};
use crate::resolvers::holds_by;
use catalogue::{Published, SourceFault};
use faults::NoMemory;
use holddata::Hold;
use mcs_reader::Id;
use std::alloc::Global;
use std::collections::BTreeMap;
use supersede::Zone;
use verdicts::Judge;

// The order of a hold in the report.
#[derive(Clone, Copy, PartialEq, Eq, PartialOrd, Ord)]
struct ErrorHeld {
    fmid: Option<Id>,
    sysmod: Id,
    reason: Id,
    class: Option<Id>,
}

/// Makes the rows of the exception SYSMOD report on a zone, from the ERROR holds on the SYSMODs that are installed in
/// it (IBM z/OS SMP/E Commands, REPORT ERRSYSMODS).
///
/// A hold whose reason isn't there has a row for each candidate that gives the reason, or one row
/// that says that there is none. Rows are ordered by the FMID of the hold, an absent one first, then by SYSMOD,
/// reason and resolver. `received` are the SYSMODs that the client has received.
///
/// # Errors
///
/// `Memory` if memory ran out, `Device` if the source failed.
pub fn err_rows<P: Published, J: Judge<P>>(
    alloc: Global,
    source: &mut P,
    judge: &mut J,
    zone: &Zone,
    received: &[Id],
    holds: &[Hold],
) -> Result<Vec<ErrRow>, SourceFault>
    requires { Ascend received.now }
    ensures asks { MayAsk P.content_view Device source.old source.new result }
    ensures rows { IfOk result (λ rows. Tells P.content_view source.old source.new
        (λ content. J.is_right judge.old content
        → rows.items ≡ err_rows_of content zone.now received.now holds.now)) }
    ensures right { Tells P.content_view source.old source.new
        (λ content. J.is_right judge.old content → J.is_right judge.new content) }

    // The rows are in the report's order.
    ensures order { ErrRowsAscend }
{
    let held = err_holds(alloc, source, judge, zone, received, holds)?;
    let lines = err_lines(alloc, &held)?;
    Ok(rows_of(alloc, &lines)?)
}

/// Finds the holds of the report that nothing resolves yet, each with the candidates that give its reason, in their
/// order.
///
/// # Errors
///
/// Those of [`err_rows`].
pub fn err_holds<'h, P: Published, J: Judge<P>>(
    alloc: Global,
    source: &mut P,
    judge: &mut J,
    zone: &Zone,
    received: &[Id],
    holds: &'h [Hold],
) -> Result<Vec<HoldResolvers<'h>>, SourceFault>
    requires { Ascend received.now }
    ensures asks { MayAsk P.content_view Device source.old source.new result }
    ensures holds { IfOk result (λ helds. Tells P.content_view source.old source.new
        (λ content. J.is_right judge.old content
        → helds.items ≡ err_holds_of content zone.now received.now holds.now)) }
    ensures right { Tells P.content_view source.old source.new
        (λ content. J.is_right judge.old content → J.is_right judge.new content) }
{
    let all = lent(alloc, holds)?;
    holds_by(alloc, source, judge, zone, received, By::Reason, &all)
}

fn lent(alloc: Global, holds: &[Hold]) -> Result<Vec<&Hold>, NoMemory>
    ensures { IfOk result (λ all. lent all.items ≡ holds.now) }
{
    let mut all = Vec::with_capacity(alloc, holds.len())?;
    for hold in holds {
        all.push(hold)?;
    }
    Ok(all)
}

/// Makes the lines of the report, in its order: by the FMID of a hold, an absent one first, then by SYSMOD, reason and
/// resolver. If two holds agree in all of these and in their class, the later one counts.
///
/// # Errors
///
/// `NoMemory` if memory ran out.
pub fn err_lines<'h>(alloc: Global, helds: &[HoldResolvers<'h>]) -> Result<Vec<Line<'h>>, NoMemory>
    ensures lines { IfOk result (λ lines. lines.items ≡ err_lines_of helds.now) }

    // The rows of the report are its lines.
    ensures rows { ErrRowsAreLines }
{
    let groups = in_report_order(alloc, helds)?;
    lines_in(alloc, &groups)
}

fn in_report_order<'r, 'h>(
    alloc: Global,
    helds: &'r [HoldResolvers<'h>],
) -> Result<Vec<Group<'r, 'h>>, NoMemory>
    ensures { IfOk result (λ groups. groups.items ≡ map (λ entry. entry.1) (error_entries [] helds.now)) }
{
    let mut groups = BTreeMap::new(alloc);
    for held in helds {
        put_held(&mut groups, held)?;
    }
    listed(alloc, groups)
}

fn put_held<'r, 'h>(
    groups: &mut BTreeMap<ErrorHeld, Group<'r, 'h>>,
    held: &'r HoldResolvers<'h>,
) -> Result<(), NoMemory>
    ensures { OnOk result (groups.new.entries
        ≡ insert_entry error_cmp groups.old.entries (error_held held.now.hold) (group_of [] held.now)) }
{
    groups.insert(error_held(held.hold()), Group::new(b"", held))?;
    Ok(())
}

fn listed<'r, 'h>(
    alloc: Global,
    groups: BTreeMap<ErrorHeld, Group<'r, 'h>>,
) -> Result<Vec<Group<'r, 'h>>, NoMemory>
    ensures { IfOk result (λ list. list.items ≡ map (λ entry. entry.1) groups.entry.entries) }
{
    groups.into_values().collect(alloc)
}

fn error_held(hold: &Hold) -> ErrorHeld
    ensures { result ≡ error_held hold.now }
{
    ErrorHeld {
        fmid: hold.fmid,
        sysmod: hold.key.sysmod,
        reason: hold.key.reason,
        class: hold.class,
    }
}

fn rows_of(alloc: Global, lines: &[Line]) -> Result<Vec<ErrRow>, NoMemory>
    ensures { IfOk result (λ rows. rows.items ≡ map err_row_of lines.now) }
{
    let mut rows = Vec::with_capacity(alloc, lines.len())?;
    for line in lines {
        rows.push(row_of(line))?;
    }
    Ok(rows)
}

fn row_of(line: &Line) -> ErrRow
    ensures { result ≡ err_row_of line.now }
{
    let hold = line.hold();
    ErrRow {
        fmid: hold.fmid,
        sysmod: hold.key.sysmod,
        reason: hold.key.reason,
        resolver: line.resolver(),
        status: line.status(),
        received: line.received(),
        class: hold.class,
    }
}
