//! The missing fix report: its holds, its lines and its rows.
ghost use Rattle.std.specs.Prelude.{◌≡◌, [], filter, map, IfOk, OnOk};
ghost use Rattle.std.specs.BTreeMap.{insert_entry};
ghost use Rattle.std.specs.List.{list_any};
ghost use Rattle.zone_lists.specs.Pattern.{does_match};
ghost use Rattle.catalogue.specs.Ids.{Ascend};
ghost use Rattle.catalogue.specs.View.{MayAsk, Tells};
ghost use Rattle.catalogue.specs.declared.fault.SourceFault.TheVariants.{Device};
ghost use Rattle.reports.specs.Found.{held_cmp, lent, missing_entries, missing_held, put_groups};
ghost use Rattle.reports.specs.Holds.{is_asked, missing_holds_of};
ghost use Rattle.reports.specs.Lines.{MissingRowsAreLines, group_of, missing_groups, missing_lines_of, missing_row_of};
ghost use Rattle.reports.specs.MissingRows.{MissingRowsAscend, missing_rows_of};

use crate::asking::By;
use crate::holds::HoldResolvers;
use crate::lines::{Group, Line, lines_in};
use crate::resolvers::holds_by;
use crate::{MissingCategory, MissingRow};
use catalogue::{Published, SourceFault};
use faults::NoMemory;
use holddata::Hold;
use mcs_reader::Id;
use std::alloc::Global;
use std::collections::BTreeMap;
use supersede::Zone;
use verdicts::Judge;
use zone_lists::Pattern;

// The order of a category of a hold in the report.
#[derive(PartialEq, Eq, PartialOrd, Ord, Drop)]
struct MissingHeld {
    category: MissingCategory,
    sysmod: Id,
    reason: Id,
    resolver: Option<Id>,
}

/// Makes the rows of the missing fix report on a zone, from the FIXCAT holds on the SYSMODs that are installed in it
/// (IBM z/OS SMP/E Commands, REPORT MISSINGFIX).
///
/// Each category of a hold that a pattern matches has a row for each SYSMOD that resolves the hold, or one row that
/// says that there is none. These SYSMODs are the resolver of the hold and each candidate that gives the reason or the
/// resolver, each once. The category has no row if the reason or the resolver is there. Rows are ordered by category,
/// held SYSMOD, reason and resolver. `received` are the SYSMODs that the client has received.
///
/// # Errors
///
/// `Memory` if memory ran out, `Device` if the source failed.
pub fn missing_rows<P: Published, J: Judge<P>>(
    alloc: Global,
    source: &mut P,
    judge: &mut J,
    zone: &Zone,
    received: &[Id],
    patterns: &[Pattern],
    holds: &[Hold],
) -> Result<Vec<MissingRow>, SourceFault>
    requires { Ascend received.now }
    ensures asks { MayAsk P.content_view Device source.old source.new result }
    ensures rows { IfOk result (λ rows. Tells P.content_view source.old source.new
        (λ content. J.is_right judge.old content
        → rows.items ≡ missing_rows_of content zone.now received.now patterns.now holds.now)) }
    ensures right { Tells P.content_view source.old source.new
        (λ content. J.is_right judge.old content → J.is_right judge.new content) }

    // The rows are in the report's order.
    ensures order { MissingRowsAscend }
{
    let held = missing_holds(alloc, source, judge, zone, received, patterns, holds)?;
    let lines = missing_lines(alloc, patterns, &held)?;
    Ok(rows_of(alloc, &lines)?)
}

/// Finds the holds of the report that nothing resolves yet and that have a category which a pattern matches, in their
/// order. Each has its resolvers: the hold's own, and each candidate that gives its reason or its resolver.
///
/// # Errors
///
/// Those of [`missing_rows`].
pub fn missing_holds<'h, P: Published, J: Judge<P>>(
    alloc: Global,
    source: &mut P,
    judge: &mut J,
    zone: &Zone,
    received: &[Id],
    patterns: &[Pattern],
    holds: &'h [Hold],
) -> Result<Vec<HoldResolvers<'h>>, SourceFault>
    requires { Ascend received.now }
    ensures asks { MayAsk P.content_view Device source.old source.new result }
    ensures holds { IfOk result (λ helds. Tells P.content_view source.old source.new
        (λ content. J.is_right judge.old content
        → helds.items ≡ missing_holds_of content zone.now received.now patterns.now holds.now)) }
    ensures right { Tells P.content_view source.old source.new
        (λ content. J.is_right judge.old content → J.is_right judge.new content) }
{
    let asked = asked_for(alloc, patterns, holds)?;
    let by = By::ReasonOrResolver;
    holds_by(alloc, source, judge, zone, received, by, &asked)
}

// The holds with a category that a pattern matches.
fn asked_for<'h>(
    alloc: Global,
    patterns: &[Pattern],
    holds: &'h [Hold],
) -> Result<Vec<&'h Hold>, NoMemory>
    ensures { IfOk result (λ asked. lent asked.items ≡ filter (is_asked patterns.now) holds.now) }
{
    let mut asked = Vec::new(alloc);
    for hold in holds {
        if is_asked(patterns, hold)? {
            asked.push(hold)?;
        }
    }
    Ok(asked)
}

fn is_asked(patterns: &[Pattern], hold: &Hold) -> Result<bool, NoMemory>
    ensures { IfOk result (λ asked. asked ≡ is_asked patterns.now hold.now) }
{
    let categories = hold.categories.to_list()?;
    Ok(any_matched(patterns, &categories))
}

fn any_matched(patterns: &[Pattern], categories: &[&[u8]]) -> bool
    ensures { result ≡ list_any
        (λ category. list_any (λ pattern. does_match pattern category.now) patterns.now) categories.now }
{
    categories
        .iter()
        .any(|category| is_matched(patterns, category))
}

fn is_matched(patterns: &[Pattern], category: &[u8]) -> bool
    ensures { result ≡ list_any (λ pattern. does_match pattern category.now) patterns.now }
{
    patterns.iter().any(|pattern| pattern.matches(category))
}

/// Makes the lines of the report, in its order: by each category that a pattern matches, then by held SYSMOD, reason
/// and resolver. If two holds agree in the SYSMOD, the reason and the resolver of the hold, the later one counts.
///
/// # Errors
///
/// `NoMemory` if memory ran out.
pub fn missing_lines<'h>(
    alloc: Global,
    patterns: &[Pattern],
    helds: &[HoldResolvers<'h>],
) -> Result<Vec<Line<'h>>, NoMemory>
    ensures lines { IfOk result (λ lines. lines.items ≡ missing_lines_of patterns.now helds.now) }

    // The rows of the report are its lines.
    ensures rows { MissingRowsAreLines }
{
    let groups = in_report_order(alloc, patterns, helds)?;
    lines_in(alloc, &groups)
}

fn in_report_order<'r, 'h>(
    alloc: Global,
    patterns: &[Pattern],
    helds: &'r [HoldResolvers<'h>],
) -> Result<Vec<Group<'r, 'h>>, NoMemory>
    ensures { IfOk result (λ groups. groups.items
        ≡ map (λ entry. entry.1) (missing_entries patterns.now [] helds.now)) }
{
    let mut groups = BTreeMap::new(alloc);
    for held in helds {
        put_asked(alloc, &mut groups, patterns, held)?;
    }
    listed(alloc, groups)
}

fn listed<'r, 'h>(
    alloc: Global,
    groups: BTreeMap<MissingHeld, Group<'r, 'h>>,
) -> Result<Vec<Group<'r, 'h>>, NoMemory>
    ensures { IfOk result (λ list. list.items ≡ map (λ entry. entry.1) groups.entry.entries) }
{
    groups.into_values().collect(alloc)
}

// Adds the categories of a hold that patterns match, in order.
fn put_asked<'r, 'h>(
    alloc: Global,
    groups: &mut BTreeMap<MissingHeld, Group<'r, 'h>>,
    patterns: &[Pattern],
    held: &'r HoldResolvers<'h>,
) -> Result<(), NoMemory>
    ensures { OnOk result
        (groups.new.entries ≡ put_groups groups.old.entries (missing_groups patterns.now held.now)) }
{
    let categories = held.hold().categories.to_list()?;
    for category in &categories {
        if is_matched(patterns, category) {
            put_category(alloc, groups, *category, held)?;
        }
    }
    Ok(())
}

fn put_category<'r, 'h>(
    alloc: Global,
    groups: &mut BTreeMap<MissingHeld, Group<'r, 'h>>,
    category: &'h [u8],
    held: &'r HoldResolvers<'h>,
) -> Result<(), NoMemory>
    ensures { OnOk result (groups.new.entries ≡ insert_entry held_cmp groups.old.entries
        (missing_held (record { category = category.now; hold = held.now.hold })) (group_of category.now held.now)) }
{
    let key = missing_held(alloc, category, held.hold())?;
    groups.insert(key, Group::new(category, held))?;
    Ok(())
}

fn missing_held(alloc: Global, category: &[u8], hold: &Hold) -> Result<MissingHeld, NoMemory>
    ensures { IfOk result
        (λ held. held ≡ missing_held (record { category = category.now; hold = hold.now })) }
{
    Ok(MissingHeld {
        category: MissingCategory::copy_of(alloc, category)?,
        sysmod: hold.key.sysmod,
        reason: hold.key.reason,
        resolver: hold.resolver,
    })
}

fn rows_of(alloc: Global, lines: &[Line]) -> Result<Vec<MissingRow>, NoMemory>
    ensures { IfOk result (λ rows. rows.items ≡ map missing_row_of lines.now) }
{
    let mut rows = Vec::with_capacity(alloc, lines.len())?;
    for line in lines {
        rows.push(row_of(alloc, line)?)?;
    }
    Ok(rows)
}

fn row_of(alloc: Global, line: &Line) -> Result<MissingRow, NoMemory>
    ensures { IfOk result (λ row. row ≡ missing_row_of line.now) }
{
    let hold = line.hold();
    Ok(MissingRow {
        category: MissingCategory::copy_of(alloc, line.category())?,
        sysmod: hold.key.sysmod,
        reason: hold.key.reason,
        resolver: line.resolver(),
        status: line.status(),
        received: line.received(),
    })
}
