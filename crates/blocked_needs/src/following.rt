//! The table of blocked needs.
ghost use Rattle.std.specs.Prelude.{◌≡◌, IfOk, OnOk, is_some, map};
ghost use Rattle.std.specs.BTreeMap.{get};
ghost use Rattle.std.specs.Cmp.Lexicographic.{slice_cmp};
ghost use Rattle.std.specs.List.{filter_map};
ghost use Rattle.std.specs.Ordering.{nat_cmp};
ghost use Rattle.catalogue.specs.View.{MayAsk, Tells};
ghost use Rattle.catalogue.specs.declared.fault.SourceFault.TheVariants.{Device};
ghost use Rattle.blocked_needs.specs.Blocked.{AreBlockedNeeds};
ghost use Rattle.blocked_needs.specs.Seen.{HasFollowed};

use crate::blocked::{BlockedNeed, blocked_at, next_by, push_some};
use catalogue::{Published, SourceFault};
use faults::NoMemory;
use mcs_reader::Id;
use std::alloc::Global;
use std::collections::BTreeMap;
use supersede::Zone;
use verdicts::Judge;

// Each SYSMOD that was looked at, with what blocks it if it is HELD.
type Seen = BTreeMap<Id, Option<BlockedNeed>>;

/// Makes the table of blocked needs for some SYSMODs, ascending, each once. It has a row for each of them that is
/// HELD, and for each giver in a row that is HELD itself.
///
/// # Errors
///
/// `Memory` if memory ran out, `Device` if the source failed.
pub fn blocked_needs<P: Published, J: Judge<P>>(
    alloc: Global,
    source: &mut P,
    judge: &mut J,
    zone: &Zone,
    sysmods: &[Id],
) -> Result<Vec<BlockedNeed>, SourceFault>
    ensures asks { MayAsk P.content_view Device source.old source.new result }
    ensures needs { IfOk result (λ found. Tells P.content_view source.old source.new
        (λ content. J.is_right judge.old content
        → AreBlockedNeeds content zone.now sysmods.now found.items)) }
    ensures right { Tells P.content_view source.old source.new
        (λ content. J.is_right judge.old content → J.is_right judge.new content) }
{
    let mut seen = BTreeMap::new(alloc);
    for id in sysmods {
        follow(alloc, source, judge, zone, &mut seen, id)?;
    }
    Ok(rows_in(alloc, seen)?)
}

// Looks at a SYSMOD, at the one that would give what blocks it, and so on, down to one that was looked at before.
fn follow<P: Published, J: Judge<P>>(
    alloc: Global,
    source: &mut P,
    judge: &mut J,
    zone: &Zone,
    seen: &mut Seen,
    start: &Id,
) -> Result<(), SourceFault>
    ensures asks { MayAsk P.content_view Device source.old source.new result }
    ensures followed { OnOk result (Tells P.content_view source.old source.new
        (λ content. J.is_right judge.old content
        → HasFollowed content zone.now start.now seen.old.entries seen.new.entries)) }
    ensures right { Tells P.content_view source.old source.new
        (λ content. J.is_right judge.old content → J.is_right judge.new content) }
{
    let mut next = Some(*start);
    // Each step adds a SYSMOD to the map, so no run comes to this bound. With it the loop is seen to end.
    'givers: for _ in 0..u64::MAX {
        let Some(id) = next else {
            return Ok(());
        };
        if is_seen(seen, &id) {
            return Ok(());
        }
        let blocked = blocked_at(alloc, source, judge, zone, &id)?;
        next = next_by(&blocked);
        seen.insert(id, blocked)?;
    }
    // No map has room for so many.
    Err(SourceFault::Memory)
}

fn is_seen(seen: &Seen, id: &Id) -> bool
    ensures { result ≡ is_some (get (slice_cmp nat_cmp) seen.now id.now) }
{
    seen.contains_key(id)
}

// The rows of the SYSMODs that are HELD.
fn rows_in(alloc: Global, seen: Seen) -> Result<Vec<BlockedNeed>, NoMemory>
    ensures { IfOk result (λ rows. rows.items ≡ filter_map (λ entry. entry.1) seen.entries) }
{
    let blocked = values_of(alloc, seen)?;
    those_held(alloc, &blocked)
}

fn values_of(alloc: Global, seen: Seen) -> Result<Vec<Option<BlockedNeed>>, NoMemory>
    ensures { IfOk result (λ values. values.items ≡ map (λ entry. entry.1) seen.entries) }
{
    seen.into_iter().map(|(_, blocked)| blocked).collect(alloc)
}

fn those_held(alloc: Global, blocked: &[Option<BlockedNeed>]) -> Result<Vec<BlockedNeed>, NoMemory>
    ensures { IfOk result (λ rows. rows.items ≡ filter_map (λ one. one) blocked.now) }
{
    let mut rows = Vec::new(alloc);
    for one in blocked {
        push_some(&mut rows, one)?;
    }
    Ok(rows)
}
