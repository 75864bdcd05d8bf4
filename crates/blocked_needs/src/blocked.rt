//! The need that blocks one SYSMOD.
ghost use Rattle.std.specs.Prelude.{◌≡◌, ◌++◌, [], IfOk, OnOk};
ghost use Rattle.std.specs.List.{cons_option};
ghost use Rattle.catalogue.specs.View.{MayAsk, Tells};
ghost use Rattle.catalogue.specs.declared.fault.SourceFault.TheVariants.{Device};
ghost use Rattle.verdicts.specs.Verdicts.{held};
ghost use Rattle.blocked_needs.specs.Blocked as Spec;

use crate::applying::first_that_applies;
use catalogue::{Published, SourceFault};
use faults::NoMemory;
use mcs_reader::Id;
use std::alloc::Global;
use supersede::{Zone, givers};
use verdicts::{Judge, Verdict};

/// The need that blocks a SYSMOD that is HELD.
#[derive(Clone, Copy, Debug, PartialEq, Eq)]
pub struct BlockedNeed {
    /// The SYSMOD.
    pub sysmod: Id,
    /// The blocked need: the least of its needs that isn't there and that no SYSMOD gives which can be
    /// installed.
    pub need: Id,
    /// The least of the published SYSMODs that give the need and apply: one of their functions is installed.
    pub giver: Option<Id>,
    /// Whether any published SYSMOD gives the need.
    pub published: bool,
}

/// Finds what blocks a SYSMOD, if it is HELD.
pub(crate) fn blocked_at<P: Published, J: Judge<P>>(
    alloc: Global,
    source: &mut P,
    judge: &mut J,
    zone: &Zone,
    id: &Id,
) -> Result<Option<BlockedNeed>, SourceFault>
    ensures asks { MayAsk P.content_view Device source.old source.new result }
    ensures blocked { IfOk result (λ blocked. Tells P.content_view source.old source.new
        (λ content. J.is_right judge.old content
        → blocked ≡ Spec.blocked_at content zone.now id.now)) }
    ensures right { Tells P.content_view source.old source.new
        (λ content. J.is_right judge.old content → J.is_right judge.new content) }
{
    let verdict = judge.verdict(alloc, source, zone, id)?;
    match verdict {
        Verdict::Held(need) => blocked_for(alloc, source, zone, id, &need),
        _ => Ok(None),
    }
}

fn blocked_for<P: Published>(
    alloc: Global,
    source: &mut P,
    zone: &Zone,
    id: &Id,
    need: &Id,
) -> Result<Option<BlockedNeed>, SourceFault>
    ensures asks { MayAsk P.content_view Device source.old source.new result }
    ensures blocked { IfOk result (λ blocked. Tells P.content_view source.old source.new
        (λ content. blocked ≡ Spec.blocked_by content zone.now id.now (held need.now))) }
{
    let givers = givers(alloc, source, need)?;
    let giver = first_that_applies(source, zone, &givers)?;
    Ok(Some(BlockedNeed {
        sysmod: *id,
        need: *need,
        giver,
        published: has_one(&givers),
    }))
}

fn has_one(ids: &[Id]) -> bool
    ensures { result ≡ Spec.has_one ids.now }
{
    !ids.is_empty()
}

/// The SYSMOD that would give what blocks another, if one applies.
pub(crate) fn next_by(blocked: &Option<BlockedNeed>) -> Option<Id>
    ensures { result ≡ Spec.next_by blocked.now }
{
    match blocked {
        Some(blocked) => blocked.giver,
        None => None,
    }
}

/// Adds what blocks a SYSMOD, if it is HELD.
pub(crate) fn push_some(
    rows: &mut Vec<BlockedNeed>,
    blocked: &Option<BlockedNeed>,
) -> Result<(), NoMemory>
    ensures { OnOk result (rows.new.items ≡ rows.old.items ++ cons_option blocked.now []) }
{
    if let Some(blocked) = blocked {
        rows.push(BlockedNeed {
            sysmod: blocked.sysmod,
            need: blocked.need,
            giver: blocked.giver,
            published: blocked.published,
        })?;
    }
    Ok(())
}
