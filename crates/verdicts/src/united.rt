//! The members of chosen plans.
ghost use Rattle.std.specs.Prelude.{◌≡◌, IfOk, OnOk};
ghost use Rattle.catalogue.specs.Ids.{Ascend, put_among};
ghost use Rattle.verdicts.specs.Judge as judge;
ghost use Rattle.verdicts.specs.United.{plan_by};

use crate::Verdict;
use mcs_reader::{Id, NoMemory};
use std::alloc::Global;
use std::collections::BTreeSet;

/// Adds the chosen plan of a verdict to ids. A verdict that isn't good has none.
///
/// # Errors
///
/// `NoMemory` if memory ran out.
pub fn put_plan(found: &mut BTreeSet<Id>, verdict: &Verdict) -> Result<(), NoMemory>
    ensures { OnOk result
        (found.new.keys ≡ put_among found.old.keys (plan_by (judge.judged_by verdict.now))) }
{
    match verdict {
        Verdict::Good(plan) => put_all(found, plan),
        _ => Ok(()),
    }
}

fn put_all(found: &mut BTreeSet<Id>, ids: &[Id]) -> Result<(), NoMemory>
    ensures { OnOk result (found.new.keys ≡ put_among found.old.keys ids.now) }
{
    for id in ids {
        found.insert(*id)?;
    }
    Ok(())
}

/// The ids of a set, ascending.
///
/// # Errors
///
/// `NoMemory` if memory ran out.
pub fn listed(alloc: Global, ids: BTreeSet<Id>) -> Result<Vec<Id>, NoMemory>
    ensures ids { IfOk result (λ list. list.items ≡ ids.keys) }
    ensures ascend { IfOk result (λ list. Ascend list.items) }
{
    ids.into_iter().collect(alloc)
}
