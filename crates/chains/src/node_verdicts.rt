//! A verdict on a node, as one on the id at its index.
ghost use Rattle.std.specs.Prelude.{◌≡◌, IfOk};
ghost use Rattle.verdicts.specs.Judge as judge;
ghost use Rattle.chains.specs.NodeVerdicts.{IsWithin, verdict_at};

use mcs_reader::{Id, NoMemory};
use std::alloc::Global;
use verdicts::{Verdict, id_at, ids_at};

/// Turns a verdict on a node into one on the id at its index.
pub(crate) fn by_ids(
    alloc: Global,
    members: &[Id],
    verdict: requisites::Verdict,
) -> Result<Verdict, NoMemory>
    requires { IsWithin members.now verdict }
    ensures { IfOk result (λ judged. judge.judged_by judged ≡ verdict_at members.now verdict) }
{
    match verdict {
        requisites::Verdict::Good(plan) => Ok(Verdict::Good(ids_at(alloc, members, &plan)?)),
        requisites::Verdict::Held(need) => Ok(Verdict::Held(id_at(members, need))),
        requisites::Verdict::Lack => Ok(Verdict::Lack),
    }
}
