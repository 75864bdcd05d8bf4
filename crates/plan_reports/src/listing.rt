//! The SYSMODs of a plan.
ghost use Rattle.std.specs.Prelude.{◌≡◌, IfOk};
ghost use Rattle.catalogue.specs.Ids.{Ascend, in_order};
ghost use Rattle.zone_plans.specs.Members.{joined};

use faults::NoMemory;
use mcs_reader::Id;
use reports::put_all;
use std::alloc::Global;
use std::collections::BTreeSet;
use verdicts::listed;
use zone_plans::Steps;

/// The members of some steps, ascending, each once.
pub(crate) fn members_in(alloc: Global, steps: &Steps) -> Result<Vec<Id>, NoMemory>
    ensures ids { IfOk result (λ ids. ids.items ≡ in_order (joined steps.now)) }
    ensures ascend { IfOk result (λ ids. Ascend ids.items) }
{
    let mut found = BTreeSet::new(alloc);
    for index in 0..steps.len() {
        let step = steps.step(alloc, index)?;
        put_all(&mut found, &step)?;
    }
    listed(alloc, found)
}
