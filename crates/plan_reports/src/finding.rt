//! The findings on the members, by their indices.
ghost use Rattle.std.specs.Prelude.{◌≡◌, List, IfOk};
ghost use Rattle.zone_lists.specs.declared.zones.ZoneRow.{ZoneRow};
ghost use Rattle.catalogue.specs.Content.{Content};
ghost use Rattle.catalogue.specs.Ids.{Ascend};
ghost use Rattle.zone_plans.specs.Findings.{AreFoundOf};
ghost use Rattle.zone_plans.specs.Plans.{resolvers_of};
ghost use Rattle.plan_reports.specs.Found.{AreFound};

use crate::placing::{needing_rows, resolving_rows};
use faults::NoMemory;
use mcs_reader::Id;
use std::alloc::Global;
use std::marker::Model;
use zone_plans::ZonePlan;

/// The findings on the members.
#[derive(Debug, Drop)]
pub(crate) struct Found {
    /// The members, ascending.
    pub(crate) ids: Vec<Id>,
    /// For each the indices of the members that need it.
    pub(crate) needing: Vec<Vec<usize>>,
    /// For each the indices of the holds for which it came.
    pub(crate) resolving: Vec<Vec<usize>>,
}

impl Model for Found {
    ghost use Rattle.plan_reports.specs.Found.{FoundLists, places_of};

    ghost Value = { FoundLists };

    ghost view = { λ found. record {
      ids = found.ids.items;
      needing = places_of found.needing.items;
      resolving = places_of found.resolving.items;
    } };
}

/// Finds the causes of the members of a plan, by it and by its holds with a resolver.
pub(crate) fn find(alloc: Global, ids: Vec<Id>, plan: &ZonePlan) -> Result<Found, NoMemory>
    requires { Ascend ids.items }
    ensures ids { IfOk result (λ found. found.ids ≡ ids.items) }
    ensures found { IfOk result (λ found. (content : Content) (rows : List ZoneRow)
        → AreFoundOf content rows plan.now.findings ids.items
        → AreFoundOf content rows plan.now.findings (resolvers_of plan.now.resolved)
        → AreFound content rows plan.now.resolved found) }
{
    let needing = needing_rows(alloc, &ids, plan.findings())?;
    let resolving = resolving_rows(alloc, &ids, plan.findings(), plan.resolved())?;
    Ok(Found {
        ids,
        needing,
        resolving,
    })
}
