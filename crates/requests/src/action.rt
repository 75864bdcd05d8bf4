//! The actions that requests ask for.
ghost use Rattle.std.specs.Prelude.{◌≡◌, ℕ, List};
ghost use Rattle.requests.specs.Request as Spec;

use crate::resource::Resource;
use mcs_reader::Id;
use questions::{Form, Report, Wanted};

/// The action that a request asks for.
#[derive(Clone, Copy, Debug, PartialEq, Eq)]
pub enum Action {
    /// Publishes the statements in the body.
    Publish,
    /// Counts what is published.
    Counts(Form),
    /// Lists the caller's zones.
    ListZones(Form),
    /// Puts the zone in the body in place of this one.
    PutZone(Id),
    /// Drops this zone.
    DropZone(Id),
    /// Puts the fix categories in the body in place of this zone's.
    PutPatterns(Id),
    /// Puts the received SYSMODs in the body in place of the caller's.
    PutReceived,
    /// Reports on this zone, or plans what the report asks for.
    Report(Report, Wanted, Id),
    /// Counts what the reports on this zone have.
    ZoneCounts(Id),
    /// Finds the plan for this SYSMOD in this zone.
    Chain(Id, Id),
}

// The action of a method at a resource that has it, with the ids of the path. `None` if an id that
// the action needs is none. At a zone the method is DELETE or PUT.
pub(crate) fn action_at(
    resource: Resource,
    method: &[u8],
    zone: Option<Id>,
    sysmod: Option<Id>,
) -> Option<Action>
    ensures { (path : List ℕ) → zone ≡ Spec.zone_in path → sysmod ≡ Spec.sysmod_in path →
        result ≡ Spec.action_at resource method.now path }
{
    match resource {
        Resource::Publication => Some(Action::Publish),
        Resource::Catalogue(form) => Some(Action::Counts(form)),
        Resource::Zones(form) => Some(Action::ListZones(form)),
        Resource::Received => Some(Action::PutReceived),
        Resource::Zone if method == b"DELETE".as_slice() => Some(Action::DropZone(zone?)),
        Resource::Zone => Some(Action::PutZone(zone?)),
        Resource::Patterns => Some(Action::PutPatterns(zone?)),
        Resource::Report(report, wanted) => Some(Action::Report(report, wanted, zone?)),
        Resource::ZoneCounts => Some(Action::ZoneCounts(zone?)),
        Resource::Chain => Some(Action::Chain(zone?, sysmod?)),
    }
}
