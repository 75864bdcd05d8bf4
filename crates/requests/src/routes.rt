//! The paths of the bureau.
ghost use Rattle.std.specs.Prelude.{◌≡◌, option_map, IfSome, IsAscii, OnOk};
ghost use Rattle.std.specs.List.{fold};
ghost use Rattle.requests.specs.Request.{sysmod_in, zone_in};
ghost use Rattle.requests.specs.Routes as Spec;

use crate::place::{Place, id_taken};
use crate::resource::Resource;
use faults::NoMemory;
use matchit::Router;
use questions::Form::{Json, Text};
use questions::Report::{ErrSysmods, MissingFix};
use questions::Wanted::{Plan, Rows};
use std::alloc::Global;

// The paths, each with the resource that it names.
static PATHS: [(&str, Resource); 18] = [
    ("/publish", Resource::Publication),
    ("/published", Resource::Catalogue(Text)),
    ("/published.json", Resource::Catalogue(Json)),
    ("/zones", Resource::Zones(Text)),
    ("/zones.json", Resource::Zones(Json)),
    ("/zones/{zone}", Resource::Zone),
    ("/zones/{zone}/categories", Resource::Patterns),
    ("/received", Resource::Received),
    (
        "/zones/{zone}/errsysmods",
        Resource::Report(ErrSysmods, Rows(Text)),
    ),
    (
        "/zones/{zone}/errsysmods.json",
        Resource::Report(ErrSysmods, Rows(Json)),
    ),
    (
        "/zones/{zone}/missingfix",
        Resource::Report(MissingFix, Rows(Text)),
    ),
    (
        "/zones/{zone}/missingfix.json",
        Resource::Report(MissingFix, Rows(Json)),
    ),
    (
        "/zones/{zone}/errsysmods/plan",
        Resource::Report(ErrSysmods, Plan(Text)),
    ),
    (
        "/zones/{zone}/errsysmods/plan.json",
        Resource::Report(ErrSysmods, Plan(Json)),
    ),
    (
        "/zones/{zone}/missingfix/plan",
        Resource::Report(MissingFix, Plan(Text)),
    ),
    (
        "/zones/{zone}/missingfix/plan.json",
        Resource::Report(MissingFix, Plan(Json)),
    ),
    ("/zones/{zone}/counts.json", Resource::ZoneCounts),
    ("/zones/{zone}/chains/{sysmod}", Resource::Chain),
];

/// The paths of the bureau, as `matchit` matches them: before anything in them is decoded.
#[derive(Drop)]
pub struct Routes {
    router: Router<Resource>,
    ghost whole: { router ≡ Spec.routes },
}

impl Routes {
    /// Makes the router of all paths.
    pub fn new(alloc: Global) -> Result<Routes, NoMemory> {
        let mut router = Router::new(alloc);
        put_all(&mut router, &PATHS)?;
        Ok(Routes { router })
    }

    /// The resource that a path names, or `None` if it names none.
    pub fn resource(&self, path: &str) -> Option<Resource>
        ensures { result ≡ Spec.resource_at path.now }
    {
        match self.router.at(path) {
            Ok(found) => Some(*found.value),
            Err(_) => None,
        }
    }

    // The resource that a path in ASCII names, with the ids in the path.
    pub(crate) fn place(&self, path: &str) -> Option<Place>
        requires { IsAscii path.now }
        ensures resource { option_map (λ place. place.resource) result ≡ Spec.resource_at path.now }
        ensures zone { IfSome result (λ place. place.zone ≡ zone_in path.now) }
        ensures sysmod { IfSome result (λ place. place.sysmod ≡ sysmod_in path.now) }
    {
        match self.router.at(path) {
            Ok(found) => Some(Place {
                resource: *found.value,
                zone: id_taken(&found.params, "zone"),
                sysmod: id_taken(&found.params, "sysmod"),
            }),
            Err(_) => None,
        }
    }
}

// Puts paths into the router, one after the other.
fn put_all(router: &mut Router<Resource>, paths: &[(&str, Resource)]) -> Result<(), NoMemory>
    ensures { OnOk result (router.new ≡ fold Spec.with_entry router.old paths.now) }
{
    for (path, resource) in paths {
        put(router, path, *resource)?;
    }
    Ok(())
}

// Puts a path into the router. The paths don't conflict, so this fails only for want of memory.
fn put(router: &mut Router<Resource>, path: &str, resource: Resource) -> Result<(), NoMemory>
    ensures { OnOk result (router.new ≡ Spec.with_route router.old (path.now, resource)) }
{
    match router.insert(path, resource) {
        Ok(()) => Ok(()),
        Err(_) => Err(NoMemory),
    }
}
