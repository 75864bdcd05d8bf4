//! The resources that paths name, and the methods of each.
ghost use Rattle.std.specs.Prelude.{◌≡◌, ◌≤◌, ◌∷◌, [], length};
ghost use Rattle.requests.specs.Routes.{allow_of, is_among, takes};

use questions::{Form, Report, Wanted};

/// The resource that a path names.
#[derive(Clone, Copy, Debug, PartialEq, Eq)]
pub enum Resource {
    /// `/publish`
    Publication,
    /// `/published`, and `/published.json`
    Catalogue(Form),
    /// `/zones`, and `/zones.json`
    Zones(Form),
    /// `/zones/{zone}`
    Zone,
    /// `/zones/{zone}/categories`
    Patterns,
    /// `/received`
    Received,
    /// `/zones/{zone}/errsysmods` and `/zones/{zone}/missingfix`, their plans at `/plan` below them, and all four with `.json`
    Report(Report, Wanted),
    /// `/zones/{zone}/counts.json`
    ZoneCounts,
    /// `/zones/{zone}/chains/{sysmod}`
    Chain,
}

impl Resource {
    /// Whether the resource has such a method. Methods are compared with regard to case (RFC 9110, section 9.1).
    pub(crate) fn takes(self, method: &[u8]) -> bool
        ensures { result ≡ takes self method.now }
    {
        match self {
            Resource::Publication => is_only(method, b"POST"),
            Resource::Zone => method == b"DELETE".as_slice() || is_only(method, b"PUT"),
            Resource::Patterns | Resource::Received => is_only(method, b"PUT"),
            Resource::Catalogue(_)
            | Resource::Zones(_)
            | Resource::Report(_, _)
            | Resource::ZoneCounts
            | Resource::Chain => is_only(method, b"GET"),
        }
    }

    /// The methods of the resource, as the line `allow` of a reply has them.
    pub fn allow(self) -> &'static [u8]
        ensures text { result.now ≡ allow_of self }
        ensures len { length result.now ≤ 11 }
    {
        match self {
            Resource::Publication => b"POST",
            Resource::Zone => b"DELETE, PUT",
            Resource::Patterns | Resource::Received => b"PUT",
            Resource::Catalogue(_)
            | Resource::Zones(_)
            | Resource::Report(_, _)
            | Resource::ZoneCounts
            | Resource::Chain => b"GET",
        }
    }
}

// Whether a method is the only one of a resource.
fn is_only(method: &[u8], name: &[u8]) -> bool
    ensures { result ≡ is_among (name.now ∷ []) method.now }
{
    method == name
}
