//! The resource that a path names, with the ids in the path.
ghost use Rattle.std.specs.Prelude.{◌≡◌};
ghost use Rattle.matchit.specs.Params.{AllText};
ghost use Rattle.requests.specs.Places.{id_taken, taken};
ghost use Rattle.requests.specs.Request as Spec;

use crate::resource::Resource;
use arrayvec::ArrayVec;
use matchit::Params;
use mcs_reader::Id;
use percent_encoding::percent_decode;

/// The resource that a path names, with the ids in the path.
#[derive(Clone, Copy)]
pub(crate) struct Place {
    /// The resource.
    pub(crate) resource: Resource,
    /// The zone in the path, if that is an id.
    pub(crate) zone: Option<Id>,
    /// The SYSMOD in the path, if that is an id.
    pub(crate) sysmod: Option<Id>,
}

// The id that the parameter with this name takes.
pub(crate) fn id_taken(params: &Params<'_, '_>, name: &str) -> Option<Id>
    ensures { AllText (taken params.now) → result ≡ id_taken name.now params.now }
{
    id_in(params.get(name)?.as_bytes())
}

// The id that a part of a path stands for, its escapes decoded.
fn id_in(part: &[u8]) -> Option<Id>
    ensures { result ≡ Spec.id_in part.now }
{
    let mut text = ArrayVec::<u8, 7>::new();
    for byte in percent_decode(part) {
        if text.is_full() {
            return None;
        }
        text.push(byte);
    }
    Id::new(&text)
}
