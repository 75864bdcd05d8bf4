//! The frames that a publication leaves as they are.
ghost use Rattle.std.specs.Prelude.{◌≡◌, true};
ghost use Rattle.std.specs.Bool.{OnFalse};
ghost use Rattle.std.specs.List.{list_any};
ghost use Rattle.catalogue.specs.Ids.{Ascend, same_id};
ghost use Rattle.chains.specs.Frames as spec;
ghost use Rattle.chains.specs.Frames.{AreApart, FramesStay, ids_in};

use crate::frames::Frame;
use mcs_reader::Id;
use supersede::index_among;

/// Whether a frame has one of some ids. `ascending` says that these are known to ascend: then it looks for
/// each node among them by halves.
///
/// If two contents say the same outside some ids, a frame that has none of these is the same in both. So a
/// publication leaves a frame as it is if the frame has none of the ids that it touches.
pub fn touches(frame: &Frame, ids: &[Id], ascending: bool) -> bool
    requires { ascending ≡ true → Ascend ids.now }
    ensures value { result ≡ spec.shares ids.now frame.now }
    ensures apart { OnFalse result (AreApart (ids_in frame.now.nodes) ids.now) }
    ensures stay { FramesStay }
{
    shares(frame, ids, ascending)
}

// Whether a frame has one of some ids.
fn shares(frame: &Frame, ids: &[Id], ascending: bool) -> bool
    requires { ascending ≡ true → Ascend ids.now }
    ensures { result ≡ spec.shares ids.now frame.now }
{
    frame
        .nodes()
        .iter()
        .any(|node| is_among(ids, ascending, &node.id))
}

// Whether an id is one of some ids.
fn is_among(ids: &[Id], ascending: bool, id: &Id) -> bool
    requires { ascending ≡ true → Ascend ids.now }
    ensures { result ≡ list_any (same_id id.now) ids.now }
{
    if ascending {
        return index_among(ids, id).is_some();
    }
    ids.iter().any(|other| *id == *other)
}
