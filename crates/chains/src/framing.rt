//! The frame of a SYSMOD, read from a source.
ghost use Rattle.std.specs.Prelude.{◌≤◌, IfOk, IfSome, length};
ghost use Rattle.catalogue.specs.View.{MayAsk, Tells};
ghost use Rattle.catalogue.specs.declared.fault.SourceFault.TheVariants.{Device};
ghost use Rattle.chains.specs.Frames.{IsFrame};

use crate::frames::Frame;
use catalogue::{Published, SourceFault};
use listings::gather;
use mcs_reader::Id;
use std::alloc::Global;

/// Reads the frame of a SYSMOD, catalogued or not: all to which its needs and givers lead, and theirs, with what
/// the source says of each. It reads each id once.
///
/// # Errors
///
/// `Memory` if memory ran out, `Device` if the source failed.
pub fn frame<P: Published>(alloc: Global, source: &mut P, id: &Id) -> Result<Frame, SourceFault>
    ensures asks { MayAsk P.content_view Device source.old source.new result }
    ensures frame { IfOk result (λ frame. Tells P.content_view source.old source.new
        (λ content. IsFrame content id.now frame)) }
{
    match gather(alloc, source, id, None)? {
        Some(found) => Ok(Frame::of(alloc, found)?),
        None => unreachable!(),
    }
}

/// The same, if the frame has at most so many nodes. Of a larger one it reads no more than these.
///
/// # Errors
///
/// `Memory` if memory ran out, `Device` if the source failed.
pub fn frame_within<P: Published>(
    alloc: Global,
    source: &mut P,
    id: &Id,
    most: usize,
) -> Result<Option<Frame>, SourceFault>
    ensures asks { MayAsk P.content_view Device source.old source.new result }
    ensures frame { IfOk result (λ found. IfSome found (λ frame. Tells P.content_view source.old source.new
        (λ content. IsFrame content id.now frame))) }
    ensures small { IfOk result (λ found. IfSome found (λ frame. length frame.nodes ≤ most)) }
{
    match gather(alloc, source, id, Some(most))? {
        Some(found) => Ok(Some(Frame::of(alloc, found)?)),
        None => Ok(None),
    }
}
