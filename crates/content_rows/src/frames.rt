//! Frames: all on which a verdict may depend, in any zone.
use crate::print::{put_node, yes};
use catalogue::{Published, SourceFault};
use chain_cache::ChainCache;
use chains::{Frame, frame, touches};
use mcs_reader::{Id, NoMemory};
use std::alloc::Global;
use std::fmt::Write;

fn put_frame(text: &mut String, frame: &Frame) -> Result<(), NoMemory> {
    for node in frame.nodes() {
        put_node(text, node)?;
    }
    Ok(())
}

/// The frames of ids: a line for each SYSMOD in them.
pub(crate) fn frames_told<P: Published>(
    alloc: Global,
    source: &mut P,
    ids: &[Id],
) -> Result<String, SourceFault> {
    let mut text = String::new(alloc);
    for id in ids {
        put_frame(&mut text, &frame(alloc, source, id)?)?;
    }
    Ok(text)
}

/// The number of SYSMODs in the frame of each id.
pub(crate) fn nodes<P: Published>(
    alloc: Global,
    source: &mut P,
    ids: &[Id],
) -> Result<String, SourceFault> {
    let mut text = String::new(alloc);
    for id in ids {
        let count = frame(alloc, source, id)?.nodes().len();
        write!(text, "{count}\n")?;
    }
    Ok(text)
}

/// The same of the frames that are kept from then on.
pub(crate) fn kept_nodes<P: Published>(
    alloc: Global,
    source: &mut P,
    cache: &mut ChainCache,
    ids: &[Id],
) -> Result<String, SourceFault> {
    let mut text = String::new(alloc);
    for id in ids {
        let count = cache.frame_for(alloc, source, id)?.nodes().len();
        write!(text, "{count}\n")?;
    }
    Ok(text)
}

/// Whether the frame of the first id is touched by the others.
pub(crate) fn touching<P: Published>(
    alloc: Global,
    source: &mut P,
    ids: &[Id],
) -> Result<String, SourceFault> {
    let mut text = String::new(alloc);
    if let Some((first, others)) = ids.split_first() {
        let frame = frame(alloc, source, first)?;
        text = yes(alloc, touches(&frame, others, false))?;
    }
    Ok(text)
}
