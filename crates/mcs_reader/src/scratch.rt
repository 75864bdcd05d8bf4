//! Scratch vectors, in which the parts of a statement are gathered before their number is known.
ghost use Rattle.std.specs.Prelude.{◌≡◌, IfOk};

use crate::{NoMemory, Operand};
use std::alloc::Global;
use std::mem;

/// More items than this are not copied: the vector itself is given away.
const MOST_COPIED: usize = 64;

/// It is used for one statement after the other, so that a list takes memory once, and just its length.
#[derive(Drop)]
pub(crate) struct Scratch<'a> {
    pub(crate) values: Vec<&'a [u8]>,
    pub(crate) operands: Vec<Operand<'a>>,
}

impl<'a> Scratch<'a> {
    pub(crate) fn new(alloc: Global) -> Self {
        Scratch {
            values: Vec::new(alloc),
            operands: Vec::new(alloc),
        }
    }
}

/// Takes what was gathered.
pub(crate) fn take_gathered<T: Drop>(scratch: &mut Vec<T>) -> Result<Vec<T>, NoMemory>
    ensures { IfOk result (λ items. items.items ≡ scratch.old.items) }
{
    let alloc = *scratch.allocator();
    if scratch.len() > MOST_COPIED {
        return Ok(mem::replace(scratch, Vec::new(alloc)));
    }
    let mut items = Vec::with_capacity(alloc, scratch.len())?;
    items.append(scratch)?;
    Ok(items)
}
