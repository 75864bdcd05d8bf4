//! The changes of a publication.
ghost use Rattle.std.specs.Prelude.{◌≡◌, IfOk};

use crate::{NoMemory, Sysmod};
use holddata::HoldChange;

/// One change to what is published.
#[derive(Debug, Drop)]
pub enum Change {
    /// The record replaces the whole one with the same id.
    Whole(Sysmod),
    /// A hold is put or released.
    OfHold(HoldChange),
}

impl Change {
    /// Copies the change.
    pub fn copy(&self) -> Result<Self, NoMemory>
        ensures { IfOk result (λ copy. copy ≡ self.now) }
    {
        match self {
            Change::Whole(sysmod) => Ok(Change::Whole(sysmod.copy()?)),
            Change::OfHold(change) => Ok(Change::OfHold(change.copy()?)),
        }
    }
}
