//! A hold of a plan, and the resolver that is chosen for it.

use mcs_reader::Id;

/// A hold of a report: the held SYSMOD, and the reason.
#[derive(Clone, Copy, Debug, PartialEq, Eq)]
pub struct HoldOn {
    /// The held SYSMOD.
    pub sysmod: Id,
    /// The reason of the hold.
    pub reason: Id,
}

/// A hold of a report, with the resolver that is chosen for it: the received ones come before the others, then one that
/// no other resolver supersedes, then the greatest id.
#[derive(Clone, Copy, Debug, PartialEq, Eq)]
pub struct ChosenResolver {
    /// The hold.
    pub hold: HoldOn,
    /// The SYSMOD that is chosen.
    pub resolver: Id,
}
