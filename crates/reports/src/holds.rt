//! The holds of a report that nothing resolves yet, each with the SYSMODs that resolve it.

use holddata::Hold;
use mcs_reader::Id;
use std::marker::Model;
use verdicts::Status;

/// A SYSMOD that resolves a hold, with its status.
#[derive(Clone, Copy, Debug, PartialEq, Eq)]
pub struct Resolver {
    /// The SYSMOD.
    pub id: Id,
    /// The status of its verdict in the zone.
    pub status: Status,
    /// Whether the client has received it.
    pub received: bool,
}

/// A hold that nothing resolves yet, with the SYSMODs that resolve it. A contract sees the hold and the list of these.
#[derive(Debug, Drop)]
pub struct HoldResolvers<'h> {
    hold: &'h Hold,
    resolvers: Vec<Resolver>,
}

impl<'h> Model for HoldResolvers<'h> {
    ghost use Rattle.reports.specs.Holds.{HoldLists};

    ghost Value = { HoldLists };

    ghost view = { λ one. record { hold = one.hold.now; resolvers = one.resolvers.items } };
}

impl<'h> HoldResolvers<'h> {
    ghost use Rattle.std.specs.Prelude.{◌≡◌};

    /// A hold with these resolvers.
    pub fn new(hold: &'h Hold, resolvers: Vec<Resolver>) -> Self
        ensures { result ≡ record { hold = hold.now; resolvers = resolvers.items } }
    {
        HoldResolvers { hold, resolvers }
    }

    /// The hold.
    pub fn hold(&self) -> &'h Hold
        ensures { result.now ≡ self.now.hold }
    {
        self.hold
    }

    /// Its resolvers, ascending.
    pub fn resolvers(&self) -> &[Resolver]
        ensures { result.now ≡ self.now.resolvers }
    {
        self.resolvers.as_slice()
    }
}
