//! A member of a plan, with its causes and holds.

use mcs_reader::Id;
use std::alloc::Global;
use std::marker::Model;
use zone_plans::HoldOn;

/// A member of a plan. A contract sees the content of each part.
#[derive(Debug, Drop)]
pub struct Member {
    step: usize,
    id: Id,
    fmids: Vec<Id>,
    received: bool,
    holds: Vec<HoldOn>,
    needed_by: Vec<Id>,
    system: Vec<Id>,
    user: Vec<Id>,
}

impl Model for Member {
    ghost use Rattle.plan_reports.specs.Members.{MemberLists};

    ghost Value = { MemberLists };

    ghost view = { λ m. record {
      step = m.step;
      id = m.id;
      fmids = m.fmids.items;
      received = m.received;
      holds = m.holds.items;
      needed_by = m.needed_by.items;
      system = m.system.items;
      user = m.user.items;
    } };
}

impl Member {
    ghost use Rattle.std.specs.Prelude.{◌≡◌, []};

    /// A member without functions, causes and holds so far.
    pub fn new(alloc: Global, step: usize, id: Id, received: bool) -> Self
        ensures { result ≡ record {
          step = step;
          id = id;
          fmids = [];
          received = received;
          holds = [];
          needed_by = [];
          system = [];
          user = [];
        } }
    {
        Member {
            step,
            id,
            fmids: Vec::new(alloc),
            received,
            holds: Vec::new(alloc),
            needed_by: Vec::new(alloc),
            system: Vec::new(alloc),
            user: Vec::new(alloc),
        }
    }

    /// Adds these functions.
    pub fn with_fmids(mut self, fmids: Vec<Id>) -> Self
        ensures { result ≡ record self { fmids = fmids.items } }
    {
        self.fmids = fmids;
        self
    }

    /// Adds why it is there: the holds for which it came, and the other members that need it.
    pub fn with_causes(mut self, holds: Vec<HoldOn>, needed_by: Vec<Id>) -> Self
        ensures { result ≡ record self { holds = holds.items; needed_by = needed_by.items } }
    {
        self.holds = holds;
        self.needed_by = needed_by;
        self
    }

    /// Adds the reasons of the SYSTEM and USER holds on it.
    pub fn with_holds_to_heed(mut self, system: Vec<Id>, user: Vec<Id>) -> Self
        ensures { result ≡ record self { system = system.items; user = user.items } }
    {
        self.system = system;
        self.user = user;
        self
    }

    /// The step in which it is installed, counted from 1.
    pub fn step(&self) -> usize
        ensures { result ≡ self.now.step }
    {
        self.step
    }

    /// The SYSMOD.
    pub fn id(&self) -> Id
        ensures { result ≡ self.now.id }
    {
        self.id
    }

    /// Its functions.
    pub fn fmids(&self) -> &[Id]
        ensures { result.now ≡ self.now.fmids }
    {
        self.fmids.as_slice()
    }

    /// Whether the client has received it.
    pub fn received(&self) -> bool
        ensures { result ≡ self.now.received }
    {
        self.received
    }

    /// The holds for which it came: those whose chosen resolver it gives.
    pub fn holds(&self) -> &[HoldOn]
        ensures { result.now ≡ self.now.holds }
    {
        self.holds.as_slice()
    }

    /// The other members that need it.
    pub fn needed_by(&self) -> &[Id]
        ensures { result.now ≡ self.now.needed_by }
    {
        self.needed_by.as_slice()
    }

    /// The reasons of the SYSTEM holds on it, which its installer should heed.
    pub fn system(&self) -> &[Id]
        ensures { result.now ≡ self.now.system }
    {
        self.system.as_slice()
    }

    /// The reasons of the USER holds on it.
    pub fn user(&self) -> &[Id]
        ensures { result.now ≡ self.now.user }
    {
        self.user.as_slice()
    }
}
