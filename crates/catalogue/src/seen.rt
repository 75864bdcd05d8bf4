//! One SYSMOD as published, read at once.

use crate::Sysmod;
use holddata::Hold;
use std::marker::Model;

/// One SYSMOD as published. A contract sees it with its lists.
#[derive(Debug, Drop)]
pub struct Seen {
    /// Its record, or `None` if it isn't catalogued.
    pub sysmod: Option<Sysmod>,
    /// The holds on it, in the order of their keys.
    pub holds: Vec<Hold>,
}

impl Model for Seen {
    ghost use Rattle.catalogue.specs.Seen.{SeenLists};

    ghost Value = { SeenLists };

    ghost view = { λ seen. record { sysmod = seen.sysmod; holds = seen.holds.items } };
}
