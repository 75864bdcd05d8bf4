//! The outcome of a call.
use crate::Reply;
use catalogue::Change;
use mcs_reader::Id;
use zone_lists::{Pattern, ZoneRow};

/// The outcome of a call: a reply alone, or an accepted change with its reply.
#[derive(Drop)]
pub(crate) enum Outcome {
    /// The reply. Nothing changes.
    Answered(Reply),
    /// The change, which isn't made yet.
    Accepted(AcceptedChange),
}

/// An accepted change, with all that it takes. To make it takes no memory of the bureau's.
#[derive(Drop)]
pub(crate) struct AcceptedChange {
    /// The change's number.
    pub(crate) number: u64,
    /// The text of its reply, which is kept.
    pub(crate) reply: Vec<u8>,
    /// Its effect on the tables.
    pub(crate) effect: Effect,
}

/// The effect of an accepted change on the tables.
#[derive(Drop)]
pub(crate) enum Effect {
    /// The publisher publishes these changes, and the frames of these SYSMODs are touched.
    Publication {
        changes: Vec<Change>,
        touched: Vec<Id>,
    },
    /// A client's zone gets these rows.
    ZonePut {
        client: Id,
        zone: Id,
        rows: Vec<ZoneRow>,
    },
    /// A client's zone is dropped.
    ZoneDropped {
        client: Id,
        zone: Id,
    },
    /// A client's list of received SYSMODs becomes this one.
    ReceivedPut {
        client: Id,
        ids: Vec<Id>,
    },
    /// A client's zone gets these patterns.
    PatternsPut {
        client: Id,
        zone: Id,
        patterns: Vec<Pattern>,
    },
}
