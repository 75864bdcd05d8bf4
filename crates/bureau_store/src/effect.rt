//! The effect of a change on the tables.
use catalogue::Change;
use mcs_reader::Id;
use zone_lists::{Pattern, ZoneRow};

/// The effect of a change on the tables, in the caller's own lists.
#[derive(Clone, Copy)]
pub enum Effect<'a> {
    /// The publisher publishes these changes.
    Publication {
        changes: &'a [Change],
    },
    /// A client's zone gets these rows. It keeps its patterns if it was there before.
    ZonePut {
        client: &'a Id,
        zone: &'a Id,
        rows: &'a [ZoneRow],
    },
    /// A client's zone is dropped, with its patterns.
    ZoneDropped {
        client: &'a Id,
        zone: &'a Id,
    },
    /// A client's list of received SYSMODs becomes this one.
    ReceivedPut {
        client: &'a Id,
        ids: &'a [Id],
    },
    /// A client's zone gets these patterns.
    PatternsPut {
        client: &'a Id,
        zone: &'a Id,
        patterns: &'a [Pattern],
    },
}
