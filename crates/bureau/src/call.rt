//! Calls: what a caller may ask of the bureau, with the number and the body of a change.
use mcs_reader::Id;
use questions::{Form, Wanted};

/// A call: what a caller asks of the bureau.
///
/// A change has a number, or none if a request names none that reads. Its body is the bytes that came
/// with it.
#[derive(Clone, Copy, Debug)]
pub enum Call<'a> {
    /// The publisher publishes statements.
    Publish {
        /// The change's number.
        number: Option<u64>,
        /// SYSMODs, holds and releases as MCS.
        body: &'a [u8],
    },
    /// A client puts a zone.
    PutZone {
        /// The change's number.
        number: Option<u64>,
        /// The zone's name.
        zone: Id,
        /// The zone's SYSMODs with their states, as CSV.
        body: &'a [u8],
    },
    /// A client drops a zone.
    DropZone {
        /// The change's number.
        number: Option<u64>,
        /// The zone's name.
        zone: Id,
    },
    /// A client puts the list of the SYSMODs that it has received.
    PutReceived {
        /// The change's number.
        number: Option<u64>,
        /// The SYSMODs, as CSV.
        body: &'a [u8],
    },
    /// A client puts the patterns of the fix categories that it asks for in a zone.
    PutPatterns {
        /// The change's number.
        number: Option<u64>,
        /// The zone's name.
        zone: Id,
        /// The patterns, as CSV.
        body: &'a [u8],
    },
    /// A client asks which zones it has.
    ListZones {
        /// The form of the answer.
        form: Form,
    },
    /// A client asks for the exception SYSMOD report on a zone, or for the plan for it.
    ErrSysmods {
        /// The zone's name.
        zone: Id,
        /// Its rows or the plan, and in which form.
        wanted: Wanted,
    },
    /// A client asks for the missing fix report on a zone, or for the plan for it.
    MissingFix {
        /// The zone's name.
        zone: Id,
        /// Its rows or the plan, and in which form.
        wanted: Wanted,
    },
    /// A client asks what the reports on a zone count.
    ZoneCounts {
        /// The zone's name.
        zone: Id,
    },
    /// A client asks for the verdict on a SYSMOD in a zone.
    Chain {
        /// The zone's name.
        zone: Id,
        /// The SYSMOD.
        sysmod: Id,
    },
    /// Any caller asks how much is published.
    Counts {
        /// The form of the answer.
        form: Form,
    },
}
