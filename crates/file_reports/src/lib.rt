//! Reports from files, without a desk: from the bytes of publications and of a zone's lists to the text that a new
//! desk answers after the same publications and lists.
//!
//! - [`Lists`]: a zone's lists: its SYSMODs, and the client's received SYSMODs and fix categories, if these are given
//! - [`err_report`], [`missing_report`]: the two reports on a zone
//! - [`chain_report`]: the verdict on a SYSMOD in a zone
//! - [`Made`]: the text of one of them, and the [`Counts`] of what was published
//! - [`Input`]: the input that has a fault; [`InputFault`]: the first fault, and its input
//!
//! ```
//! // what isn't named here is of mcs_reader
//! use file_reports::{Lists, err_report};
//! let source = Vec::from_slice(alloc, b"++HOLD(UJ90101) ERROR FMID(HBB77E0) REASON(AJ00001).\n")?;
//! let lists = Lists::of_zone(b"SYSMOD,STATE\nUJ90101,APPLIED\n");
//! let zone = Id::new(b"NORTH").ok_or("an id")?;
//! let made = err_report(alloc, &zone, lists, vec![in alloc; source]?)?;
//! assert!(rt; made.text.ends_with(b"HBB77E0  UJ90101  AJ00001  - NONE -  -     -        -\nROWS 1\n"));
//! ```
#![tactic(auto)]

mod fault;
mod gathering;
mod held;
mod inputs;
mod publications;
mod texts;

pub use fault::{Input, InputFault};
pub use inputs::Lists;
pub use texts::{Counts, Made, chain_report, err_report, missing_report};
