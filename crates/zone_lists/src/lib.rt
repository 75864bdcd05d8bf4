//! The lists that a client sends as CSV: the SYSMODs of a zone, the SYSMODs that it has received,
//! and the fix categories that it asks for.
//!
//! A list is read by `csv` as RFC 4180 has it, after a UTF-8 mark at its very beginning. Spaces and
//! tabs at both ends of a field are no part of it, also inside quotes. The first record is the header.
//! The records after it are numbered from 1, and an empty line is no record. An answer ascends and has
//! each entry once.
//!
//! - [`zone_rows`]: the SYSMODs of a zone and their states, as [`ZoneRow`] and [`ZoneState`]
//! - [`received_rows`]: SYSMODs
//! - [`patterns`]: fix categories, or beginnings of some, as [`Pattern`]
//! - [`ListFault`]: the first fault of a list
//! - [`ZONE_RECORDS`], [`RECEIVED_RECORDS`], [`PATTERN_RECORDS`]: the most records that a list may
//!   have
//!
//! The same loop reads a list of another kind, with columns of its own:
//!
//! - [`Entries`]: the entries of one kind of list, gathered from its records; [`read_list`] reads them
//! - [`one_field`], [`two_fields`], [`is_name`], [`are_names`]: the fields of a record
//!
//! ```
//! use zone_lists::{ZoneState, patterns, received_rows, zone_rows};
//! let rows = zone_rows(alloc, b"SYSMOD,STATE\nUJ90101,APPLIED\nHBB77E0,APPLIED\n")?;
//! let first = rows.first().ok_or("a row")?; // the rows ascend
//! assert!(rt; first.sysmod.text() == "HBB77E0" && first.state == ZoneState::Applied);
//! let received = received_rows(alloc, b"SYSMOD\nUJ90102\n")?;
//! assert_eq!(rt; received.len(), 1);
//! for pattern in &patterns(alloc, b"CATEGORY\nIBM.Device.*\n")? {
//!     assert!(rt; pattern.matches(b"ibm.device.server"));
//! }
//! ```
#![tactic(auto)]

mod categories;
mod fault;
mod fields;
mod list;
mod pattern;
mod received;
mod records;
mod zones;

pub use categories::{PATTERN_RECORDS, patterns};
pub use fault::ListFault;
pub use fields::{are_names, is_name, one_field, two_fields};
pub use list::{Entries, read_list};
pub use pattern::Pattern;
pub use received::{RECEIVED_RECORDS, received_rows};
pub use zones::{ZONE_RECORDS, ZoneRow, ZoneState, zone_rows};
