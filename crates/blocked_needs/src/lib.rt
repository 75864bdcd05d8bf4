//! The needs that block the SYSMODs that are HELD in a zone, and the SYSMODs that would give them.
//!
//! - [`blocked_needs`]: the table of blocked needs for some SYSMODs, as [`BlockedNeed`]s
//!
//! ```
//! // what isn't named here is of catalogue, chains, mcs_reader, supersede and zone_lists
//! use blocked_needs::blocked_needs;
//! let source = b"++PTF(UJ90101).\n++VER(Z038) FMID(HBB77E0) PRE(UJ90102).\n";
//! let (mut lists, held) = (ListPublished::new(alloc), Id::new(b"UJ90101").ok_or("an id")?);
//! lists.publish(&read_changes(alloc, &read(alloc, source)?)?)?;
//! let zone = Zone::from_rows(zone_rows(alloc, b"SYSMOD,STATE\nHBB77E0,APPLIED\n")?);
//! let table = blocked_needs(alloc, &mut lists, &mut Whole::new(), &zone, &[held])?;
//! assert!(rt; table.len() == 1 && !table[0].published); // nothing gives UJ90102
//! ```
#![tactic(auto)]

mod applying;
mod blocked;
mod following;

pub use blocked::BlockedNeed;
pub use following::blocked_needs;
