//! Superseding: the SYSMODs of a zone, and those that give a SYSMOD.
//!
//! - [`Zone`]: the rows of a zone, in which SYSMODs are looked up
//! - [`givers`]: the SYSMODs that give one
//! - [`index_among`]: the index of a SYSMOD among others
//! - [`there`]: whether a SYSMOD is there in a zone, itself or by one that supersedes it
//!
//! ```
//! use catalogue::{ListPublished, read_changes};
//! use mcs_reader::{Id, read};
//! use supersede::{Zone, givers, there};
//! use zone_lists::zone_rows;
//! let source = b"++PTF(UJ90102).\n++VER(Z038) FMID(HBB77E0) SUP(AJ00001).\n";
//! let mut lists = ListPublished::new(alloc);
//! lists.publish(&read_changes(alloc, &read(alloc, source)?)?)?;
//! let zone = Zone::from_rows(zone_rows(alloc, b"SYSMOD,STATE\nUJ90102,APPLIED\n")?);
//! let apar = Id::new(b"AJ00001").ok_or("an id")?;
//! let givers = givers(alloc, &mut lists, &apar)?; // UJ90102 alone
//! assert!(rt; !zone.listed(&apar) && there(&zone, &apar, &givers));
//! ```
#![tactic(auto)]

mod giving;
mod presence;
mod search;
mod zone;

pub use giving::givers;
pub use presence::there;
pub use search::index_among;
pub use zone::Zone;
