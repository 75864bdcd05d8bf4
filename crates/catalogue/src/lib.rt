//! The catalogue: the SYSMODs that are published, with their holds, and the ids that a publication touches.
//!
//! - [`Published`]: how every layer above reads the published content, whether lists or a file keep it;
//!   [`SourceFault`]: why it doesn't answer
//! - [`ListPublished`]: the content in lists
//! - [`Seen`]: one SYSMOD as published: its record and the holds on it
//! - [`Sysmod`], [`SysmodKind`], [`Ids`], [`CondNeeds`]: a record of the catalogue and its parts
//! - [`Change`]: a record that is put or a change to the holds; a list of them is a publication
//! - [`read_changes`]: the changes that statements make, or their [`CatFault`]; [`ChangeReader`]: one statement at a
//!   time
//! - [`publication_operands`]: the names of the operands that are read
//! - [`touched`]: the ids that a publication touches
//! - [`NoMemory`]: memory ran out
//!
//! `specs/` defines the content: begin with its `Content`, `Publication` and `Touched`.
//!
//! ```
//! use catalogue::{ListPublished, Published, read_changes, touched};
//! use mcs_reader::{Id, read};
//! let mut lists = ListPublished::new(alloc);
//! let source = b"++PTF(UJ90102).\n++VER(Z038) FMID(HBB77E0) PRE(UJ90101) SUP(AJ00001).\n";
//! let changes = read_changes(alloc, &read(alloc, source)?)?;
//! let ids = touched(alloc, &mut lists, &changes)?; // before the publication: a cache drops these
//! assert_eq!(rt; ids.len(), 2);
//! lists.publish(&changes)?;
//! let givers = lists.superseders(&Id::new(b"AJ00001").ok_or("an id")?)?;
//! assert!(rt; givers.len() == 1 && givers[0].text() == "UJ90102");
//! ```
#![tactic(auto)]

mod asked;
mod change;
mod conditional;
mod fault;
mod header;
mod ids;
mod index;
mod list_published;
mod published;
mod reading;
mod seen;
mod sysmod;
mod touching;

pub use asked::publication_operands;
pub use change::Change;
pub use conditional::{CondNeed, CondNeeds};
pub use fault::{CatFault, SourceFault};
pub use ids::Ids;
pub use list_published::ListPublished;
pub use mcs_reader::NoMemory;
pub use published::Published;
pub use reading::{ChangeReader, read_changes};
pub use seen::Seen;
pub use sysmod::{Sysmod, SysmodKind};
pub use touching::touched;
