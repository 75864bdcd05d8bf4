//! The published content in flat lists, for a report from files. It takes about half of the memory
//! of [`ListPublished`](catalogue::ListPublished), and takes no more publications once it is made.
//!
//! - [`Gathered`]: the records and holds that changes publish, one after the other
//! - [`FlatContent`]: the content that they leave, and how much it is
//!
//! ```
//! // what isn't named here is of catalogue and mcs_reader
//! use flat_content::Gathered;
//! let source = b"++PTF(UJ90102).\n++VER(Z038) FMID(HBB77E0) PRE(UJ90101) SUP(AJ00001).\n";
//! let gathered = Gathered::new(alloc).with(read_changes(alloc, &read(alloc, source)?)?)?;
//! let mut content = gathered.content()?;
//! let givers = content.superseders(&Id::new(b"AJ00001").ok_or("an id")?)?;
//! assert!(rt; givers.len() == 1 && givers[0].text() == "UJ90102");
//! ```
#![tactic(auto)]

mod content;
mod gathered;
mod heads;
mod links;
mod records;
mod spans;

pub use content::FlatContent;
pub use gathered::Gathered;
