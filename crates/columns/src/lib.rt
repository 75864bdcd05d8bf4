//! Text in columns: a title, a heading, rows of fields and the count of the rows, as the hold book, the
//! reports and the list of zones are printed.
//!
//! A [`Table`] is begun with its [`Column`]s, takes a row at a time, and is finished into its text.
//!
//! ```
//! use columns::{Column, Table};
//! let columns = [Column { start: 1, name: b"ZONE" }, Column { start: 10, name: b"SYSMODS" }];
//! let mut table = Table::new(alloc, &columns, Some(b"ZONES OF ALPHA"))?;
//! table.push(&[b"TGT1", b"2"])?;
//! table.push(&[b"TGT2", b"20000"])?;
//! let text: &[u8] = b"ZONES OF ALPHA\nZONE     SYSMODS\nTGT1     2\nTGT2     20000\nROWS 2\n";
//! assert_eq!(rt; table.finish()?.as_slice(), text);
//! ```
#![tactic(auto)]

mod column;
mod line;
mod table;

pub use column::Column;
use std::alloc::AllocError as NoMemory;
pub use table::Table;
