//! HOLDDATA: the holds that `++HOLD` statements put and `++RELEASE` statements take away, kept in a book by
//! SYSMOD, kind and reason.
//!
//! - [`change`]: the [`HoldChange`] that a statement makes, if it makes one, or its [`HoldFault`]; [`changes`]: those
//!   of a list of statements
//! - [`hold_operands`]: the names of the operands that are read; [`sole_value`]: the one value that operands of one
//!   name give
//! - [`HoldBook`]: takes changes one by one or many at a time, and gives its holds by key, by SYSMOD, in key order,
//!   and as text; [`SortKey`]: its order
//! - [`book_left`]: the book that a list of changes leaves; [`book_text_left`]: its text
//! - [`Hold`], [`HoldKey`]: a hold, and the key that identifies it; [`key_cmp`]: the order of keys; [`Kind`], [`Date`],
//!   [`Categories`]: parts of it; [`join_with_commas`]: texts with commas between
//! - [`NoMemory`]: memory ran out
//!
//! `specs/` defines each of these: begin with its `HoldBook`.
//!
//! ```
//! use holddata::{Kind, book_left, changes};
//! use mcs_reader::{Id, read};
//! let source = b"++HOLD(UJ90101) ERROR FMID(HBB77E0) REASON(AJ00001) CLASS(PE).\n\
//! ++HOLD(UJ90101) SYSTEM FMID(HBB77E0) REASON(IPL).\n++RELEASE(UJ90101) ERROR REASON(AJ00001).\n";
//! let book = book_left(alloc, changes(alloc, &read(alloc, source)?)?)?;
//! let holds = book.holds_on(&Id::new(b"UJ90101").ok_or("an id")?)?;
//! assert!(rt; holds.len() == 1 && holds.iter().all(|hold| hold.key.kind == Kind::SystemHold));
//! assert!(rt; book.text()?.ends_with(b"ROWS 1\n"));
//! ```
#![tactic(auto)]

mod asked;
mod book;
mod categories;
mod category_values;
mod date;
mod fault;
mod hold;
mod key;
mod last;
mod map;
mod operands;
mod print;
mod reading;
mod sort_key;

pub use asked::hold_operands;
pub use book::{HoldBook, book_left};
pub use categories::{Categories, join_with_commas};
pub use date::Date;
pub use fault::HoldFault;
pub use faults::NoMemory;
pub use hold::{Hold, HoldChange};
pub use key::{HoldKey, Kind, key_cmp};
pub use last::book_text_left;
pub use operands::sole_value;
pub use reading::{change, changes};
pub use sort_key::SortKey;
