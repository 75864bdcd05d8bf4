//! Checks whether a database holds what the bureau writes.
//!
//! - [`check`]: looks through a connection's database; [`Finding`]: what it finds
//! - [`every_caller`]: the callers of a store
//! - [`store_tally`]: how much a store and some callers have; [`StoreTally`], [`CallerLine`], [`CallerTally`];
//!   [`tally_text`]: the same as text
//! - [`StoreTable`]: a table whose rows are checked
//! - [`is_store_schema`]: whether tables and indexes are those of version 2, made as the bureau makes them
//! - [`law`]: laws on rows, and on every connection
//!
//! `specs/` has the rules of a row (`Kept`) and the rows that the bureau writes (`Written`), the findings of a check
//! (`Checked`), the order in which tables may be listed (`Order`), the amounts of a store (`Tally`), and why each of
//! these is refused (`Refused`). A database that is found whole is the bureau's own (`IsOurs` of `sql_tables`), and with
//! that begins all that is promised of a store.
#![tactic(auto)]

mod asked;
mod checked;
mod checking;
pub mod law;
mod looking;
mod order;
mod publisher;
mod rules;
mod said;
mod scan;
mod schema;
mod shapes;
mod table;
mod tallies;
mod text;
mod values;

pub use asked::every_caller;
pub use checking::{Finding, check};
pub use schema::is_store_schema;
pub use table::StoreTable;
pub use tallies::{CallerLine, CallerTally, StoreTally, store_tally};
pub use text::tally_text;
