//! The reads of the bureau's store in a file: one public function for each, which borrows a connection at rest.
//!
//! The answer of a read is true of the committed rows. Rows that are out of order, or that the bureau never wrote,
//! are a fault of the device.
//!
//! - [`all_callers`], [`caller_of`], [`last`]: callers, and the last change of each
//! - [`zones`], [`zone_count`], [`has_zone`], [`zone`], [`zone_rows`], [`patterns`], [`received`]: the data of a
//!   client; [`held_in`]: the holds on its SYSMODs
//! - [`ids`], [`sysmod`], [`superseders`], [`holds`], [`holds_on`], [`counts`], [`hold_count`]: the published content
//! - [`seen`], [`is_run`]: the records and holds of many SYSMODs at once
//! - [`each_zone`], [`names_ascend`]: the zones in a client's rows
//! - [`AllColumns`]: the text that shows all columns of a table
//! - [`columns_of_tables`], [`columns_of_conditions`]: the texts that show whether the tables are there
//! - [`rows_of`]: the rows that any text finds which reads the tables
//! - [`each`], [`entries`]: the meaning of its rows, each an [`Entry`]; [`are_ascending`]: whether these are in
//!   order
//! - [`ReadFault`]: why a read is refused
//!
//! A contract says by `Finds` of `sql_tables` what a read answers and what it leaves.
#![tactic(auto)]

mod all_columns;
mod counted;
mod cut;
mod entry;
mod fault;
mod id_entry;
mod joins;
mod listed;
mod many;
mod one;
mod queue;
mod rows;
mod scan;
mod selection;
mod table;
mod tables_version;
mod zone_counts;

pub use all_columns::AllColumns;
pub use counted::{counts, hold_count, zone_count};
pub use entry::{Entry, Ordered, are_ascending, each, entries};
pub use fault::ReadFault;
pub use joins::{held_in, superseders, zone};
pub use many::{is_run, seen};
pub use rows::rows_of;
pub use table::caller::{all_callers, caller_of};
pub use table::hold_row::{holds, holds_on};
pub use table::last_change::last;
pub use table::received_list::received;
pub use table::sysmod::{ids, sysmod};
pub use table::zone_head::{has_zone, patterns};
pub use table::zone_row::zone_rows;
pub use table::{columns_of_conditions, columns_of_tables};
pub use tables_version::version;
pub use zone_counts::{each_zone, names_ascend, zones};
