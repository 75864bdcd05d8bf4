//! The bureau's tables in a database: what their rows stand for, and how contracts look at a connection to the file.
//!
//! - [`law`]: the rows stand for tables in order; a change of the rows is that change of the tables; a read of the rows
//!   finds what the tables say
//! - [`id_value`], [`date_value`] and so on: the value for a column; [`id_in`] and so on: its meaning
//! - [`joined_ids`], [`joined_patterns`], [`categories_value`]: lists, each in one column
//! - [`zone_row_in`], [`hold_in`], [`cond_in`], [`sysmod_in`], [`change_in`] and so on: the meaning of a row
//! - [`state_law`]: laws on the databases that are the bureau's own
//! - [`NoMemory`]: memory ran out
//!
//! `specs/` defines the values of a column (`Values`) and of a row (`Rows`), the tables that all rows stand for
//! (`Stored`), and the rows after each change (`Changes`). It says which databases are the bureau's own (`Ours`), and
//! what a read (`Reading`) and a statement that writes (`Writing`) leave of a connection. The crate opens no database.
#![tactic(auto)]

pub mod law;
mod lists;
mod rows;
pub mod state_law;
mod values;

pub use faults::NoMemory;
pub use lists::{
    categories_in, categories_value, ids_in, joined_ids, joined_patterns, patterns_in,
};
pub use rows::{
    caller_in, change_in, cond_in, count_in, hold_in, id_row_in, ids_row_in, patterns_row_in,
    sysmod_in, zone_row_in,
};
pub use values::{
    date_in, date_value, hold_kind_in, hold_kind_value, id_in, id_value, optional_id_in,
    optional_id_value, state_in, state_value, sysmod_kind_in, sysmod_kind_value,
};
