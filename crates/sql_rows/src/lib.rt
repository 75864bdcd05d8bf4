//! The tables of a store's file, whichever they are: where the rows of one are, the key by which they are found, and
//! what a statement makes of them.
//!
//! - [`Key`]: the first columns of rows, by which they are found: an id or a [`Zone`]
//! - [`Table`]: a table of the schema, whose rows are some of those of the store
//!
//! `specs/Standing` says what it means that a table is there, and `specs/Fitting` which rows fit into it. `proofs/`
//! proves once for every table what a statement makes of the trees, of the rows of its table, and of the others.
#![tactic(auto)]

mod key;
mod table;
mod tables;

pub use key::{All, Key, Zone, id_of};
pub use table::Table;
pub use tables::{Callers, Conds, Heads, Holds, LastChanges, Received, Sups, Sysmods, ZoneRows};
