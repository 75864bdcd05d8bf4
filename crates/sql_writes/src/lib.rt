//! Writes the bureau's changes into a store's file, each in a transaction that it borrows. It commits nothing.
//!
//! - [`write`]: a change of a client or of the publisher, with its number and its reply
//! - [`set_callers`]: gives a store other callers
//! - [`create`]: makes the tables of version 2 with the callers, in an empty database
//! - [`migrate`]: makes the tables of version 1 those of version 2, with the rows that they hold
//!
//! A contract says how a change alters the rows that the transaction sees, in the words of `sql_tables`: `Alters` is
//! its `Changes` for the connection that the transaction lends. `specs/Making` says what `create` leads to, and
//! `specs/Migrating` what `migrate` does.
#![tactic(auto)]

mod callers;
mod change;
mod delete;
mod free;
mod insert;
mod load;
mod migration;
mod params;
mod publication;
mod records;
mod run;
mod table;
mod tables;
mod texts;
mod values;
mod zone;

pub use callers::set_callers;
pub use change::write;
pub use migration::migrate;
pub use tables::create;
