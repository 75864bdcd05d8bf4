//! Texts of SQL that a store in a file runs, each with its meaning to the database. The program makes no text
//! while it runs. Most texts of a single table are in its file of `sql_reads`, `sql_writes` and `sql_checks`.
//!
//! - [`create`]: the tables and the index of version 2
//! - [`read`]: the texts that read several tables, and those that several crates use
//! - [`law`]: laws on the rows that a query of one table or of two finds
//! - [`write`]: the texts that write the version, and the text of a probe
//!
//! A contract says how the database understands a text under the schema of version 2: as a query over the trees
//! of the tables, or as a command on a table. `specs/` has the schema (`Schema`), these queries (`Reads`) and
//! these commands (`Writes`).
#![tactic(auto)]

pub mod create;
pub mod law;
pub mod read;
pub mod write;
