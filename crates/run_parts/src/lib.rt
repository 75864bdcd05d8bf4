//! The parts that the program's runs share: the files that they read by name, and what they write to their two
//! streams.
//!
//! - [`Files`]: files by their names; [`read_file`]: reads a whole file; [`is_standard_input`]: the name `-`
//! - [`ReportFiles`]: the names of the files of a report
//! - [`ProgramFault`]: why the program itself can't do what it should
//! - [`told`], [`refuse`], [`explain`]: write to standard error how a run ended, and return the exit status
//! - [`report`], [`tell_in`], [`tell`], [`exit_status`]: write a fault's line, alone or with a name after it, or a
//!   text for people; the status of a fault
//! - [`explain_fault`]: writes what a fault means, for `--explain`
//! - [`printed`], [`write_text`], [`numbered_line`]: write to standard output; a line that counts
#![tactic(auto)]

mod fault;
mod files;
mod meanings;
mod printing;
mod report_files;
mod telling;

pub use fault::{ProgramFault, exit_status, report, tell};
pub use files::{Files, is_standard_input, read_file};
pub use printing::{numbered_line, printed, write_text};
pub use report_files::ReportFiles;
pub use telling::{explain, explain_fault, refuse, tell_in, told};
