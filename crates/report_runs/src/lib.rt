//! The runs of the program that make reports from files, without a desk: `holds`, `errsysmods`, `missingfix` and
//! `chain`.
//!
//! - [`run_holds`]: prints the hold book that a source leaves; [`do_holds`]: that of a FILE by its name
//! - [`run_report`]: prints a report of the bytes of files, as [`ReportAsked`]
//! - [`do_report`]: prints the answer to a [`Question`] from files by their names; [`do_chain`]: the verdict on a
//!   SYSMOD
//!
//! ```
//! let source = "++HOLD(UA10001) ERROR REASON(AA20002).";
//! let (mut output, mut errors) = (Vec::new(alloc), Vec::new(alloc));
//! let status = run_holds(alloc, &mut source.as_bytes(), &mut output, &mut errors);
//! assert_eq!(rt; status, 0);
//! assert!(rt; output.ends_with(b"ROWS 1\n"));
//! ```
#![tactic(auto)]

mod amounts;
mod holds;
mod report_files;
mod reporting;

pub use holds::{do_holds, run_holds};
pub use report_files::{do_chain, do_report};
pub use reporting::{Question, ReportAsked, run_report};
