//! Questions about a zone: which report, its rows or the plan for it, and in which form.
//!
//! - [`Report`]: a report on a zone, with its name
//! - [`Wanted`]: the rows of a report, or the plan for it
//! - [`Form`]: the form of an answer
//!
//! ```
//! use questions::{Form, Report, Wanted};
//! assert_eq!(rt; Report::ErrSysmods.name(), "errsysmods");
//! assert_eq!(rt; Wanted::Plan(Form::Json).form(), Form::Json);
//! ```
#![tactic(auto)]

mod report;
mod wanted;

pub use report::Report;
pub use wanted::{Form, Wanted};
