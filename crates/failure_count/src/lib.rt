//! Counts how often what lies below a store has failed. A store that has failed once answers nothing more: its
//! count is never 0 again.
//!
//! - [`count_failure`]: counts a failure
//!
//! ```
//! use failure_count::count_failure;
//! let mut failures = 0;
//! count_failure(&mut failures);
//! assert_eq!(rt; failures, 1);
//! ```
#![tactic(auto)]

mod count;

pub use count::count_failure;
