//! Verdicts on SYSMODs: which can be installed in a zone. This crate defines what a verdict is and what a judge
//! answers, and has ids by their indices in a list.
//!
//! Other crates find verdicts: `chains` over all that is catalogued, and `chain_cache` from frames that it keeps.
//!
//! - [`Verdict`]: a SYSMOD's chosen plan, or its blocked need, or that it doesn't apply; [`Status`]: the same without
//!   plan and need
//! - [`Judge`]: gives verdicts over published content
//! - [`put_plan`]: adds a chosen plan to a set of ids; [`listed`]: the ids of a set as a list
//! - [`good_is_planned`], [`verdicts_are_right`]: laws of the definitions
//! - [`index_of`], [`index_near`], [`put_indices`], [`id_at`], [`ids_at`]: ids by their indices in a list that ascends
//! - [`sort_each_once`], [`do_ascend`], [`ascending`]: ids in ascending order
//!
//! ```
//! use mcs_reader::Id;
//! use verdicts::{Status, Verdict};
//! let needed = Id::new(b"AJ00001").ok_or("an id")?;
//! assert_eq!(rt; Verdict::Held(needed).status(), Status::Held);
//! assert_eq!(rt; Verdict::Lack.status(), Status::Lack);
//! ```
#![tactic(auto)]

mod indices;
mod judge;
mod law;
mod united;
mod verdict;

pub use indices::{
    ascending, do_ascend, id_at, ids_at, index_near, index_of, put_indices, sort_each_once,
};
pub use judge::Judge;
pub use law::{good_is_planned, verdicts_are_right};
pub use united::{listed, put_plan};
pub use verdict::{Status, Verdict};
