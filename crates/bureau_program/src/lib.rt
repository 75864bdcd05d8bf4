//! The program of the bureau, over any surroundings: from the words of a command line to the bytes that a run writes.
//!
//! The crates below have the runs over files, and over a store that serves nobody (`report_runs`, `store_runs`). This
//! one has those that serve, and the run that chooses.
//!
//! - [`run`]: a whole run, by the words of its command line
//! - [`run_replay`]: writes the replies of a desk in memory to connections in files
//! - [`open_and_serve`]: serves a desk over a store, as a [`Service`]; [`serve_in_rounds`]: over any [`Prepared`]
//!   connections
//! - [`run_serve`]: serves over the files of a store, whenever the run stops; [`law`]: laws on any number of runs
//! - [`Surroundings`]: the words of a run, the files that they name, connections to a port, and random keys
#![tactic(auto)]

mod cache;
pub mod law;
mod program;
mod replay;
mod serving;
mod surroundings;

pub use program::run;
pub use replay::run_replay;
pub use serving::{Prepared, Service, open_and_serve, run_serve, serve_in_rounds};
pub use surroundings::Surroundings;
