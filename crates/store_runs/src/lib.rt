//! The runs of the program over a store in a file: they make a store, open it, make it one of version 2, give it
//! other callers, or look through it. It also says what the files hold wherever a run ends.
//!
//! - [`Stores`]: connections to the databases in files; [`IfMissing`]: what becomes of one that isn't there;
//!   [`Refusal`]: why there is none; [`Pages`]: whether its pages end in sums
//! - [`StoreFile`]: a file of a store; it is [`Watched`], and fails once it isn't in its [`Place`]
//! - [`do_init`], [`migrate_file`], [`callers_file`]: `init`, `migrate` and `callers`, for stores by the names of
//!   their files
//! - [`run_init`], [`run_open`], [`run_migrate`], [`run_callers`]: make a store, open it, make it one of version
//!   2, or give it other callers, over a connection
//! - [`check_file`], [`run_check`]: `check`, by the name of a file or over a connection; [`CheckFault`]: why it
//!   ends with a fault; [`CheckPlace`]: where a store is wrong
//! - [`law`]: what an `init` that was stopped leaves, for the next run
//! - [`callers_in`]: the callers of a callers file; [`of_store`]: the fault of a run for that of a store
//! - [`Ended`]: the files of a store when a run ends; [`end`]: ends a connection
#![tactic(auto)]

mod callers;
mod checking;
mod desk;
mod ended;
pub mod law;
mod migrating;
mod missing;
mod pages;
mod refusal;
mod stores;
mod watched;

pub use callers::{callers_file, run_callers};
pub use checking::{CheckFault, CheckPlace, check_file, run_check};
pub use desk::{callers_in, do_init, of_store, run_init, run_open};
pub use ended::{Ended, end};
pub use migrating::{migrate_file, run_migrate};
pub use missing::IfMissing;
pub use pages::Pages;
pub use refusal::Refusal;
pub use stores::{StoreFile, Stores};
pub use watched::{Place, Watched};
