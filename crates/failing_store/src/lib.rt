//! A store whose device fails, for tests of the crates above a store.
//!
//! - [`FailingStore`]: a store in lists that answers a number of calls, and then fails for good
#![tactic(auto)]

mod store;

pub use store::FailingStore;
