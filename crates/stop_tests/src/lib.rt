//! Tests of what a stop leaves of a store in files, whose device fails at each of its calls in turn.
//!
//! They have a crate of their own, since they are proved too, and cross all crates of the store.
#![tactic(auto)]

#[cfg(test)]
mod tests;
