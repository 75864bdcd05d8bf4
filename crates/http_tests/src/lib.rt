//! Tests of connections to a desk, and of its lists, over a desk that knows only the publisher and over the bureau.
//!
//! They have a crate of their own, since the gate proves a crate with tests twice.
#![tactic(auto)]

#[cfg(test)]
mod tests;
