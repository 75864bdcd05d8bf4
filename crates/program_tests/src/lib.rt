//! Tests of the program: worked sources and requests, lines of words, stores, and files that are interrupted.
//!
//! They have a crate of their own, since the gate proves a crate with tests twice.
#![tactic(auto)]

#[cfg(test)]
mod tests;
