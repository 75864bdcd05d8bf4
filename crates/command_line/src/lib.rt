//! The command line of the program, read with `clap`.
//!
//! - [`line_of`]: reads the words as a [`Line`]; or says as a [`LineFault`] why they are none
#![tactic(auto)]

mod arguments;
mod commands;
mod help;
mod line;
mod subcommands;
mod values;

pub use line::{Line, LineFault, line_of};
