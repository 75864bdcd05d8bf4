//! SYSMODs that can be installed together, by the needs of each and by superseding (IBM z/OS SMP/E
//! Reference, `++VER`, operands PRE, REQ and SUP). They are nodes, known by their indices in a list.
//!
//! - [`Nodes`]: what a zone and the catalogue say of each node; [`Rows`]: for each node a row of nodes
//! - [`resolve`]: the nodes that some plan holds, and the least of them that gives each node, as a
//!   [`Resolution`]
//! - [`verdict_of_node`]: a node's chosen plan or its blocked need, as a [`Verdict`]
//! - [`chosen_plans`]: the members of the chosen plans of several nodes
//! - [`least_sources`]: each node's source, which is the least marked node that leads to it;
//!   [`source_at`]: the source of one node; [`has_source`]: whether it has one
//! - [`turned`]: for each node those whose rows list it
//! - [`is_marked`]: whether a node is marked
//!
//! ```
//! use requisites::{Nodes, Rows, Verdict, resolve, verdict_of_node};
//! let (mut needs, mut supersedes) = (Rows::new(alloc), Rows::new(alloc));
//! needs.push_row(&[1])?; // 0 needs 1, which is no candidate
//! for row in [&[], &[], &[1usize] as &[usize]] {
//!     supersedes.push_row(row)?; // 2 supersedes 1
//! }
//! let candidates = Vec::from_slice(alloc, &[true, false, true])?;
//! let nodes = Nodes { candidates, there: Vec::new(alloc), needs, supersedes };
//! let verdict = verdict_of_node(alloc, &nodes, &resolve(alloc, &nodes)?, 0)?;
//! assert!(rt; matches!(verdict, Verdict::Good(plan) if plan.as_slice() == [0, 2].as_slice()));
//! ```
#![tactic(auto)]

mod cascade;
mod chosen;
mod good;
mod marking;
mod nodes;
mod reversed;
mod rings;
mod rows;
mod sources;
mod verdict;

pub use chosen::chosen_plans;
pub use good::{Resolution, resolve};
pub use nodes::{Nodes, is_marked};
pub use reversed::turned;
pub use rows::Rows;
pub use sources::{has_source, least_sources, source_at};
/// Memory ran out.
pub use std::alloc::AllocError as NoMemory;
pub use verdict::{Verdict, verdict_of_node};
