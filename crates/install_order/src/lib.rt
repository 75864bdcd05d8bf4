//! The order of installation: which members of a plan are left if one gives another, and in which steps the
//! rest is installed (IBM z/OS SMP/E Reference, `++VER`, operands PRE, REQ and SUP). Members are nodes, known
//! by their indices in a list.
//!
//! - [`left_marks`]: the nodes that no other one outdoes
//! - [`steps`]: the order of installation: each step has all nodes that may come once those before it are
//!   installed
//!
//! ```
//! use install_order::{left_marks, steps};
//! use requisites::Rows;
//! let (mut givers, mut needs) = (Rows::new(alloc), Rows::new(alloc));
//! for row in [&[1usize] as &[usize], &[], &[]] {
//!     givers.push_row(row)?; // 1 gives 0
//! }
//! for row in [&[] as &[usize], &[2], &[]] {
//!     needs.push_row(row)?; // 1 needs 2
//! }
//! let left = left_marks(alloc, &givers, 3)?;
//! assert_eq!(rt; left.as_slice(), [false, true, true].as_slice());
//! let steps = steps(alloc, &needs, &left)?;
//! assert!(rt; steps.len() == 2 && steps.row(0) == [2].as_slice());
//! ```
#![tactic(auto)]

mod leaving;
mod levels;
mod order;
mod putting;
mod rings;
mod search;
mod ties;

pub use leaving::left_marks;
pub use order::steps;
