//! Tools that tests of several crates share: comparisons, readers and writers that fail, a clock that is set, numbers
//! that are drawn, texts of requests and replies, and a worked case.
//!
//! If a test sees something else than it wants, it fails and says both. The comparisons are functions, since a macro of
//! `std` is proved anew at each of its uses, and takes most of the time of a test's proof. A condition is asserted by
//! `std`'s `assert!`, which costs little.
//!
//! - [`assert_equal`]: compares two values
//! - [`assert_equal_at`]: does the same, and also says the case, such as the row of a table
//! - [`Pieces`] and [`Slow`]: a reader and a writer of a piece at a time, whose calls fail as [`Failures`] says
//! - [`Ticking`]: a clock by which the same time passes before each look
//! - [`Exchange`]: a request with its reply, of which [`request_text`] and [`reply_text`] make the bytes
//! - [`Draws`]: numbers that are drawn, the same at each run
//! - [`BASE`]: statements that publish three SYSMODs and a hold, and the reports on them
//! - [`with_base`]: these statements, and more after them
//!
//! ```
//! use testing::{assert_equal, assert_equal_at};
//! assert_equal("UA10001".len(), 7)?;
//! for (text, length) in [("", 0), ("UA10001", 7)] {
//!     assert_equal_at(text, text.len(), length)?;
//! }
//! ```
#![tactic(auto)]

mod base;
mod clock;
mod comparing;
mod draws;
mod exchanges;
mod failures;
mod reader;
mod sample;
mod writer;

pub use base::with_base;
pub use clock::Ticking;
pub use comparing::{assert_equal, assert_equal_at};
pub use draws::Draws;
pub use exchanges::{
    ALPHA, Asked, BETA, Exchange, FIRST, OK, PUBLISHER, SECOND, Told, reply_text, request_text,
};
pub use failures::Failures;
pub use reader::Pieces;
pub use sample::{BASE, LONG_PLAN, ONE_RECEIVED, ONE_RESOLVER, SHORT_PLAN, TWO_RESOLVERS};
pub use writer::Slow;
