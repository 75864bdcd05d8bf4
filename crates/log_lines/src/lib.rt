//! Lines of the log of a desk: one for each request, and one for each connection that failed.
//!
//! Each line is a few [`Word`]s, parted by single blanks, and a line end. A word has no blank and nothing that
//! isn't printed, so no client can begin a line of its own. No call takes memory.
//!
//! - [`Word`]: a text as a line shows it
//! - [`time_word`]: the word of a time
//! - [`Note`]: the facts on a request; [`request_line`]: its line
//! - [`fault_line`]: the line of a connection that failed; [`lost_line`]: that of lines which were left out
//! - [`Line`]: a line, with its line end
//!
//! ```
//! use log_lines::{Note, Word, request_line, time_word};
//! use std::time::Duration;
//! let note = Note {
//!     caller: Word::of(b"NORTH"),
//!     method: Word::of(b"GET"),
//!     path: Word::of(b"/zones/TGT1/errsysmods"),
//!     status: 200,
//!     came: 71,
//!     went: 412,
//!     lack: None,
//! };
//! let line = request_line(&time_word(Duration::from_millis(784_111_777_123)), &note, 7);
//! let text: &[u8] = b"1994-11-06T08:49:37.123Z NORTH GET /zones/TGT1/errsysmods 200 71 412 7\n";
//! assert_eq!(rt; line.as_slice(), text);
//! ```
#![tactic(auto)]

mod line;
mod month;
mod note;
mod stamp;
mod word;

pub use line::{Line, fault_line, lost_line, request_line};
pub use note::Note;
pub use stamp::time_word;
pub use word::Word;
