//! Runs rows of text files: each row has a question, and the right answer to it.
//!
//! An empty line ends a case. The first letter of a line, or its first word, says what it is:
//!
//! | Line | What it is |
//! |---|---|
//! | `* TEXT` | a remark |
//! | `+` or a blank at the front | a line of statements, as it stands |
//! | `\|TEXT` | a line of anything else that the next command takes: a list, a body |
//! | `base` | in place of such lines: the statements of the worked case, [`testing::BASE`] |
//! | `each FIRST LAST TEXT` | the same: TEXT for each number, with `%` for the number in five digits and `&` for the next one; a `\|` in TEXT ends a line |
//! | `= TEXT` | a line of what is wanted of the command before; `=` alone is an empty line |
//! | `=each FIRST LAST TEXT` | such lines, made as those of `each` |
//! | `WORD ..` | a command, which the crate above answers |
//! | `brief WORD ..` | the same command; of each line of its answer only the first three words are compared, the last one, and how many words there are |
//!
//! `tests/row_files.py` reads the same format, and `tests/rows.py` runs the same files through the program.
//!
//! - [`Subject`]: answers the commands; the crate above writes it
//! - [`Row`]: a command with the lines before it
//! - [`run_text`], [`run_files`]: run the rows of a text, or of files
//! - [`Tally`]: the number of right and of wrong answers; a text on the wrong ones, with file and line
#![tactic(auto)]

mod lines;
mod page;
mod row;
mod run;
mod tally;

pub use row::Row;
pub use run::{Subject, run_files, run_text};
pub use tally::Tally;
