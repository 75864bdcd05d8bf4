//! Statements (MCS) of IBM z/OS SMP/E, read from their lines.
//!
//! - [`read`]: the statements of a source in order, or its first fault
//! - [`Statements`]: the same one statement at a time, with all operands or those that are asked for
//! - [`MOST_BYTES`]: the most bytes that a source may have
//! - [`Statement`]: its verb, its subject, its operands and its line
//! - [`Verb`]: the name after a statement's `++`, which says what it does
//! - [`Operands`]: the operands of one statement, in order
//! - [`Operand`]: one operand: its name, and the values of its list
//! - [`ListValues`]: the values of one list, in order
//! - [`McsFault`]: why a source isn't read; [`NoMemory`]: memory ran out
//! - [`Id`]: the name of a SYSMOD, an FMID, a reason, a class, a zone or a caller
//! - [`is_category`]: whether a text is a fix category; [`is_category_byte`]: whether a byte may stand in one
//!
//! `specs/` says what a statement is, apart from any code: begin with its `Reading`.
//!
//! ```
//! use mcs_reader::{Statements, Verb, read};
//! let source = b"++HOLD(UJ90101) ERROR FMID(HBB77E0)\n REASON(AJ00001) CLASS(PE,HIPER).\n";
//! for statement in &read(alloc, source)? {
//!     assert_eq!(rt; (statement.verb, statement.line), (Verb::Hold, 1));
//!     assert!(rt; statement.subject.is_some_and(|id| id.text() == "UJ90101"));
//! }
//! // one statement at a time, with these operands alone
//! let mut statements = Statements::asking(alloc, source, &[b"FMID", b"REASON"])?;
//! let statement = statements.next()?.ok_or("a statement")?;
//! assert_eq!(rt; statement.operands.as_slice().len(), 2);
//! ```
#![tactic(auto)]

mod asked;
mod byte;
mod category;
mod cursor;
mod fault;
mod id;
mod line;
mod list;
mod operand;
mod passing;
mod scratch;
mod source;
mod statement;
mod statements;

pub use category::{is_category, is_category_byte};
pub use fault::{McsFault, NoMemory};
pub use id::Id;
pub use source::{MOST_BYTES, read};
pub use statement::{ListValues, Operand, Operands, Statement, Verb};
pub use statements::Statements;
