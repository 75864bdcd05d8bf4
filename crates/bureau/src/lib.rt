//! The bureau: its answer to each call, and what each caller may rely on.
//!
//! - [`Bureau`]: the bureau over a store and a judge
//! - [`Call`]: a question or a change of a caller
//! - [`isolation`]: each caller's answers are those of a bureau that no other client uses
//! - [`repeats`]: a change acts once, however often it is sent
//! - [`Reply`]: an answer: its status and its [`Body`], and the [`Lack`] that a 503 has
//!
//! `specs/` defines the bureau. Begin with its `Outcome`, what comes of a call over what one caller sees.
//! Then read `Joint`, the bureau that all share, and `Own` and `Alone`, the bureau that one caller has
//! alone.
//!
//! ```
//! use bureau::{Bureau, Call};
//! use bureau_store::{ListStore, callers};
//! use chains::Whole;
//! use questions::Form;
//! let rows = callers(alloc, b"NAME,TOKEN\nPUBLISH,publisher-token\nALPHA,alpha-token\n")?;
//! let mut bureau = Bureau::new(alloc, ListStore::new(alloc, &rows)?, Whole::new());
//! let publisher = bureau.caller_of(b"publisher-token")?.ok_or("a caller")?;
//! let body: &[u8] = b"++HOLD(UJ90101) ERROR FMID(HBB77E0) REASON(AJ00001).\n";
//! let reply = bureau.answer(&publisher, &Call::Publish { number: Some(1), body });
//! assert_eq!(rt; reply.body.as_slice(), b"ACCEPTED SYSMODS 0 HOLDS 1 RELEASES 0\n".as_slice());
//! let alpha = bureau.caller_of(b"alpha-token")?.ok_or("a caller")?;
//! let reply = bureau.answer(&alpha, &Call::Counts { form: Form::Text });
//! assert_eq!(rt; reply.body.as_slice(), b"PUBLISHED SYSMODS 0 HOLDS 1\n".as_slice());
//! ```
#![tactic(auto)]

mod answers;
mod bureau;
mod call;
mod changes;
mod commit;
mod decide;
mod forms;
mod lack;
mod law;
mod number_order;
mod outcome;
mod publication;
mod reply;
mod report_texts;
mod texts;

pub use bureau::Bureau;
pub use call::Call;
pub use lack::Lack;
pub use law::{isolation, repeats};
use mcs_reader::NoMemory;
pub use reply::{Body, Reply};
