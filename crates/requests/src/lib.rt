//! Requests from the bytes of a connection, and the heads of replies to its bytes (RFC 9112).
//!
//! The bytes of a connection are empty lines and heads, each with the body after it. [`read_front`] reads as far
//! as the end of a head, [`decide`] says what the head is and how long its body, and [`read_whole`] reads the
//! body. Bytes that came further stay in the intake, for the next request.
//!
//! - [`read_front`], [`Front`]: the beginning of a connection's bytes
//! - [`decide`]: a whole [`Head`] and the length of its body, or why it is [`Refused`]
//! - [`read_next`], [`NextRequest`], [`Request`]: all of this together; [`one_reading`]: bytes can be read in one
//!   way only; [`later_bytes`]: bytes that come later change nothing of it
//! - [`Progress`]: whether bytes that come piece by piece hold a whole request yet; it looks at each byte once
//! - [`Head`]: the token, the number and the [`Action`] of a request, by its [`Routes`]
//! - [`Resource`]: the resource that a path names
//! - [`read_whole`]: so many bytes, or all if there are fewer
//! - [`Refusal`]: why a request isn't given to the bureau, with its [`Status`] and its text
//! - [`ReplyHead`], [`head_text`]: the head of a reply
//!
//! ```
//! use questions::Form;
//! use requests::{Action, NextRequest, Routes, read_next};
//! use transfer::{Intake, RETRIES};
//! let (routes, mut intake) = (Routes::new(alloc)?, Intake::new(alloc));
//! let mut reader: &[u8] = b"GET /zones HTTP/1.1\r\nbureau-token: alpha-token\r\n\r\n";
//! let NextRequest::Whole(request) = read_next(&mut intake, &mut reader, &mut { RETRIES })? else {
//!     return Err("a whole request".into());
//! };
//! assert_eq!(rt; request.token(intake.bytes()), Some(b"alpha-token".as_slice()));
//! assert_eq!(rt; request.action(intake.bytes(), &routes), Ok(Action::ListZones(Form::Text)));
//! request.take_off(&mut intake); // what comes after it is the next request
//! ```
#![tactic(auto)]

mod action;
mod front;
mod head;
mod head_end;
mod headers;
mod law;
mod next_request;
mod order;
mod place;
mod progress;
mod refusal;
mod reply;
mod request;
mod resource;
mod routes;
mod status;
mod text;

pub use action::Action;
pub use front::{Front, read_front, read_whole};
pub use head::Head;
pub use law::{later_bytes, one_reading};
pub use next_request::{NextRequest, Request, read_next};
pub use order::{Refused, decide};
pub use progress::Progress;
pub use refusal::Refusal;
pub use reply::{ReplyHead, head_text};
pub use resource::Resource;
pub use routes::Routes;
pub use status::Status;
