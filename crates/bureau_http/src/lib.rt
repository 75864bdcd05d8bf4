//! The desk over connections: from the bytes that come in to the bytes that go out (RFC 9112).
//!
//! - [`Desk`]: answers calls
//! - [`serve_one`]: serves one connection, to its end; [`Served`], [`ConnFault`]
//! - [`serve_next`]: serves the next request of a connection; [`Step`], with what the log notes of it;
//!   [`Retries`]
//! - [`serve_list`]: serves connections in memory, one after the other; [`RunFault`]
//! - [`replay`]: does the same over a store in memory that begins with the callers of a file, with any
//!   judge
//! - [`one_connection`]: a law: a connection's bytes are requests and a stop in one way only
//!
//! ```
//! use bureau::Bureau;
//! use bureau_http::serve_one;
//! use bureau_store::{ListStore, callers};
//! use chains::Whole;
//! let rows = callers(alloc, b"NAME,TOKEN\nPUBLISH,publisher-token\nALPHA,alpha-token\n")?;
//! let mut bureau = Bureau::new(alloc, ListStore::new(alloc, &rows)?, Whole::new()); // a Desk
//! let mut reader: &[u8] = b"POST /publish HTTP/1.1\r\nbureau-token: publisher-token\r\n\
//! bureau-number: 1\r\ncontent-length: 53\r\n\r\n++HOLD(UJ90101) ERROR FMID(HBB77E0) REASON(AJ00001).\n";
//! let mut written = Vec::new(alloc);
//! let served = serve_one(alloc, &mut bureau, &mut reader, &mut written)?;
//! assert!(rt; served.requests == 1 && written.starts_with(b"HTTP/1.1 200 OK\r\n"));
//! assert!(rt; written.ends_with(b"\r\n\r\nACCEPTED SYSMODS 0 HOLDS 1 RELEASES 0\n"));
//! ```
#![tactic(auto)]

mod asking;
mod bureau_desk;
mod desk;
mod fault;
mod law;
mod list;
mod noting;
mod replaying;
mod reply;
mod serving;

pub use desk::Desk;
pub use fault::{ConnFault, RunFault};
pub use law::one_connection;
pub use list::serve_list;
pub use replaying::replay;
pub use serving::{Retries, Served, Step, serve_next, serve_one};
