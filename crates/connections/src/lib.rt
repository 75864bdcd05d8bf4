//! Many connections beside one desk, as values: the bytes that came over each, the bytes that have to go out, and
//! when each request is answered.
//!
//! Nothing here reads or writes. The caller does, tells what happened, one [`Event`] after the other, in whatever
//! order, and writes what [`Connections::outgoing`] shows. So no connection waits for another.
//!
//! - [`Connections`]: the connections, each in its slot, and what bodies ([`Shares`]) and replies ([`Replies`]) take
//! - [`Event`]: what happens to one of them
//! - [`serve_events`]: goes through events in order; [`serve_event`]: serves one of them
//! - [`serve_rounds`]: serves the events of [`Rounds`], until all connections were served; [`Halt`]
//! - [`Turns`]: whose request is answered next: each caller has one turn before any has its second; [`Preview`]: whether a
//!   request ends in bytes that lie unread, and whose it is
//!
//! ```
//! use bureau::Bureau;
//! use bureau_store::{ListStore, callers};
//! use chains::Whole;
//! use connections::{Connections, Event, serve_events};
//! use requests::Routes;
//! let rows = callers(alloc, b"NAME,TOKEN\nPUBLISH,publisher-token\nALPHA,alpha-token\n")?;
//! let mut bureau = Bureau::new(alloc, ListStore::new(alloc, &rows)?, Whole::new());
//! let routes = Routes::new(alloc)?;
//! let mut connections = Connections::new(alloc, 2, 1 << 28)?; // 256 MiB beyond the heads
//! let half = Vec::from_slice(alloc, b"GET /zones HTTP/1.1\r\nbureau-token: ")?;
//! let rest = Vec::from_slice(alloc, b"alpha-token\r\n\r\n")?;
//! let mut events = Vec::new(alloc);
//! events.push(Event::Came(0))?;
//! events.push(Event::Bytes(0, half))?; // it waits, and keeps nobody waiting
//! events.push(Event::Bytes(0, rest))?;
//! serve_events(alloc, &mut bureau, &routes, &mut connections, events.as_slice());
//! assert!(rt; connections.outgoing(0).starts_with(b"HTTP/1.1 200 OK\r\n"));
//! ```
#![tactic(auto)]

mod connection;
mod event;
mod incoming;
mod outgoing;
mod preview;
mod replies;
mod rounds;
mod service;
mod serving;
mod shares;
mod slots;
mod turns;

pub use connection::{Connection, Phase};
pub use event::Event;
pub use incoming::Incoming;
pub use outgoing::Outgoing;
pub use preview::Preview;
pub use replies::Replies;
pub use rounds::{Halt, Round, RoundFault, Rounds, serve_rounds};
pub use serving::{serve_event, serve_events};
pub use shares::Shares;
pub use slots::Connections;
pub use turns::{Turns, fair_turns};
