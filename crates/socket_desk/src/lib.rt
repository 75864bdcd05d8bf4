//! Connections over sockets that don't block, in one thread: up to so many are open at once, and none keeps another one
//! waiting.
//!
//! Bytes that come over a socket become an event of [`connections`], and the bytes shown there are written. So whatever
//! is promised of events in any order is true of whatever is read and written here. [`Patience`] says how long the desk
//! waits for a client.
//!
//! - [`SocketRounds`]: the sockets, each beside its connection, as the `Rounds` of a desk
//! - [`Patience`], [`Stage`]: the time that a connection may take at each stage
//! - [`LoopFault`]: why there are no sockets
//!
//! If a log is kept, it gets a line for each request, once its reply went out whole, and for each connection that
//! failed.
#![tactic(auto)]

mod accepting;
mod fault;
mod known;
mod lines;
mod log;
mod moment;
mod patience;
mod port;
mod rounds;
mod showing;
mod side;
mod sockets;
mod stream;
mod sweeping;
mod transfers;
mod visiting;
mod visits;

pub use fault::LoopFault;
pub use patience::{Patience, Stage};
pub use rounds::SocketRounds;
