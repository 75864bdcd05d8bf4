//! The store: the published content, and for each caller what that caller sent.
//!
//! - [`Store`]: how every layer above keeps and reads all of it, in lists or in a file
//! - [`Effect`]: what a change does to the tables
//! - [`ListStore`]: the store in lists
//! - [`Caller`], [`CallerRow`], [`Token`]: who calls, and the token that identifies a caller
//! - [`callers`]: reads the callers file; [`CALLER_RECORDS`]: the most callers that it may have
//! - [`callers_that_change`]: the callers that come and that are gone with another file; [`CallerCounts`]: the
//!   numbers of them
//! - [`StoreFault`], [`CallerFault`]: why a store or a callers file is refused; [`NoMemory`]: memory ran out
//!
//! ```
//! use bureau_store::{Caller, ListStore, Store, callers};
//! use mcs_reader::Id;
//! use zone_lists::zone_rows;
//! let rows = callers(alloc, b"NAME,TOKEN\nPUBLISH,publisher-token\nALPHA,alpha-token\n")?;
//! let mut store = ListStore::new(alloc, &rows)?;
//! let (alpha, zone) = (Id::new(b"ALPHA").ok_or("an id")?, Id::new(b"TGT1").ok_or("an id")?);
//! assert_eq!(rt; store.caller_of(b"alpha-token")?, Some(Caller::Client(alpha)));
//! let sysmods = zone_rows(alloc, b"SYSMOD,STATE\nHBB77E0,APPLIED\nUJ90101,APPLIED\n")?;
//! store.put_zone(&alpha, 1, b"ZONE TGT1 ROWS 2\n", &zone, &sysmods)?; // change 1, with its reply
//! assert_eq!(rt; store.zones(&alpha)?.as_slice(), [(zone, 2)].as_slice());
//! let (number, reply) = store.last(&Caller::Client(alpha))?;
//! assert!(rt; number == 1 && reply.as_slice() == b"ZONE TGT1 ROWS 2\n".as_slice());
//! ```
#![tactic(auto)]

mod by_token;
mod caller;
mod callers_file;
mod clients;
mod effect;
mod fault;
mod held;
mod kept;
mod list_store;
mod set_callers;
mod store;

pub use caller::{Caller, CallerRow, Token};
pub use callers_file::{CALLER_RECORDS, callers};
pub use effect::Effect;
pub use fault::{CallerFault, StoreFault};
pub use faults::NoMemory;
pub use list_store::ListStore;
pub use set_callers::{CallerCounts, callers_that_change};
pub use store::Store;
