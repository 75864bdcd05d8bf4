//! The bureau's store in a database.
//!
//! - [`init`], [`find_store`], [`migrate`]: make a store in the database of a connection, find one there, or bring it
//!   from version 1 to version 2. The connection is one of the kit's `sqlite`, and is borrowed
//! - [`SqlStore`]: the store of such a connection: [`SqlStore::over`], [`SqlStore::set_callers`],
//!   [`SqlStore::into_connection`]. It is a `Published` and a `Store`
//! - [`law`]: what an opening finds in the files of a store, and that callers of a callers file can be written
//!
//! `specs/` says how contracts look at such a store (`SqlView`), how it answers with what a connection gives (`Told`),
//! and what a change of it leaves (`Committed`). It says how a store is made (`Founded`), and why a connection isn't
//! taken for one (`Opening`). It says how a file of version 1 becomes one of version 2 (`Migrated`), and what the
//! files hold between two runs (`Files`).
//!
//! ```
//! use bureau_sql::{SqlStore, find_store, init};
//! use bureau_store::{Store, callers};
//! use catalogue::read_changes;
//! use mcs_reader::read;
//! use sqlite::Connection;
//! let rows = callers(alloc, b"NAME,TOKEN\nPUBLISH,publisher-token\nALPHA,alpha-token\n")?;
//! let mut conn = Connection::open_in_memory(alloc)?;
//! init(&mut conn, &rows)?;
//! let mut store = SqlStore::over(alloc, conn);
//! let hold = read(alloc, b"++HOLD(UJ90101) ERROR FMID(HBB77E0) REASON(AJ00001).\n")?;
//! store.publish(1, b"ACCEPTED SYSMODS 0 HOLDS 1 RELEASES 0\n", &read_changes(alloc, &hold)?)?;
//! let mut conn = store.into_connection();
//! find_store(&mut conn)?;
//! let mut store = SqlStore::over(alloc, conn);
//! assert_eq!(rt; store.counts()?, (0, 1)); // SYSMODs, holds
//! ```
#![tactic(auto)]

mod book;
mod changes;
mod commit;
mod finding;
mod fit;
mod held;
mod kept;
pub mod law;
mod making;
mod migrating;
mod probe;
mod published;
mod reads;
mod recent;
mod set_callers;
mod store;
mod tables;
mod zone_holds;

pub use finding::find_store;
pub use making::init;
pub use migrating::migrate;
pub use store::SqlStore;
