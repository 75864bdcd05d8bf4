//! Frames that are kept, so that a chain needs no walk over the catalogue. All callers share one bounded cache of
//! them: a frame names no zone and no client. If frames are large, the cache keeps surveys of zones instead.
//!
//! - [`ChainCache`]: judges from the frames that it keeps, the one used last first, and from surveys
//!
//! ```
//! // what isn't named here is of catalogue, mcs_reader, supersede, zone_lists and std::hash
//! use chain_cache::ChainCache;
//! use chains::{Judge, Status};
//! let (mut lists, fix) = (ListPublished::new(alloc), Id::new(b"UJ90101").ok_or("an id")?);
//! let mut cache = ChainCache::new(alloc, 1_024, RandomState::new(&rt)?)?;
//! let changes = read_changes(alloc, &read(alloc, b"++PTF(UJ90101).\n++VER(Z038) FMID(HBB77E0).\n")?)?;
//! let ids = touched(alloc, &mut lists, &changes)?;
//! <ChainCache as Judge<ListPublished>>::drop_touched(&mut cache, &ids); // before the publication
//! lists.publish(&changes)?;
//! let zone = Zone::from_rows(zone_rows(alloc, b"SYSMOD,STATE\nHBB77E0,APPLIED\n")?);
//! assert_eq!(rt; cache.verdict(alloc, &mut lists, &zone, &fix)?.status(), Status::Good);
//! assert_eq!(rt; cache.built(), 1); // the frame of UJ90101, which serves other zones too
//! ```
#![tactic(auto)]

mod cache;
mod dropping;
mod kept_surveys;
mod many;
mod surveys;

pub use cache::ChainCache;
