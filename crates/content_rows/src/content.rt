//! The state of a case: what is published, a cache of it, and a zone.
use bureau_store::ListStore;
use chain_cache::ChainCache;
use failing_store::FailingStore;
use mcs_reader::Id;
use std::alloc::Global;
use std::hash::RandomState;
use std::test::Fail;
use supersede::Zone;
use zone_lists::{Pattern, zone_rows};

pub(crate) struct Content {
    keys: RandomState,
    pub source: FailingStore,
    pub cache: ChainCache,
    pub zone: Zone,
    pub patterns: Vec<Pattern>,
}

// By hand, so that a function that owns one drops it by one call.
impl Drop for Content {
    fn drop(self) {
        let Content {
            keys: _,
            source,
            cache,
            zone,
            patterns,
        } = self;
        drop(source);
        drop(cache);
        drop(zone);
        drop(patterns);
    }
}

/// The id with a text.
pub(crate) fn id_of(text: &str) -> Result<Id, Fail> {
    Ok(Id::new(text.as_bytes()).ok_or("no id")?)
}

/// The zone that a client's list makes, after its header.
pub(crate) fn zone_of(alloc: Global, rows: &str) -> Result<Zone, Fail> {
    let mut list = String::from_str(alloc, "SYSMOD,STATE\n")?;
    list.push_str(rows)?;
    let rows = zone_rows(alloc, list.as_bytes())?;
    Ok(Zone::new(alloc, &rows)?)
}

fn nothing(alloc: Global) -> Result<FailingStore, Fail> {
    Ok(FailingStore::new(ListStore::new(alloc, &[])?, u64::MAX))
}

fn cache_of(alloc: Global, frames: u32, keys: RandomState) -> Result<ChainCache, Fail> {
    if frames < 1 || frames > 65_536 {
        return Err(Fail::from("room for 1 to 65536 frames"));
    }
    Ok(ChainCache::new(alloc, frames, keys)?)
}

impl Content {
    /// Nothing is published, nothing is kept, and the zone is empty.
    pub fn new(alloc: Global, keys: RandomState) -> Result<Content, Fail> {
        let zone = zone_of(alloc, "")?;
        let source = nothing(alloc)?;
        let cache = cache_of(alloc, 16, keys)?;
        Ok(Content {
            keys,
            source,
            cache,
            zone,
            patterns: Vec::new(alloc),
        })
    }

    /// Makes it as it was at first.
    pub fn clear(&mut self, alloc: Global) -> Result<(), Fail> {
        self.source = nothing(alloc)?;
        self.zone = zone_of(alloc, "")?;
        self.patterns.clear();
        self.make_room(alloc, 16)
    }

    /// From now on the source answers so many calls.
    pub fn answer(&mut self, calls: u64) {
        self.source.left = calls;
        self.source.failures = 0;
    }

    /// Keeps nothing, with room for so many frames.
    pub fn make_room(&mut self, alloc: Global, frames: u32) -> Result<(), Fail> {
        self.cache = cache_of(alloc, frames, self.keys)?;
        Ok(())
    }
}
