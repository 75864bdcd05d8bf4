//! The judges of a desk: over the whole catalogue, or from frames that are kept.
use chain_cache::ChainCache;
use chains::Whole;
use failing_store::FailingStore;
use std::alloc::Global;
use std::hash::RandomState;
use std::test::Fail;
use verdicts::Judge;

/// A judge of a desk.
pub(crate) trait Judged: Judge<FailingStore> + Drop {
    /// A judge that has kept nothing, with room for so many frames.
    fn fresh(alloc: Global, keys: RandomState, room: u32) -> Result<Self, Fail>;

    /// The number of frames that were built.
    fn built(&self) -> u64;

    /// The number of frames that are kept.
    fn kept(&self) -> usize;
}

impl Judged for Whole {
    fn fresh(_alloc: Global, _keys: RandomState, _room: u32) -> Result<Whole, Fail> {
        Ok(Whole::new())
    }

    fn built(&self) -> u64 {
        0
    }

    fn kept(&self) -> usize {
        0
    }
}

impl Judged for ChainCache {
    fn fresh(alloc: Global, keys: RandomState, room: u32) -> Result<ChainCache, Fail> {
        Ok(ChainCache::new(alloc, room.clamp(1, 65_536), keys)?)
    }

    fn built(&self) -> u64 {
        ChainCache::built(self)
    }

    fn kept(&self) -> usize {
        self.iter().count()
    }
}
