//! The cache of frames that all callers of a desk share.
ghost use Rattle.std.specs.Prelude.{◌≡◌, ◌≤◌, IfErr, IfOk};
ghost use Rattle.bureau_program.specs.Replay.{IsAlwaysRight};

use chain_cache::ChainCache;
use run_parts::ProgramFault;
use std::alloc::Global;
use std::hash::RandomState;

// The most frames for which a cache may have room.
const CAPACITY_MOST: u32 = 65_536;

/// An empty cache with room for so many frames, at least one and at most 65,536.
///
/// # Errors
///
/// `Memory` if memory ran out.
pub fn cache_of(alloc: Global, capacity: u32, keys: RandomState) -> Result<ChainCache, ProgramFault>
    ensures right { IfOk result IsAlwaysRight }
    ensures room { 1 ≤ capacity → capacity ≤ 65536 → IfOk result (λ cache. cache.capacity ≡ capacity) }
    ensures fault { IfErr result (λ fault. fault ≡ ProgramFault.Memory) }
{
    let capacity = capacity.clamp(1, CAPACITY_MOST);
    Ok(ChainCache::new(alloc, capacity, keys)?)
}
