//! Dropping frames that a publication touches.
ghost use Rattle.std.specs.Prelude.{◌≡◌, ◌++◌, ◌∷◌, ℕ, List, [], IfSome, option_map, true};
ghost use Rattle.std.specs.List.{IsDistinct};
ghost use Rattle.std.specs.Map.{keys_of};
ghost use Rattle.catalogue.specs.Ids.{Ascend, same_id};
ghost use Rattle.chains.specs.Frames.{FrameLists, shares};
ghost use Rattle.lru.specs.LruCache.{last_entry, lru_cache};
ghost use Rattle.chain_cache.specs.Cache.{untouched};

use crate::cache::Frames;
use chains::touches;
use mcs_reader::Id;
use verdicts::do_ascend;

/// Takes out the frames that have one of these ids. The others stay, in their order.
pub(crate) fn drop_among(frames: &mut Frames, ids: &[Id])
    ensures { frames.new ≡ lru_cache (untouched ids.now frames.old.entries) frames.old.cap }
{
    let ascending = do_ascend(ids);
    for _ in 0..frames.len() {
        turn(frames, ids, ascending);
    }
}

// Removes the last frame if it has one of these ids, and else puts it first.
fn turn(frames: &mut Frames, ids: &[Id], ascending: bool)
    requires { ascending ≡ true → Ascend ids.now }
    ensures cap { frames.new.cap ≡ frames.old.cap }
    ensures entries { (others : List (List ℕ × FrameLists)) (last : List ℕ × FrameLists)
        → frames.old.entries ≡ others ++ last ∷ []
        → frames.new.entries ≡ untouched ids.now (last ∷ []) ++ others }
{
    if is_last_touched(frames, ids, ascending) {
        drop(frames.pop_lru());
    } else if let Some(id) = last_id(frames) {
        frames.promote(&id);
    }
}

// Whether the last frame has one of these ids.
fn is_last_touched(frames: &Frames, ids: &[Id], ascending: bool) -> bool
    requires { ascending ≡ true → Ascend ids.now }
    ensures { IfSome (last_entry frames.now.entries) (λ last. result ≡ shares ids.now last.1) }
{
    match frames.peek_lru() {
        Some((_, frame)) => touches(frame, ids, ascending),
        None => false,
    }
}

// The id of the last frame. No two frames have one id.
fn last_id(frames: &Frames) -> Option<Id>
    ensures last { result ≡ option_map (λ last. last.0) (last_entry frames.now.entries) }
    ensures distinct { IsDistinct same_id (keys_of frames.now.entries) }
{
    if frames.len() == 0 {
        return None;
    }
    match frames.peek_lru() {
        Some((id, _)) => Some(*id),
        None => None,
    }
}
