//! The key by which the book's map keeps a hold.
ghost use Rattle.std.specs.Prelude.{◌≡◌};
ghost use Rattle.holddata.specs.SortKey.{rank_of, sort_key_of, before_all, after_all};

use crate::{HoldKey, Kind};
use mcs_reader::Id;

/// The place of a hold in a [`HoldBook`](crate::HoldBook), in the order of the keys. Callers meet this type
/// only in the name of the book's iterator.
#[derive(Clone, Copy, Debug, PartialEq, Eq, PartialOrd, Ord)]
pub struct SortKey {
    sysmod: Id,
    rank: Rank,
    reason: Id,
}

// The rank of a kind among the holds on one SYSMOD, and one before and one after all of them.
#[derive(Clone, Copy, Debug, PartialEq, Eq, PartialOrd, Ord)]
enum Rank {
    BeforeAll,
    ErrorHolds,
    SystemHolds,
    UserHolds,
    FixcatHolds,
    AfterAll,
}

/// The sort key of the hold with this key.
pub(crate) fn sort_key_of(key: &HoldKey) -> SortKey
    ensures { result ≡ sort_key_of key.now }
{
    SortKey {
        sysmod: key.sysmod,
        rank: rank_of(key.kind),
        reason: key.reason,
    }
}

fn rank_of(kind: Kind) -> Rank
    ensures { result ≡ rank_of kind }
{
    match kind {
        Kind::ErrorHold => Rank::ErrorHolds,
        Kind::SystemHold => Rank::SystemHolds,
        Kind::UserHold => Rank::UserHolds,
        Kind::FixcatHold => Rank::FixcatHolds,
    }
}

/// A sort key before and one after those of all holds on a SYSMOD.
pub(crate) fn sort_keys_around(sysmod: &Id) -> (SortKey, SortKey)
    ensures before { result.0 ≡ before_all sysmod.now }
    ensures after { result.1 ≡ after_all sysmod.now }
{
    let before = SortKey {
        sysmod: *sysmod,
        rank: Rank::BeforeAll,
        reason: *sysmod,
    };
    let after = SortKey {
        rank: Rank::AfterAll,
        ..before
    };
    (before, after)
}
