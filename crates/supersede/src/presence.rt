//! Whether a SYSMOD is there in a zone.
ghost use Rattle.std.specs.Prelude.{◌≡◌, ◌↔◌, ◌||◌, true};
ghost use Rattle.std.specs.List.{list_any};
ghost use Rattle.zone_lists.specs.Installed.{is_installed, is_listed};
ghost use Rattle.catalogue.specs.Content.{Content};
ghost use Rattle.supersede.specs.Giving.{givers_of, is_there};
ghost use Rattle.supersede.specs.Leading.{IsThere};

use crate::zone::Zone;
use mcs_reader::Id;

/// Whether a SYSMOD is there in a zone: it is listed in it, in whatever state, or an installed SYSMOD is the
/// same or supersedes it, itself or through others. `givers` are the catalogued SYSMODs that are the same or
/// supersede it so.
pub fn there(zone: &Zone, id: &Id, givers: &[Id]) -> bool
    ensures value { result
        ≡ (is_listed zone.now id.now || list_any (λ giver. is_installed zone.now giver) givers.now) }
    ensures there { (content : Content) → givers.now ≡ givers_of content id.now
        → result ≡ is_there content zone.now id.now }
    ensures leads { (content : Content) → givers.now ≡ givers_of content id.now
        → (result ≡ true) ↔ IsThere content zone.now id.now }
{
    zone.listed(id) || is_any_installed(zone, givers)
}

fn is_any_installed(zone: &Zone, ids: &[Id]) -> bool
    ensures { result ≡ list_any (λ id. is_installed zone.now id) ids.now }
{
    ids.iter().any(|id| zone.installed(id))
}
