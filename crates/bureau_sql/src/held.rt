//! The holds on the SYSMODs of a zone, among all holds.
ghost use Rattle.std.specs.Prelude.{◌≡◌, ◌==◌, ◌&&◌, IfOk, filter};
ghost use Rattle.holddata.specs.HoldBook.{IsInKeyOrder};
ghost use Rattle.holddata.specs.HoldKey.{kind_order};
ghost use Rattle.zone_lists.specs.Installed.{is_installed};

use faults::NoMemory;
use holddata::{Hold, Kind};
use std::alloc::Global;
use supersede::Zone;

/// The holds of a kind on SYSMODs that are installed in a zone, in the order of their keys.
pub(crate) fn held_among(
    alloc: Global,
    book: &[Hold],
    zone: &Zone,
    kind: Kind,
) -> Result<Vec<Hold>, NoMemory>
    requires { IsInKeyOrder book.now }
    ensures holds { IfOk result (λ held. held.items
        ≡ filter (λ hold. is_installed zone.now hold.key.sysmod
        && (kind_order hold.key.kind == kind_order kind)) book.now) }
    ensures in_key_order { IfOk result (λ held. IsInKeyOrder held.items) }
{
    let mut held = Vec::new(alloc);
    for hold in book {
        if is_held(hold, zone, kind) {
            held.push(hold.copy()?)?;
        }
    }
    Ok(held)
}

// Whether a hold is of a kind, and on a SYSMOD that is installed in a zone.
fn is_held(hold: &Hold, zone: &Zone, kind: Kind) -> bool
    ensures { result ≡ (is_installed zone.now hold.now.key.sysmod
        && (kind_order hold.now.key.kind == kind_order kind)) }
{
    hold.key.kind == kind && zone.installed(&hold.key.sysmod)
}
