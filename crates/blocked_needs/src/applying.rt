//! The SYSMODs that apply to a zone.
ghost use Rattle.std.specs.Prelude.{◌≡◌, IfOk, find};
ghost use Rattle.std.specs.List.{list_any};
ghost use Rattle.zone_lists.specs.Installed.{is_installed};
ghost use Rattle.catalogue.specs.View.{MayAsk, Tells};
ghost use Rattle.catalogue.specs.declared.fault.SourceFault.TheVariants.{Device};
ghost use Rattle.supersede.specs.Giving.{fmids_of, is_candidate};

use catalogue::{Published, SourceFault, Sysmod};
use mcs_reader::Id;
use supersede::Zone;

/// The first of some SYSMODs that applies to the zone.
pub(crate) fn first_that_applies<P: Published>(
    source: &mut P,
    zone: &Zone,
    ids: &[Id],
) -> Result<Option<Id>, SourceFault>
    ensures asks { MayAsk P.content_view Device source.old source.new result }
    ensures first { IfOk result (λ first. Tells P.content_view source.old source.new
        (λ content. first ≡ find (is_candidate content zone.now) ids.now)) }
{
    for id in ids {
        if applies(source, zone, id)? {
            return Ok(Some(*id));
        }
    }
    Ok(None)
}

fn applies<P: Published>(source: &mut P, zone: &Zone, id: &Id) -> Result<bool, SourceFault>
    ensures asks { MayAsk P.content_view Device source.old source.new result }
    ensures applies { IfOk result (λ applies. Tells P.content_view source.old source.new
        (λ content. applies ≡ is_candidate content zone.now id.now)) }
{
    let sysmod = source.sysmod(id)?;
    Ok(has_function(zone, &sysmod))
}

// Whether one of the functions to which a record applies is installed.
fn has_function(zone: &Zone, sysmod: &Option<Sysmod>) -> bool
    ensures { result ≡ list_any (λ fmid. is_installed zone.now fmid) (fmids_of sysmod.now) }
{
    match sysmod {
        Some(sysmod) => is_any_installed(zone, sysmod.fmids.as_slice()),
        None => false,
    }
}

fn is_any_installed(zone: &Zone, ids: &[Id]) -> bool
    ensures { result ≡ list_any (λ id. is_installed zone.now id) ids.now }
{
    ids.iter().any(|id| zone.installed(id))
}
