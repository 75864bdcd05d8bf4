//! The fields of the columns.
ghost use Rattle.std.specs.Prelude.{◌≡◌, None, IfOk, codes, map};
ghost use Rattle.mcs_reader.specs.Bytes.{bytes_of_each};
ghost use Rattle.mcs_reader.specs.Id.{text_of};
ghost use Rattle.plan_reports.specs.Tables as Spec;

use blocked_needs::BlockedNeed;
use faults::NoMemory;
use holddata::join_with_commas;
use mcs_reader::Id;
use std::alloc::Global;
use zone_plans::{ChosenResolver, HoldOn};

// The text for an absent field.
const ABSENT: &[u8] = b"-";

/// The text for an absent field, beside an id.
pub(crate) fn dash(_: &Id) -> &[u8]
    ensures { result.now ≡ codes "-" }
{
    ABSENT
}

/// A text as it stands.
pub(crate) fn whole(text: &[u8]) -> &[u8]
    ensures { result.now ≡ text.now }
{
    text
}

pub(crate) fn received_field(received: &bool) -> &[u8]
    ensures { result.now ≡ Spec.received_field received.now }
{
    match *received {
        true => b"YES",
        false => b"NO",
    }
}

/// Ids with commas between, or a dash if there is none.
pub(crate) fn list_field(alloc: Global, ids: &[Id]) -> Result<Vec<u8>, NoMemory>
    ensures { IfOk result (λ field. field.items ≡ Spec.list_field ids.now) }
{
    if ids.is_empty() {
        return Vec::from_slice(alloc, ABSENT);
    }
    let texts = texts_of(alloc, ids)?;
    join_with_commas(alloc, &texts)
}

fn texts_of(alloc: Global, ids: &[Id]) -> Result<Vec<&[u8]>, NoMemory>
    ensures { IfOk result (λ texts. bytes_of_each texts.items ≡ map text_of ids.now) }
{
    let mut texts = Vec::with_capacity(alloc, ids.len())?;
    for id in ids {
        texts.push(id.as_bytes())?;
    }
    Ok(texts)
}

pub(crate) fn hold_fields(hold: &HoldOn) -> [&[u8]; 2]
    ensures { bytes_of_each result ≡ Spec.hold_fields hold.now }
{
    [hold.sysmod.as_bytes(), hold.reason.as_bytes()]
}

pub(crate) fn held_fields(one: &ChosenResolver) -> [&[u8]; 3]
    ensures { bytes_of_each result ≡ Spec.held_fields one.now }
{
    [
        one.hold.sysmod.as_bytes(),
        one.hold.reason.as_bytes(),
        one.resolver.as_bytes(),
    ]
}

pub(crate) fn blocked_fields(one: &BlockedNeed) -> [&[u8]; 3]
    ensures { bytes_of_each result ≡ Spec.blocked_fields one.now }
{
    [
        one.sysmod.as_bytes(),
        one.need.as_bytes(),
        giver_field(&one.giver, &one.published),
    ]
}

fn giver_field<'a>(giver: &'a Option<Id>, published: &'a bool) -> &'a [u8]
    ensures { result.now ≡ Spec.giver_field giver.now published.now }
{
    match giver {
        Some(id) => id.as_bytes(),
        None => no_giver(published),
    }
}

fn no_giver(published: &bool) -> &[u8]
    ensures { result.now ≡ Spec.giver_field None published.now }
{
    match *published {
        true => b"- NOT APPLICABLE -",
        false => b"- NOT PUBLISHED -",
    }
}
