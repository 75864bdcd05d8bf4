//! Single values of columns, on their way to the tables and back.
ghost use Rattle.std.specs.Prelude.{◌≡◌, option_map};
ghost use Rattle.sqlite_value.specs.Value.{owned};
ghost use Rattle.sql_tables.specs.Values as spec;

use catalogue::SysmodKind;
use holddata::{Date, Kind};
use mcs_reader::Id;
use sqlite::types::ValueRef;
use zone_lists::ZoneState;

/// The bytes of a text; none of any other value.
pub(crate) fn text_in<'a>(value: ValueRef<'a>) -> &'a [u8]
    ensures { result.now ≡ spec.text_in (owned value.entry) }
{
    match value {
        ValueRef::Text(text) => text,
        _ => b"",
    }
}

/// The bytes of a blob; `None` for any other value.
pub(crate) fn bytes_in<'a>(value: ValueRef<'a>) -> Option<&'a [u8]>
    ensures { option_map (λ bytes. bytes.now) result ≡ spec.bytes_in (owned value.entry) }
{
    match value {
        ValueRef::Blob(bytes) => Some(bytes),
        _ => None,
    }
}

/// The number, if it is at least 0.
pub(crate) fn number_in(value: ValueRef<'_>) -> Option<u64>
    ensures { result ≡ spec.number_in (owned value.entry) }
{
    match value {
        ValueRef::Int(number) => u64::try_from(number).ok(),
        _ => None,
    }
}

/// An id, as its text.
pub fn id_value(id: &Id) -> ValueRef<'_>
    ensures { owned result ≡ spec.id_value id.now }
{
    ValueRef::Text(id.as_bytes())
}

/// The id of a text, or `None` if the value is no id's text.
pub fn id_in(value: ValueRef<'_>) -> Option<Id>
    ensures { result ≡ spec.id_in (owned value.entry) }
{
    Id::new(text_in(value))
}

/// An id that may be absent: its text, or the empty text.
pub fn optional_id_value(id: &Option<Id>) -> ValueRef<'_>
    ensures { owned result ≡ spec.optional_id_value id.now }
{
    match id {
        Some(id) => id_value(id),
        None => ValueRef::Text(b""),
    }
}

/// The id of a text, `Some(None)` if the text is empty, or `None` for any other value.
pub fn optional_id_in(value: ValueRef<'_>) -> Option<Option<Id>>
    ensures { result ≡ spec.optional_id_in (owned value.entry) }
{
    match value {
        ValueRef::Text(b"") => Some(None),
        ValueRef::Text(text) => Some(Some(Id::new(text)?)),
        _ => None,
    }
}

/// A SYSMOD's kind as its number: 0 FUNCTION, 1 PTF, 2 APAR, 3 USERMOD.
pub fn sysmod_kind_value(kind: SysmodKind) -> ValueRef<'static>
    ensures { owned result ≡ spec.sysmod_kind_value kind }
{
    ValueRef::Int(match kind {
        SysmodKind::Func => 0,
        SysmodKind::Ptf => 1,
        SysmodKind::Apar => 2,
        SysmodKind::Usermod => 3,
    })
}

/// The kind of a SYSMOD with this number.
pub fn sysmod_kind_in(value: ValueRef<'_>) -> Option<SysmodKind>
    ensures { result ≡ spec.sysmod_kind_in (owned value.entry) }
{
    match number_in(value)? {
        0 => Some(SysmodKind::Func),
        1 => Some(SysmodKind::Ptf),
        2 => Some(SysmodKind::Apar),
        3 => Some(SysmodKind::Usermod),
        _ => None,
    }
}

/// A hold's kind as its number: 0 ERROR, 1 SYSTEM, 2 USER, 3 FIXCAT.
pub fn hold_kind_value(kind: Kind) -> ValueRef<'static>
    ensures { owned result ≡ spec.hold_kind_value kind }
{
    ValueRef::Int(match kind {
        Kind::ErrorHold => 0,
        Kind::SystemHold => 1,
        Kind::UserHold => 2,
        Kind::FixcatHold => 3,
    })
}

/// The kind of a hold with this number.
pub fn hold_kind_in(value: ValueRef<'_>) -> Option<Kind>
    ensures { result ≡ spec.hold_kind_in (owned value.entry) }
{
    match number_in(value)? {
        0 => Some(Kind::ErrorHold),
        1 => Some(Kind::SystemHold),
        2 => Some(Kind::UserHold),
        3 => Some(Kind::FixcatHold),
        _ => None,
    }
}

/// A state in a zone as its number: 0 APPLIED, 1 ACCEPTED, 2 SUPERSEDED.
pub fn state_value(state: ZoneState) -> ValueRef<'static>
    ensures { owned result ≡ spec.state_value state }
{
    ValueRef::Int(match state {
        ZoneState::Applied => 0,
        ZoneState::Accepted => 1,
        ZoneState::Superseded => 2,
    })
}

/// The state with this number.
pub fn state_in(value: ValueRef<'_>) -> Option<ZoneState>
    ensures { result ≡ spec.state_in (owned value.entry) }
{
    match number_in(value)? {
        0 => Some(ZoneState::Applied),
        1 => Some(ZoneState::Accepted),
        2 => Some(ZoneState::Superseded),
        _ => None,
    }
}

/// A date as its number yyddd, or -1 if there is none.
pub fn date_value(date: Option<Date>) -> ValueRef<'static>
    ensures { owned result ≡ spec.date_value date }
{
    ValueRef::Int(date.map_or(-1, |date| i64::from(date.number())))
}

/// The date of a number, `Some(None)` for -1, or `None` for any other value.
pub fn date_in(value: ValueRef<'_>) -> Option<Option<Date>>
    ensures { result ≡ spec.date_in (owned value.entry) }
{
    match value {
        ValueRef::Int(-1) => Some(None),
        ValueRef::Int(number) => Some(Some(Date::new(u32::try_from(number).ok()?)?)),
        _ => None,
    }
}
