//! The header fields of a request.
ghost use Rattle.std.specs.Prelude.{◌≡◌, length, option_map, IfSome};
ghost use Rattle.std.specs.List.{list_any};
ghost use Rattle.requests.specs.Headers as Spec;
ghost use Rattle.requests.specs.Headers.{AreWithin, pairs_at};
ghost use Rattle.httparse.specs.Spans.{header_bytes, span_bytes, IsHeaderWithin, IsWithin};

use crate::text::has_word;
use httparse::spans::{HeaderSpan, Span};

// The span of the value of the field with this name, if just one field has it.
pub(crate) fn sole(bytes: &[u8], fields: &[HeaderSpan], name: &[u8]) -> Option<Span>
    requires { AreWithin bytes.now fields.now }
    ensures value { option_map (span_bytes bytes.now) result
        ≡ Spec.sole_value name.now (pairs_at bytes.now fields.now) }
    ensures within { IfSome result (IsWithin (length bytes.now)) }
{
    let mut found = None;
    for field in fields {
        if is_named(bytes, *field, name) {
            if found.is_some() {
                return None;
            }
            found = Some(field.value);
        }
    }
    found
}

// Whether a field has this name.
pub(crate) fn has(bytes: &[u8], fields: &[HeaderSpan], name: &[u8]) -> bool
    requires { AreWithin bytes.now fields.now }
    ensures { result ≡ Spec.has name.now (pairs_at bytes.now fields.now) }
{
    for field in fields {
        if is_named(bytes, *field, name) {
            return true;
        }
    }
    false
}

// Whether a field asks to close the connection.
pub(crate) fn asks_to_close(bytes: &[u8], fields: &[HeaderSpan]) -> bool
    requires { AreWithin bytes.now fields.now }
    ensures { result ≡ list_any Spec.asks_to_close (pairs_at bytes.now fields.now) }
{
    for field in fields {
        if closes(bytes, *field) {
            return true;
        }
    }
    false
}

fn closes(bytes: &[u8], field: HeaderSpan) -> bool
    requires { IsHeaderWithin (length bytes.now) field }
    ensures { result ≡ Spec.asks_to_close (header_bytes bytes.now field) }
{
    is_named(bytes, field, b"connection") && has_word(field.value.of(bytes), b"close")
}

fn is_named(bytes: &[u8], field: HeaderSpan, name: &[u8]) -> bool
    requires { IsHeaderWithin (length bytes.now) field }
    ensures { result ≡ Spec.is_named name.now (header_bytes bytes.now field) }
{
    field.name.of(bytes).eq_ignore_ascii_case(name)
}
