//! The parts of a head: the length of its body, its number, and the action at its path.
ghost use Rattle.std.specs.Prelude.{◌≡◌, ◌≤◌, true, IfErr, IfOk, IsAscii, nat_lt, codes};
ghost use Rattle.std.specs.List.{list_all};
ghost use Rattle.requests.specs.Headers.{AreWithin, pairs_at, values};
ghost use Rattle.requests.specs.Refusal.{IsOfTarget};
ghost use Rattle.requests.specs.Request as Spec;

use crate::action::{Action, action_at};
use crate::headers::{has, sole};
use crate::refusal::Refusal;
use crate::routes::Routes;
use crate::text::{begins_with, is_number, number_up_to};
use httparse::spans::HeaderSpan;

// The longest body, in bytes.
const LONGEST_BODY: u64 = 67_108_864;

// The length of the body of a request with this method, this target and these fields, or why the request is refused
// without one.
pub(crate) fn body_len(
    method: &[u8],
    target: &[u8],
    bytes: &[u8],
    fields: &[HeaderSpan],
) -> Result<u64, Refusal>
    requires { AreWithin bytes.now fields.now }
    ensures length { result ≡ Spec.body_len method.now target.now (pairs_at bytes.now fields.now) }
    ensures path { IfOk result (λ n. Spec.is_path target.now ≡ true) }
    ensures bound { IfOk result (λ n. n ≤ 67108864) }
{
    if !is_path(target) {
        return Err(Refusal::BadRequest);
    }
    if has(bytes, fields, b"transfer-encoding") {
        return Err(Refusal::LengthRequired);
    }
    content_length(bytes, fields, method)
}

// Whether a target has the form of a path, in ASCII.
fn is_path(target: &[u8]) -> bool
    ensures { result ≡ Spec.is_path target.now }
{
    begins_with(target, b'/') && are_ascii(target)
}

fn are_ascii(text: &[u8]) -> bool
    ensures { result ≡ list_all (λ b. nat_lt b 128) text.now }
{
    text.iter().all(|b| *b < 128)
}

// The length of a body by `content-length`.
fn content_length(bytes: &[u8], fields: &[HeaderSpan], method: &[u8]) -> Result<u64, Refusal>
    requires { AreWithin bytes.now fields.now }
    ensures length { result
        ≡ Spec.length_by method.now (values (codes "content-length") (pairs_at bytes.now fields.now)) }
    ensures bound { IfOk result (λ n. n ≤ 67108864) }
{
    match sole(bytes, fields, b"content-length") {
        Some(value) => length_in(value.of(bytes)),
        None if has(bytes, fields, b"content-length") => Err(Refusal::BadRequest),
        None => length_without(method),
    }
}

// The length of a body, by the value of `content-length`.
fn length_in(value: &[u8]) -> Result<u64, Refusal>
    ensures length { result ≡ Spec.length_told value.now }
    ensures bound { IfOk result (λ n. n ≤ 67108864) }
{
    if !is_number(value) {
        return Err(Refusal::BadRequest);
    }
    let length = number_up_to(value, LONGEST_BODY + 1);
    if length <= LONGEST_BODY {
        Ok(length)
    } else {
        Err(Refusal::TooLarge)
    }
}

// The length of a body without a `content-length`.
fn length_without(method: &[u8]) -> Result<u64, Refusal>
    ensures length { result ≡ Spec.length_untold method.now }
    ensures bound { IfOk result (λ n. n ≤ 67108864) }
{
    if method == b"POST".as_slice() || method == b"PUT".as_slice() {
        Err(Refusal::LengthRequired)
    } else {
        Ok(0)
    }
}

// The number that 1 to 19 digits write.
pub(crate) fn change_number(text: &[u8]) -> Option<u64>
    ensures { result ≡ Spec.change_number text.now }
{
    if is_number(text) && text.len() <= 19 {
        Some(number_up_to(text, u64::MAX))
    } else {
        None
    }
}

// The action of a method at a path.
pub(crate) fn action_by(routes: &Routes, method: &[u8], path: &str) -> Result<Action, Refusal>
    requires { IsAscii path.now }
    ensures action { result ≡ Spec.asked method.now path.now }
    ensures refused { IfErr result IsOfTarget }
{
    let Some(place) = routes.place(path) else {
        return Err(Refusal::NotFound);
    };
    if !place.resource.takes(method) {
        return Err(Refusal::MethodNotAllowed(place.resource));
    }
    action_at(place.resource, method, place.zone, place.sysmod).ok_or(Refusal::NotFound)
}
