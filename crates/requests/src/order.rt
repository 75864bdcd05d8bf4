//! Deciding on a whole head, in the order of the checks.
ghost use Rattle.std.specs.Prelude.{◌≡◌, ◌<◌, ◌≤◌, true, length, IfNone, IfOk, IfSome};
ghost use Rattle.httparse.specs.Spans.{IsRequestOf, IsRequestWithin, IsWithin, span_bytes};
ghost use Rattle.requests.specs.Head.{IsNoHead, LiesIn, parts_at};
ghost use Rattle.requests.specs.HeadEnd as HeadEnd;
ghost use Rattle.requests.specs.Headers.{AreWithin, pairs_at};
ghost use Rattle.requests.specs.Order.{IsDecided, by_parts, decision_of};
ghost use Rattle.requests.specs.Request.{is_path, parts_by};
ghost use Rattle.requests.specs.declared.refusal.Refusal.TheVariants as refusal;

use crate::head::Head;
use crate::head_end::lines_between;
use crate::headers::{asks_to_close, sole};
use crate::refusal::Refusal;
use crate::request::body_len;
use httparse::Status;
use httparse::spans::{EMPTY_HEADER_SPAN, HeaderSpan, RequestSpans, parse_request};

// The most fields that a head may have.
const MOST_FIELDS: usize = 64;

/// Why a request is refused before its body is read.
#[derive(Clone, Copy, Debug, PartialEq, Eq)]
pub struct Refused {
    /// The reason.
    pub refusal: Refusal,
    /// The reply has no body, since only its head was asked for.
    pub is_bare: bool,
}

/// Reads a whole head, from its empty lines to its blank line, and finds the length of the body after it.
///
/// # Errors
///
/// The first of these: over 64 lines between the first and the blank one; no head of HTTP's grammar; a target that
/// is no path; a body in chunks, without a length, with one that doesn't read, or one over the limit.
pub fn decide(bytes: &[u8]) -> Result<(Head, u64), Refused>
    ensures decided { IsDecided bytes.now (decision_of bytes.now result) }
    ensures within { IfOk result (λ ready. LiesIn bytes.now ready.0) }
    ensures bound { IfOk result (λ ready. ready.1 ≤ 67108864) }
    ensures path { IfOk result (λ ready. is_path (parts_at bytes.now ready.0).target ≡ true) }
{
    let mut fields = [EMPTY_HEADER_SPAN; MOST_FIELDS];
    let Some(spans) = whole_head(bytes, &mut fields) else {
        return Err(Refused {
            refusal: unread(bytes),
            is_bare: false,
        });
    };
    let (fields, _) = fields.split_at(spans.headers);
    decide_by(bytes, &spans, fields)
}

// The spans of a head that is as long as its bytes. `None` if they are no head, or one with more than 64 fields.
fn whole_head(bytes: &[u8], fields: &mut [HeaderSpan]) -> Option<RequestSpans>
    requires { length fields.old ≡ 64 }
    ensures read { IfSome result (IsRequestOf bytes.now fields.new) }
    ensures whole { IfSome result (λ spans. spans.len ≡ length bytes.now) }
    ensures within { IfSome result (IsRequestWithin bytes.now fields.new) }
    ensures none { IfNone result (HeadEnd.lines_between bytes.now ≤ 64 → IsNoHead bytes.now) }
{
    match parse_request(bytes, fields) {
        Ok(Status::Complete(spans)) if spans.len == bytes.len() => Some(spans),
        _ => None,
    }
}

// The refusal of a head that can't be read. One that can has a line for each field, so its lines are not counted.
fn unread(bytes: &[u8]) -> Refusal
    ensures many { 64 < HeadEnd.lines_between bytes.now → result ≡ refusal.HeadTooLarge }
    ensures few { HeadEnd.lines_between bytes.now ≤ 64 → result ≡ refusal.BadRequest }
{
    if lines_between(bytes) > 64 {
        Refusal::HeadTooLarge
    } else {
        Refusal::BadRequest
    }
}

// The decision on a head with these spans and these fields.
fn decide_by(
    bytes: &[u8],
    spans: &RequestSpans,
    fields: &[HeaderSpan],
) -> Result<(Head, u64), Refused>
    requires method { IsWithin (length bytes.now) spans.now.method }
    requires target { IsWithin (length bytes.now) spans.now.path }
    requires fields { AreWithin bytes.now fields.now }
    ensures decided { decision_of bytes.now result
        ≡ by_parts (span_bytes bytes.now spans.now.method) (span_bytes bytes.now spans.now.path)
        spans.now.version (pairs_at bytes.now fields.now) }
    ensures within { IfOk result (λ ready. LiesIn bytes.now ready.0) }
    ensures bound { IfOk result (λ ready. ready.1 ≤ 67108864) }
    ensures path { IfOk result (λ ready. is_path (parts_at bytes.now ready.0).target ≡ true) }
{
    let method = spans.method.of(bytes);
    match body_len(method, spans.path.of(bytes), bytes, fields) {
        Ok(length) => Ok((head_by(bytes, spans, fields), length)),
        Err(refusal) => Err(Refused {
            refusal,
            is_bare: method == b"HEAD".as_slice(),
        }),
    }
}

// The spans of the parts of a head with these spans and these fields.
fn head_by(bytes: &[u8], spans: &RequestSpans, fields: &[HeaderSpan]) -> Head
    requires method { IsWithin (length bytes.now) spans.now.method }
    requires target { IsWithin (length bytes.now) spans.now.path }
    requires fields { AreWithin bytes.now fields.now }
    ensures method { result.method ≡ spans.now.method }
    ensures target { result.target ≡ spans.now.path }
    ensures parts { parts_at bytes.now result
        ≡ parts_by (span_bytes bytes.now spans.now.method) (span_bytes bytes.now spans.now.path)
        spans.now.version (pairs_at bytes.now fields.now) }
    ensures within { LiesIn bytes.now result }
{
    Head {
        method: spans.method,
        target: spans.path,
        token: sole(bytes, fields, b"bureau-token"),
        number: sole(bytes, fields, b"bureau-number"),
        closes: spans.version == 0 || asks_to_close(bytes, fields),
    }
}
