//! An answer to a caller, as the lines of a row.
use bureau::Reply;
use std::alloc::Global;
use std::str;
use std::test::Fail;

/// The status and the lines of the body, each with its end. JSON has none of its own, and all else has one.
pub(crate) fn lines_of(alloc: Global, reply: &Reply) -> Result<String, Fail> {
    let body = str::from_utf8(reply.body.as_slice()).map_err(|_| "a text")?;
    let end = if is_right(reply.json, body) {
        ""
    } else {
        "which is not of its kind\n"
    };
    let status = reply.status;
    let text = if body.ends_with('\n') {
        format!(in alloc; "{status}\n{body}{end}")?
    } else {
        format!(in alloc; "{status}\n{body}\n{end}")?
    };
    Ok(text)
}

// Whether a body is called JSON exactly if it is, and ends as its kind does.
fn is_right(is_json: bool, body: &str) -> bool {
    is_json == body.starts_with('{') && (body.is_empty() || is_json != body.ends_with('\n'))
}
