//! Requests of callers and their replies, as they stand on a connection.
use std::alloc::Global;
use std::test::Fail;

/// A request as a caller sends it: the token, the request's first words, its lines but for the token and the
/// length, its body.
pub type Asked = (&'static str, &'static str, &'static str, &'static str);

/// The reply that is written to it: the status, the lines after the length, the body. Without a status nothing is
/// written.
pub type Told = (&'static str, &'static str, &'static str);

/// A request with its reply.
pub type Exchange = (Asked, Told);

/// The publisher's token.
pub const PUBLISHER: &str = "publisher-token";

/// A client's token.
pub const ALPHA: &str = "alpha-token";

/// Another client's token.
pub const BETA: &str = "beta-token";

/// The line of a caller's first change.
pub const FIRST: &str = "bureau-number: 1\r\n";

/// The line of a caller's second change.
pub const SECOND: &str = "bureau-number: 2\r\n";

/// The status of a request that is answered or done.
pub const OK: &str = "200 OK";

/// The bytes of a request.
///
/// # Errors
///
/// A failure if memory ran out.
pub fn request_text(alloc: Global, asked: Asked) -> Result<String, Fail> {
    let (token, first, lines, body) = asked;
    Ok(format!(in alloc;
        "{first} HTTP/1.1\r\nbureau-token: {token}\r\n{lines}content-length: {}\r\n\r\n{body}",
        body.len()
    )?)
}

/// The bytes of the reply to it.
///
/// # Errors
///
/// A failure if memory ran out.
pub fn reply_text(alloc: Global, exchange: Exchange) -> Result<String, Fail> {
    let ((_, first, _, _), (status, lines, body)) = exchange;
    if status.is_empty() {
        return Ok(String::new(alloc));
    }
    let kind = if body.starts_with("{") {
        "application/json"
    } else {
        "text/plain"
    };
    let written = if first.starts_with("HEAD") { "" } else { body };
    Ok(format!(in alloc;
        "HTTP/1.1 {status}\r\ncontent-type: {kind}\r\ncontent-length: {}\r\n{lines}\r\n{written}",
        body.len()
    )?)
}
