//! Replies that no run of the program shows: those of a desk whose store fails, and a body that comes back as it is.
use super::echo::{TOKEN, request, served};
use std::test::Fail;
use testing::assert_equal_at;

const PUBLISH: &[u8] =
    b"bureau-token: publisher-token\r\nbureau-number: 1\r\ncontent-length: 5\r\n";

const UNKNOWN: &[u8] =
    b"HTTP/1.1 401 Unauthorized\r\ncontent-type: text/plain\r\ncontent-length: 14\r\nwww-authenticate: Bureau\r\n\r\nUNKNOWN TOKEN\n";

const CLOSED: &[u8] =
    b"HTTP/1.1 503 Service Unavailable\r\ncontent-type: text/plain\r\ncontent-length: 8\r\n\r\nNO ROOM\n";

const BODY: &[u8] =
    b"HTTP/1.1 200 OK\r\ncontent-type: text/plain\r\ncontent-length: 5\r\n\r\n12\r\n5";

// The first words, the lines and the body of a request, whether the desk is closed, and the reply.
type Row = (
    &'static [u8],
    &'static [u8],
    &'static [u8],
    bool,
    &'static [u8],
);

// A request without a token is refused before the store is asked.
static ROWS: [Row; 3] = [
    (b"GET /published", TOKEN, b"", true, CLOSED),
    (b"GET /published", b"", b"", true, UNKNOWN),
    (b"POST /publish", PUBLISH, b"12\r\n5", false, BODY),
];

#[test]
fn each_request_has_its_reply(rt: HostRuntime) -> Result<(), Fail> {
    for &(first, lines, body, is_closed, reply) in &ROWS {
        let text = request(rt.alloc(), first, lines, body)?;
        let (written, ended) = served(rt.alloc(), is_closed, text.as_slice())?;
        assert_equal_at(first, (written.as_slice(), ended), (reply, Ok(1)))?;
    }
    Ok(())
}
