//! Replies: a status, and a body that is plain text or JSON.
ghost use Rattle.std.specs.Prelude.{◌≡◌, [], Some, IfOk};
ghost use Rattle.bureau.specs.Outcome.{as_json, forbidden, gap, no_room, not_found, plain};
ghost use Rattle.bureau.specs.Replies.{reply_as};

use crate::NoMemory;
use crate::lack::Lack;
use itoa::Buffer;
use std::alloc::Global;
use std::marker::Model;

/// The body of an answer. A contract sees its bytes.
#[derive(Debug, Drop)]
pub struct Body {
    bytes: Vec<u8>,
}

impl Model for Body {
    ghost use Rattle.std.specs.Prelude.{ℕ, List};

    ghost Value = { List ℕ };

    ghost view = { λ body. body.bytes.items };
}

impl Body {
    /// The body with these bytes.
    pub fn from_vec(bytes: Vec<u8>) -> Body
        ensures { result ≡ bytes.items }
    {
        Body { bytes }
    }

    /// The body's bytes.
    pub fn as_slice(&self) -> &[u8]
        ensures { result.now ≡ self.now }
    {
        self.bytes.as_slice()
    }

    /// Returns the bytes.
    pub fn into_vec(self) -> Vec<u8>
        ensures { result.items ≡ self }
    {
        self.bytes
    }
}

/// An answer.
#[derive(Debug, Drop)]
pub struct Reply {
    /// The status (RFC 9110, section 15).
    pub status: u16,
    /// Whether the body is JSON. Otherwise it is plain text.
    pub json: bool,
    /// The body, which is empty if the status is 503.
    pub body: Body,
    /// What the call lacked, if the status is 503.
    pub lack: Option<Lack>,
}

impl Reply {
    /// There is no room for the call now, since it lacked this. This reply takes no memory.
    pub fn no_room(alloc: Global, lack: Lack) -> Reply
        ensures answer { reply_as result ≡ no_room }
        ensures lack { result.lack ≡ Some lack }
    {
        Reply {
            status: 503,
            json: false,
            body: Body::from_vec(Vec::new(alloc)),
            lack: Some(lack),
        }
    }

    /// An answer in plain text, with status 200.
    pub(crate) fn text(text: Vec<u8>) -> Reply
        ensures { reply_as result ≡ plain 200 text.items }
    {
        Reply {
            status: 200,
            json: false,
            body: Body::from_vec(text),
            lack: None,
        }
    }

    /// An answer as JSON, with status 200.
    pub(crate) fn json(text: Vec<u8>) -> Reply
        ensures { reply_as result ≡ as_json text.items }
    {
        Reply {
            status: 200,
            json: true,
            body: Body::from_vec(text),
            lack: None,
        }
    }

    /// An answer in plain text.
    pub(crate) fn plain(alloc: Global, status: u16, text: &[u8]) -> Result<Reply, NoMemory>
        ensures { IfOk result (λ reply. reply_as reply ≡ plain status text.now) }
    {
        let bytes = Vec::from_slice(alloc, text)?;
        Ok(Reply {
            status,
            json: false,
            body: Body::from_vec(bytes),
            lack: None,
        })
    }

    /// The caller may not ask this.
    pub(crate) fn forbidden(alloc: Global) -> Result<Reply, NoMemory>
        ensures { IfOk result (λ reply. reply_as reply ≡ forbidden) }
    {
        Reply::plain(alloc, 403, b"NOT ALLOWED\n")
    }

    /// The zone isn't there.
    pub(crate) fn not_found(alloc: Global) -> Result<Reply, NoMemory>
        ensures { IfOk result (λ reply. reply_as reply ≡ not_found) }
    {
        Reply::plain(alloc, 404, b"NOT FOUND\n")
    }

    /// A number was left out: the answer names the caller's last one.
    pub(crate) fn gap(alloc: Global, last: u64) -> Result<Reply, NoMemory>
        ensures { IfOk result (λ reply. reply_as reply ≡ gap last) }
    {
        let mut text = Vec::new(alloc);
        text.extend_from_slice(b"GAP LAST ")?;
        text.extend_from_slice(Buffer::new().format(last).as_bytes())?;
        text.extend_from_slice(b"\n")?;
        Ok(Reply {
            status: 409,
            json: false,
            body: Body::from_vec(text),
            lack: None,
        })
    }
}
