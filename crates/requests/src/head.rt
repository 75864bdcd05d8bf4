//! The head of a request: the spans of its parts in its bytes.
ghost use Rattle.std.specs.Prelude.{◌≡◌, true, option_map, IfErr};
ghost use Rattle.requests.specs.Head.{LiesIn, parts_at};
ghost use Rattle.requests.specs.Order.{is_bare};
ghost use Rattle.requests.specs.Refusal.{IsOfTarget};
ghost use Rattle.requests.specs.Request as Spec;

use crate::action::Action;
use crate::refusal::Refusal;
use crate::request::{action_by, change_number};
use crate::routes::Routes;
use crate::text::cut;
use httparse::spans::Span;
use std::str;

/// The spans of a head's parts in its bytes.
#[derive(Clone, Copy, Debug)]
pub struct Head {
    pub(crate) method: Span,
    pub(crate) target: Span,
    pub(crate) token: Option<Span>,
    pub(crate) number: Option<Span>,
    pub(crate) closes: bool,
}

impl Head {
    /// Whether only the head of the reply is asked for: the method is `HEAD` (RFC 9110, section 9.3.2).
    pub fn is_bare(&self, bytes: &[u8]) -> bool
        requires { LiesIn bytes.now self.now }
        ensures { result ≡ is_bare (parts_at bytes.now self.now) }
    {
        self.method.of(bytes) == b"HEAD".as_slice()
    }

    /// Whether the connection ends after the reply, as far as the head says (RFC 9112, section 9.6).
    pub fn closes(&self) -> bool
        ensures { result ≡ self.now.closes }
    {
        self.closes
    }

    /// The method, as the request line has it.
    pub fn method<'a>(&self, bytes: &'a [u8]) -> &'a [u8]
        requires { LiesIn bytes.now self.now }
        ensures { result.now ≡ (parts_at bytes.now self.now).method }
    {
        self.method.of(bytes)
    }

    /// The path, as the request line has it: its target up to the first `?`.
    pub fn path<'a>(&self, bytes: &'a [u8]) -> &'a [u8]
        requires { LiesIn bytes.now self.now }
        ensures { result.now ≡ Spec.path_of (parts_at bytes.now self.now).target }
    {
        let (path, _) = cut(self.target.of(bytes), b'?');
        path
    }

    /// The token of the caller, if there is just one.
    pub fn token<'a>(&self, bytes: &'a [u8]) -> Option<&'a [u8]>
        requires { LiesIn bytes.now self.now }
        ensures { option_map (λ token. token.now) result ≡ (parts_at bytes.now self.now).token }
    {
        match self.token {
            Some(token) => Some(token.of(bytes)),
            None => None,
        }
    }

    /// The number of a change, if there is just one and it reads.
    pub fn number(&self, bytes: &[u8]) -> Option<u64>
        requires { LiesIn bytes.now self.now }
        ensures { result ≡ Spec.number_of (parts_at bytes.now self.now) }
    {
        change_number(self.number?.of(bytes))
    }

    /// The action that the request asks for, by its path, its method and the ids in the path.
    ///
    /// # Errors
    ///
    /// The first of these: no such path; no such method there; a part of the path that is no id.
    pub fn action(&self, bytes: &[u8], routes: &Routes) -> Result<Action, Refusal>
        requires within { LiesIn bytes.now self.now }
        requires path { Spec.is_path (parts_at bytes.now self.now).target ≡ true }
        ensures action { result ≡ Spec.action_of (parts_at bytes.now self.now) }
        ensures refused { IfErr result IsOfTarget }
    {
        let (path, _) = cut(self.target.of(bytes), b'?');
        match str::from_utf8(path) {
            Ok(path) => action_by(routes, self.method.of(bytes), path),
            Err(_) => unreachable!(),
        }
    }
}
