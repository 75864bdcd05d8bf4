//! Reading the next request of a connection: a whole one, or the connection's end.
ghost use Rattle.std.specs.Prelude.{◌≡◌, ◌^◌, ◌<◌, ◌≤◌, true, drop, length, option_map, take, IfOk, IfErr, IfSome};
ghost use Rattle.std.specs.Io.KnownBytes.{Keeps, prepend_known};
ghost use Rattle.requests.specs.Head.{LiesIn};
ghost use Rattle.requests.specs.Order.{is_bare};
ghost use Rattle.requests.specs.Refusal.{IsOfTarget};
ghost use Rattle.requests.specs.Request as Spec;
ghost use Rattle.requests.specs.NextRequest.{HasBody, IsAt, IsBodyAtHand, IsNext, IsNextBy, IsReadAs, IsNextAtHand, IsUnfinished, NextLies, body_in, closes, end_inside, head_in, parts_in, request_len};
ghost use Rattle.requests.specs.declared.front.Front.TheVariants as front;
ghost use Rattle.transfer.specs.Transfer.{IsGivenUp};

use crate::action::Action;
use crate::front::{Front, read_front, read_whole};
use crate::head::Head;
use crate::order::{Refused, decide};
use crate::refusal::Refusal;
use crate::routes::Routes;
use std::io::Read;
use transfer::{Intake, TransferFault};

/// The next request of a connection, or its end.
#[derive(Clone, Copy, Debug)]
pub enum NextRequest {
    /// The end of the input, if no request has begun.
    CleanEnd,
    /// The end of the input inside a request.
    EndInside,
    /// A head that is refused. Nothing after it is read.
    Refused(Refused),
    /// A whole request.
    Whole(Request),
}

/// The spans of a whole request at the front of an intake's bytes.
#[derive(Clone, Copy, Debug)]
pub struct Request {
    pub(crate) head: Head,
    pub(crate) head_len: usize,
    pub(crate) body_len: usize,
}

impl Request {
    // The bytes of its head.
    fn head_bytes<'a>(&self, bytes: &'a [u8]) -> &'a [u8]
        requires { IsAt bytes.now self.now }
        ensures { result.now ≡ head_in bytes.now self.now }
    {
        let (head, _) = bytes.split_at(self.head_len);
        head
    }

    /// Its body, in the bytes that begin with the request.
    pub fn body<'a>(&self, bytes: &'a [u8]) -> &'a [u8]
        requires { IsAt bytes.now self.now }
        ensures { result.now ≡ body_in bytes.now self.now }
    {
        let (_, rest) = bytes.split_at(self.head_len);
        let (body, _) = rest.split_at(self.body_len);
        body
    }

    /// Whether only the head of the reply is asked for: the method is `HEAD` (RFC 9110, section 9.3.2).
    pub fn is_bare(&self, bytes: &[u8]) -> bool
        requires { IsAt bytes.now self.now }
        ensures { result ≡ is_bare (parts_in bytes.now self.now) }
    {
        self.head.is_bare(self.head_bytes(bytes))
    }

    /// Whether the connection ends after the reply, as far as the head says (RFC 9112, section 9.6).
    pub fn closes(&self) -> bool
        ensures { result ≡ closes self.now }
    {
        self.head.closes()
    }

    /// The method, as the request line has it.
    pub fn method<'a>(&self, bytes: &'a [u8]) -> &'a [u8]
        requires { IsAt bytes.now self.now }
        ensures { result.now ≡ (parts_in bytes.now self.now).method }
    {
        self.head.method(self.head_bytes(bytes))
    }

    /// The path, as the request line has it: its target up to the first `?`.
    pub fn path<'a>(&self, bytes: &'a [u8]) -> &'a [u8]
        requires { IsAt bytes.now self.now }
        ensures { result.now ≡ Spec.path_of (parts_in bytes.now self.now).target }
    {
        self.head.path(self.head_bytes(bytes))
    }

    /// The number of its bytes: its head, with the empty lines before it, and its body.
    pub fn len(&self) -> usize
        requires { request_len self.now < 2 ^ 64 }
        ensures { result ≡ request_len self.now }
    {
        self.head_len + self.body_len
    }

    /// The token of the caller, if there is just one.
    pub fn token<'a>(&self, bytes: &'a [u8]) -> Option<&'a [u8]>
        requires { IsAt bytes.now self.now }
        ensures { option_map (λ token. token.now) result ≡ (parts_in bytes.now self.now).token }
    {
        self.head.token(self.head_bytes(bytes))
    }

    /// The number of a change, if there is just one and it reads.
    pub fn number(&self, bytes: &[u8]) -> Option<u64>
        requires { IsAt bytes.now self.now }
        ensures { result ≡ Spec.number_of (parts_in bytes.now self.now) }
    {
        self.head.number(self.head_bytes(bytes))
    }

    /// The action that it asks for, by its path, its method and the ids in the path.
    ///
    /// # Errors
    ///
    /// The first of these: no such path; no such method there; a part of the path that is no id.
    pub fn action(&self, bytes: &[u8], routes: &Routes) -> Result<Action, Refusal>
        requires { IsAt bytes.now self.now }
        ensures action { result ≡ Spec.action_of (parts_in bytes.now self.now) }
        ensures refused { IfErr result IsOfTarget }
    {
        self.head.action(self.head_bytes(bytes), routes)
    }

    /// Takes it off the intake that begins with it.
    pub fn take_off(&self, intake: &mut Intake)
        requires { IsAt intake.old self.now }
        ensures { intake.new ≡ drop (request_len self.now) intake.old }
    {
        let len = intake.len();
        prove!(self.body_len <= len - self.head_len);
        intake.take_off(self.head_len + self.body_len);
    }
}

/// Reads the next request of a connection, and no byte if that is at hand. Its bytes stay in the intake.
///
/// # Errors
///
/// Those of [`Intake::read_more`], and none once a whole request has come, or a head that is refused. The bytes
/// that came until then stay in the intake.
pub fn read_next<R: Read>(
    intake: &mut Intake,
    reader: &mut R,
    retries: &mut u32,
) -> Result<NextRequest, TransferFault>
    ensures next { IfOk result (λ next. IfSome (prepend_known intake.old (R.remaining reader.old))
        (IsReadAs IsNext intake.new (R.remaining reader.new) next)) }
    ensures unfinished { IfErr result (λ fault. IsUnfinished intake.new) }
    ensures within { IfOk result (λ next. NextLies next intake.new) }
    ensures at_hand { IfOk result (λ next. IsNextAtHand next intake.old →
        (intake.new ≡ intake.old) × (reader.new ≡ reader.old)) }
    ensures kept { Keeps (prepend_known intake.old (R.remaining reader.old))
        (prepend_known intake.new (R.remaining reader.new)) }
    ensures given_up { IfErr result (λ fault. IsGivenUp fault retries.new) }
    ensures counted { retries.new ≤ retries.old }
{
    match read_front(intake, reader, retries)? {
        Front::Head(head_len) => read_request(intake, reader, head_len, retries),
        Front::CleanEnd => Ok(NextRequest::CleanEnd),
        Front::EndInside => Ok(NextRequest::EndInside),
        Front::TooLarge => Ok(NextRequest::Refused(Refused {
            refusal: Refusal::HeadTooLarge,
            is_bare: false,
        })),
    }
}

// Reads the request of a head of so many bytes.
fn read_request<R: Read>(
    intake: &mut Intake,
    reader: &mut R,
    head_len: usize,
    retries: &mut u32,
) -> Result<NextRequest, TransferFault>
    requires within { head_len ≤ length intake.old }
    requires short { head_len ≤ 16384 }
    ensures next { IfOk result (λ next. IfSome (prepend_known intake.old (R.remaining reader.old))
        (IsReadAs (IsNextBy (front.Head head_len)) intake.new (R.remaining reader.new) next)) }
    ensures unfinished { IfErr result (λ fault. IsNextBy (front.Head head_len) intake.new end_inside) }
    ensures grown { take (length intake.old) intake.new ≡ intake.old }
    ensures within { IfOk result (λ next. NextLies next intake.new) }
    ensures at_hand { IfOk result (λ next. IsBodyAtHand next intake.old →
        (intake.new ≡ intake.old) × (reader.new ≡ reader.old)) }
    ensures kept { Keeps (prepend_known intake.old (R.remaining reader.old))
        (prepend_known intake.new (R.remaining reader.new)) }
    ensures given_up { IfErr result (λ fault. IsGivenUp fault retries.new) }
    ensures counted { retries.new ≤ retries.old }
{
    let (bytes, _) = intake.bytes().split_at(head_len);
    match decide(bytes) {
        Ok((head, length)) => {
            let request = Request {
                head,
                head_len,
                body_len: length as usize,
            };
            read_body(intake, reader, request, retries)
        }
        Err(refused) => Ok(NextRequest::Refused(refused)),
    }
}

// Reads the body of a request whose head is there.
fn read_body<R: Read>(
    intake: &mut Intake,
    reader: &mut R,
    request: Request,
    retries: &mut u32,
) -> Result<NextRequest, TransferFault>
    requires within { request.head_len ≤ length intake.old }
    requires short { request_len request ≤ 67125248 }
    requires head { LiesIn (head_in intake.old request) request.head }
    requires path { Spec.is_path (parts_in intake.old request).target ≡ true }
    ensures next { IfOk result (λ next. IfSome (prepend_known intake.old (R.remaining reader.old))
        (IsReadAs (HasBody (parts_in intake.old request) request) intake.new (R.remaining reader.new) next)) }
    ensures unfinished { IfErr result (λ fault.
        HasBody (parts_in intake.old request) request intake.new end_inside) }
    ensures grown { take (length intake.old) intake.new ≡ intake.old }
    ensures within { IfOk result (λ next. NextLies next intake.new) }
    ensures at_hand { IfOk result (λ next. IsBodyAtHand next intake.old →
        (intake.new ≡ intake.old) × (reader.new ≡ reader.old)) }
    ensures kept { Keeps (prepend_known intake.old (R.remaining reader.old))
        (prepend_known intake.new (R.remaining reader.new)) }
    ensures given_up { IfErr result (λ fault. IsGivenUp fault retries.new) }
    ensures counted { retries.new ≤ retries.old }
{
    if read_whole(intake, reader, request.head_len + request.body_len, retries)? {
        Ok(NextRequest::Whole(request))
    } else {
        Ok(NextRequest::EndInside)
    }
}
