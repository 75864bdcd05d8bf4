//! Replies, from the answer to the bytes on the wire.
ghost use Rattle.std.specs.Prelude.{◌≡◌, ◌++◌, ◌+◌, ◌≤◌, [], length, IfErr, OnOk, if◌then◌else◌};
ghost use Rattle.std.specs.Io.KnownBytes.{Appends};
ghost use Rattle.arrayvec.specs.ArrayVec.{array_vec_len};
ghost use Rattle.transfer.specs.Transfer.{AppendsFront};
ghost use Rattle.requests.specs.Status.{code_of};
ghost use Rattle.bureau_http.specs.Exchange.{body_told, status_numbered};
ghost use Rattle.bureau_http.specs.Told.{answer_told, head_told, lack_told, told_text};
ghost use Rattle.bureau_http.specs.declared.fault.ConnFault.TheVariants.{Write as NotWritten};

use crate::fault::ConnFault;
use arrayvec::ArrayVec;
use bureau::{Lack, Reply};
use requests::{Refusal, ReplyHead, Status, head_text};
use std::io::Write;
use transfer::write_whole;

// The bytes of a reply that go out in one write.
const ROOM: usize = 1024;

/// The answer to a request.
#[derive(Debug, Drop)]
pub(crate) enum Told {
    /// The bureau's answer.
    Answered(Reply),
    /// The reason why the request isn't given to the bureau.
    Refused(Refusal),
    /// There was no room to learn whose token it has, since this lacked.
    NoRoom(Lack),
}

impl Told {
    // The head of the reply.
    fn head(&self, closes: bool) -> ReplyHead
        ensures { result ≡ head_told self.now closes }
    {
        let length = self.body().len() as u64;
        match self {
            Told::Answered(reply) => ReplyHead {
                status: status_numbered(reply.status),
                is_json: reply.json,
                length,
                allow: None,
                closes,
            },
            Told::Refused(refusal) => ReplyHead {
                status: refusal.status(),
                is_json: false,
                length,
                allow: refusal.allow(),
                closes,
            },
            Told::NoRoom(_) => ReplyHead {
                status: Status::ServiceUnavailable,
                is_json: false,
                length,
                allow: None,
                closes,
            },
        }
    }

    // The body of the reply.
    fn body(&self) -> &[u8]
        ensures { result.now ≡ body_told (answer_told self.now) }
    {
        match self {
            Told::Answered(reply) if reply.status != 503 => reply.body.as_slice(),
            Told::Refused(refusal) => refusal.text(),
            _ => b"NO ROOM\n",
        }
    }

    // The body, which is left out if only the head is asked for.
    fn body_for(&self, is_bare: bool) -> &[u8]
        ensures { result.now ≡ (if is_bare then [] else body_told (answer_told self.now)) }
    {
        if is_bare { b"" } else { self.body() }
    }

    // What the call lacked, if the status is 503.
    pub(crate) fn lack(&self) -> Option<Lack>
        ensures { result ≡ lack_told self.now }
    {
        match self {
            Told::Answered(reply) if reply.status == 503 => reply.lack,
            Told::NoRoom(lack) => Some(*lack),
            _ => None,
        }
    }

    // The number of the status.
    pub(crate) fn status(&self, closes: bool) -> u16
        ensures { result ≡ code_of (status_numbered (answer_told self.now).status) }
    {
        self.head(closes).status.code().as_u16()
    }

    // The number of bytes of the reply.
    pub(crate) fn len(&self, is_bare: bool, closes: bool) -> usize
        ensures { result ≡ length (told_text self.now is_bare closes) }
    {
        head_text(&self.head(closes)).len() + self.body_for(is_bare).len()
    }

    /// Writes the reply.
    ///
    /// # Errors
    ///
    /// [`ConnFault::Write`] if a write fails, takes no byte, or is interrupted when no retry is left. A
    /// front part of the reply was written then.
    pub(crate) fn write<W: Write>(
        &self,
        writer: &mut W,
        is_bare: bool,
        closes: bool,
        retries: &mut u32,
    ) -> Result<(), ConnFault>
        ensures ok { OnOk result
            (Appends (W.contents writer.old) (W.contents writer.new) (told_text self.now is_bare closes)) }
        ensures err { IfErr result (λ fault. (fault ≡ NotWritten)
            × AppendsFront (W.contents writer.old) (W.contents writer.new)
            (told_text self.now is_bare closes)) }
    {
        let head = head_text(&self.head(closes));
        write_both(writer, &head, self.body_for(is_bare), retries)
    }
}

// The status with this number, of those that the bureau answers.
fn status_numbered(number: u16) -> Status
    ensures { result ≡ status_numbered number }
{
    match number {
        200 => Status::Success,
        400 => Status::BadRequest,
        401 => Status::Unauthorized,
        403 => Status::Forbidden,
        404 => Status::NotFound,
        405 => Status::MethodNotAllowed,
        409 => Status::Conflict,
        411 => Status::LengthRequired,
        413 => Status::PayloadTooLarge,
        422 => Status::UnprocessableEntity,
        431 => Status::HeadTooLarge,
        _ => Status::ServiceUnavailable,
    }
}

// Writes a head and a body: in one write if both fit the room.
fn write_both<W: Write>(
    writer: &mut W,
    head: &[u8],
    body: &[u8],
    retries: &mut u32,
) -> Result<(), ConnFault>
    requires { length head.now ≤ 512 }
    ensures ok { OnOk result
        (Appends (W.contents writer.old) (W.contents writer.new) (head.now ++ body.now)) }
    ensures err { IfErr result (λ fault. (fault ≡ NotWritten)
        × AppendsFront (W.contents writer.old) (W.contents writer.new) (head.now ++ body.now)) }
{
    if body.len() > ROOM - head.len() {
        write_text(writer, head, retries)?;
        return write_text(writer, body, retries);
    }
    let mut room = ArrayVec::<u8, ROOM>::new();
    put(&mut room, head);
    put(&mut room, body);
    write_text(writer, &room, retries)
}

fn put(room: &mut ArrayVec<u8, ROOM>, text: &[u8])
    requires { array_vec_len room.old + length text.now ≤ 1024 }
    ensures text { room.new.items ≡ room.old.items ++ text.now }
    ensures len { array_vec_len room.new ≡ array_vec_len room.old + length text.now }
{
    match room.try_extend_from_slice(text) {
        Ok(()) => {}
        Err(_) => unreachable!(),
    }
}

fn write_text<W: Write>(writer: &mut W, text: &[u8], retries: &mut u32) -> Result<(), ConnFault>
    ensures ok { OnOk result (Appends (W.contents writer.old) (W.contents writer.new) text.now) }
    ensures err { IfErr result (λ fault. (fault ≡ NotWritten)
        × AppendsFront (W.contents writer.old) (W.contents writer.new) text.now) }
{
    match write_whole(writer, text, retries) {
        Ok(()) => Ok(()),
        Err(_) => Err(ConnFault::Write),
    }
}
