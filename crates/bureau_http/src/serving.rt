//! One connection, from its bytes to the bytes of its replies.
ghost use Rattle.std.specs.Prelude.{◌≡◌, ◌<◌, ◌||◌, ℕ, List, nat_le, IfOk, IfSome};
ghost use Rattle.std.specs.Io.KnownBytes.{Consumes, Keeps, prepend_known};
ghost use Rattle.bureau_http.specs.Asked.{has_token, most_requests, what_of};
ghost use Rattle.bureau_http.specs.Noted.{IsNotedOf};
ghost use Rattle.bureau_http.specs.Served.{HasRun, IfEnded, IsExchanged, IsServed, Serves, Stays};
ghost use Rattle.bureau.specs.Kept.{IsKeptRun};
ghost use Rattle.bureau.specs.Runs.{IsLawfulRun};
ghost use Rattle.catalogue.specs.View.{Goes, Tells};
ghost use Rattle.requests.specs.Order.{is_bare};
ghost use Rattle.requests.specs.NextRequest.{IsAt, body_in, closes, parts_in, request_len};

use crate::asking::answer_to;
use crate::desk::Desk;
use crate::fault::ConnFault;
use crate::noting::{note_of, note_refused};
use crate::reply::Told;
use bureau::repeats;
use log_lines::Note;
use requests::{NextRequest, Request, Routes, read_next};
use std::alloc::Global;
use std::io::{Read, Write};
use transfer::{Intake, RETRIES};

// The most requests of a connection.
const MOST_REQUESTS: u64 = 10_000;

/// The amount of a connection that was served to its end.
#[derive(Clone, Copy, Debug, PartialEq, Eq)]
pub struct Served {
    /// The number of replies that were written.
    pub requests: u64,
}

/// The next step of a connection.
#[derive(Drop)]
pub enum Step {
    /// The end of its input.
    CleanEnd,
    /// A request whose reply doesn't end the connection, with its note for the log.
    Stays(Note),
    /// A request whose reply ends the connection, with its note for the log.
    Ends(Note),
}

/// The number of interrupted reads and writes that are made again.
#[derive(Clone, Copy, Debug)]
pub struct Retries {
    /// Reads.
    pub reads: u32,
    /// Writes, and flushes.
    pub writes: u32,
}

/// Serves one connection to its end: reads its requests, answers each, and writes the replies, in order.
///
/// It ends with its input, after a reply that closes it, and after its 10,000th request.
///
/// # Errors
///
/// [`ConnFault::Read`] and [`ConnFault::Write`] if a read or write fails, or is interrupted for the 65th time in this
/// connection; [`ConnFault::EndInside`] if its input ends inside a request; and [`ConnFault::Memory`] if memory runs
/// out before the request in hand has come whole. The replies to the requests before it were written whole, and no
/// request after it was served. After `Read` and `Memory` every request that had come whole was answered.
pub fn serve_one<D: Desk, R: Read, W: Write>(
    alloc: Global,
    desk: &mut D,
    reader: &mut R,
    writer: &mut W,
) -> Result<Served, ConnFault>
    ensures goes { Goes D.tables_view desk.old desk.new }
    ensures ran { Tells D.tables_view desk.old desk.new (λ this.
        HasRun (IsLawfulRun D.tables_view desk.old desk.new) this) }
    ensures served { Tells D.tables_view desk.old desk.new (λ this.
        IfSome (R.remaining reader.old)
        (IsServed (IsLawfulRun D.tables_view desk.old desk.new) this
        (R.remaining reader.new) (W.contents writer.old) (W.contents writer.new) result)) }
{
    // It does nothing. Its contract is a law that the proof of this contract cites.
    repeats();
    let routes = Routes::new(alloc)?;
    serve_connection(alloc, desk, &routes, reader, writer)
}

pub(crate) fn serve_connection<D: Desk, R: Read, W: Write>(
    alloc: Global,
    desk: &mut D,
    routes: &Routes,
    reader: &mut R,
    writer: &mut W,
) -> Result<Served, ConnFault>
    ensures goes { Goes D.tables_view desk.old desk.new }
    ensures ran { Tells D.tables_view desk.old desk.new (λ this.
        HasRun (IsKeptRun D.tables_view desk.old desk.new) this) }
    ensures served { Tells D.tables_view desk.old desk.new (λ this.
        IfSome (R.remaining reader.old)
        (IsServed (IsKeptRun D.tables_view desk.old desk.new) this
        (R.remaining reader.new) (W.contents writer.old) (W.contents writer.new) result)) }
{
    // It does nothing. Its contract is a law that the proof of this contract cites.
    repeats();
    let mut intake = Intake::new(alloc);
    let mut retries = Retries {
        reads: RETRIES,
        writes: RETRIES,
    };
    let mut ordinal = 1;
    loop {
        match serve_next(
            desk,
            routes,
            ordinal,
            &mut intake,
            reader,
            writer,
            &mut retries,
        )? {
            Step::CleanEnd => {
                return Ok(Served {
                    requests: ordinal - 1,
                });
            }
            Step::Stays(_) => ordinal += 1,
            Step::Ends(_) => return Ok(Served { requests: ordinal }),
        }
    }
}

/// Serves the next request of a connection: it reads the request at this ordinal, counted from 1, answers it, and
/// writes the reply. Bytes that came further stay in the intake, for the next one.
///
/// It reads no byte if a whole request is at hand. If the input ends before, the bytes that came stay in the intake. In
/// any case the bytes that are left, in the intake and in the reader, are the last ones of those that were there.
///
/// # Errors
///
/// [`ConnFault::Read`], [`ConnFault::EndInside`] and [`ConnFault::Memory`] if no whole request came; then the desk was
/// asked nothing. [`ConnFault::Write`] if the request was answered, and a front part of the reply written.
pub fn serve_next<D: Desk, R: Read, W: Write>(
    desk: &mut D,
    routes: &Routes,
    ordinal: u64,
    intake: &mut Intake,
    reader: &mut R,
    writer: &mut W,
    retries: &mut Retries,
) -> Result<Step, ConnFault>
    ensures goes { Goes D.tables_view desk.old desk.new }
    ensures ran { Tells D.tables_view desk.old desk.new (λ this.
        HasRun (IsKeptRun D.tables_view desk.old desk.new) this) }
    ensures within { IfOk result (λ step. Stays step → ordinal < 10000) }
    ensures next { Tells D.tables_view desk.old desk.new (λ this.
        IfSome (prepend_known intake.old (R.remaining reader.old))
        (Serves (IsKeptRun D.tables_view desk.old desk.new) this ordinal intake.new
        (R.remaining reader.new) (W.contents writer.old) (W.contents writer.new) result)) }
    ensures kept { Tells D.tables_view desk.old desk.new (λ this. IfEnded result
        (Keeps (prepend_known intake.old (R.remaining reader.old))
        (prepend_known intake.new (R.remaining reader.new)))) }
    ensures rest { (taken : List ℕ) × Consumes (prepend_known intake.old (R.remaining reader.old))
        (prepend_known intake.new (R.remaining reader.new)) taken }
{
    match read_next(intake, reader, &mut retries.reads)? {
        NextRequest::CleanEnd => Ok(Step::CleanEnd),
        NextRequest::EndInside => Err(ConnFault::EndInside),
        NextRequest::Refused(refused) => {
            let told = Told::Refused(refused.refusal);
            told.write(writer, refused.is_bare, true, &mut retries.writes)?;
            Ok(Step::Ends(note_refused(&told, intake.len(), refused.is_bare)))
        }
        NextRequest::Whole(request) => {
            let closes = ends_after(&request, ordinal);
            let note = serve_request(
                desk,
                routes,
                &request,
                intake.bytes(),
                closes,
                writer,
                &mut retries.writes,
            )?;
            request.take_off(intake);
            if closes {
                Ok(Step::Ends(note))
            } else {
                Ok(Step::Stays(note))
            }
        }
    }
}

// Whether a connection ends after the reply to this request.
fn ends_after(request: &Request, ordinal: u64) -> bool
    ensures { result ≡ (closes request.now || nat_le most_requests ordinal) }
{
    request.closes() || ordinal >= MOST_REQUESTS
}

// Answers a whole request, writes the reply, and returns the note for the log.
fn serve_request<D: Desk, W: Write>(
    desk: &mut D,
    routes: &Routes,
    request: &Request,
    bytes: &[u8],
    closes: bool,
    writer: &mut W,
    retries: &mut u32,
) -> Result<Note, ConnFault>
    requires { IsAt bytes.now request.now }
    ensures goes { Goes D.tables_view desk.old desk.new }
    ensures exchanged { Tells D.tables_view desk.old desk.new (λ this.
        IsExchanged (IsKeptRun D.tables_view desk.old desk.new) this
        (what_of this.callers (parts_in bytes.now request.now) (body_in bytes.now request.now))
        (has_token (parts_in bytes.now request.now)) (is_bare (parts_in bytes.now request.now)) closes
        (IsNotedOf this.callers (parts_in bytes.now request.now) (request_len request.now))
        (W.contents writer.old) (W.contents writer.new) result) }
{
    let (told, caller) = answer_to(desk, routes, request, bytes);
    told.write(writer, request.is_bare(bytes), closes, retries)?;
    Ok(note_of(&told, caller, request, bytes, closes))
}
