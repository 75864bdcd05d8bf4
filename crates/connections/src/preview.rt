//! Bytes that lie unread at a connection: whether its next request ends in them, and whose it is.
ghost use Rattle.std.specs.Prelude.{◌≡◌, ℕ, ◌≤◌, List, ◌++◌, IfOk, length, option_map, take};
ghost use Rattle.requests.specs.HeadEnd.{front_of, head_limit};
ghost use Rattle.requests.specs.declared.front.Front.TheVariants.{Head};
ghost use Rattle.connections.specs.Preview.{IsPreview, caller_by};

use faults::NoMemory;
use requests::{Front, decide, read_front};
use std::alloc::Global;
use std::io::Read;
use transfer::{Intake, RETRIES};

// The most bytes of a token.
const TOKEN: usize = 64;

/// What bytes would bring that lie unread at a connection.
#[derive(Drop)]
pub enum Preview {
    /// No request ends in them.
    Part,
    /// So many of them end a request, or a head that is refused. The token of its caller has no byte if it has none, or
    /// one that is too long.
    Whole(usize, Vec<u8>),
}

// What these bytes would bring behind those that came.
pub(crate) fn preview_of(alloc: Global, came: &[u8], unread: &[u8]) -> Result<Preview, NoMemory>
    ensures { IfOk result (IsPreview (came.now ++ unread.now) (length unread.now)) }
{
    let all = came.len().checked_add(unread.len()).ok_or(NoMemory)?;
    let mut intake = Intake::new(alloc);
    match read_front(&mut intake, &mut came.chain(unread), &mut { RETRIES }) {
        Ok(Front::Head(len)) => {
            let (head, _) = intake.bytes().split_at(len);
            by_head(alloc, head, all, unread.len())
        }
        Ok(Front::CleanEnd) => Ok(Preview::Part),
        Ok(Front::EndInside) => Ok(Preview::Part),
        Ok(Front::TooLarge) => Ok(Preview::Whole(unread.len(), Vec::new(alloc))),
        Err(_) => Err(NoMemory),
    }
}

// The same, where there are so many bytes in all, and so many of them unread, and they begin with this head.
fn by_head(alloc: Global, head: &[u8], all: usize, unread: usize) -> Result<Preview, NoMemory>
    requires { length head.now ≤ 16384 }
    ensures { (bytes : List ℕ) → length bytes ≡ all → take (length head.now) bytes ≡ head.now
        → front_of head_limit bytes ≡ Head (length head.now) → IfOk result (IsPreview bytes unread) }
{
    let (parts, body_len) = match decide(head) {
        Ok(ready) => ready,
        Err(_) => return Ok(Preview::Whole(unread, Vec::new(alloc))),
    };
    let len = head.len() + body_len as usize;
    match all.checked_sub(len) {
        Some(following) => {
            let caller = caller_of(alloc, parts.token(head))?;
            Ok(Preview::Whole(unread.saturating_sub(following), caller))
        }
        None => Ok(Preview::Part),
    }
}

// The caller of a request with this token.
fn caller_of(alloc: Global, token: Option<&[u8]>) -> Result<Vec<u8>, NoMemory>
    ensures { IfOk result (λ caller. caller.items ≡ caller_by (option_map (λ token. token.now) token.entry)) }
{
    match token {
        Some(token) if token.len() <= TOKEN => Ok(Vec::from_slice(alloc, token)?),
        _ => Ok(Vec::new(alloc)),
    }
}
