//! The bytes that came over a connection.
ghost use Rattle.std.specs.Prelude.{◌≡◌, ◌==◌, ◌||◌, ◌++◌, not, true, [], ℕ, List, IfOk, IsTrue, length, OnOk};
ghost use Rattle.std.specs.List.{list_any};
ghost use Rattle.connections.specs.Preview.{IsPreview};
ghost use Rattle.requests.specs.NextRequest.{IsUnfinished};

use crate::preview::{Preview, preview_of};
use faults::NoMemory;
use requests::{Progress, read_whole};
use std::alloc::Global;
use std::marker::Model;
use std::mem;
use transfer::{Intake, RETRIES};

/// The bytes that came over a connection, and were not yet taken off as a request.
///
/// A contract sees it as the list of these bytes. It also keeps how far they were looked through.
#[derive(Drop)]
pub struct Incoming {
    bytes: Intake,
    progress: Progress,
}

impl Model for Incoming {
    ghost use Rattle.std.specs.Prelude.{List, ℕ};
    ghost use Rattle.requests.specs.Progress.{Sees};

    ghost Value = { List ℕ };

    ghost view = { λ incoming. incoming.bytes };

    ghost invariant = { λ incoming. Sees incoming.bytes incoming.progress };
}

impl Incoming {
    /// Nothing.
    pub fn new(alloc: Global) -> Incoming
        ensures { result ≡ [] }
    {
        Incoming::of(Intake::new(alloc))
    }

    // These bytes, which were not looked at yet.
    pub(crate) fn of(bytes: Intake) -> Incoming
        ensures { result ≡ bytes }
    {
        Incoming {
            bytes,
            progress: Progress::new(),
        }
    }

    // Takes the bytes out, and leaves none.
    pub(crate) fn take(&mut self, alloc: Global) -> Intake
        ensures taken { result ≡ self.old }
        ensures left { self.new ≡ [] }
    {
        self.progress = Progress::new();
        mem::replace(&mut self.bytes, Intake::new(alloc))
    }

    /// The number of bytes.
    pub fn len(&self) -> usize
        ensures { result ≡ length self.now }
    {
        self.bytes.len()
    }

    // Appends these bytes.
    pub(crate) fn take_in(&mut self, text: &[u8]) -> Result<(), NoMemory>
        ensures { OnOk result (self.new ≡ self.old ++ text.now) }
    {
        let mut rest = text;
        let whole = self.bytes.len().checked_add(text.len()).ok_or(NoMemory)?;
        match read_whole(&mut self.bytes, &mut rest, whole, &mut { RETRIES }) {
            Ok(true) => Ok(()),
            Ok(false) | Err(_) => Err(NoMemory),
        }
    }

    // Whether they hold neither a whole request nor a head that is refused. It looks at no byte twice.
    pub(crate) fn is_short(&mut self) -> bool
        ensures same { self.new ≡ self.old }
        ensures short { result ≡ true → IsUnfinished self.old }
    {
        self.progress.is_short(self.bytes.bytes())
    }

    /// What these bytes would bring behind them, which lie unread.
    ///
    /// # Errors
    ///
    /// Memory ran out.
    pub fn preview(&self, alloc: Global, unread: &[u8]) -> Result<Preview, NoMemory>
        ensures { IfOk result (IsPreview (self.now ++ unread.now) (length unread.now)) }
    {
        if self.is_short_of(unread.len()) {
            return Ok(Preview::Part);
        }
        // A head that was found isn't looked for again, and a body not copied.
        if self.len() == 0 || self.wanted() > 0 {
            return preview_of(alloc, self.bytes.bytes(), unread);
        }
        let mut all = Vec::from_slice(alloc, self.bytes.bytes())?;
        all.extend_from_slice(unread)?;
        // What came was looked through before.
        let mut progress = self.progress;
        if progress.is_short(all.as_slice()) {
            return Ok(Preview::Part);
        }
        preview_of(alloc, self.bytes.bytes(), unread)
    }

    /// Whether the next request is known to have more bytes than these and so many more.
    pub fn is_short_of(&self, more: usize) -> bool
        ensures { (unread : List ℕ) → length unread ≡ more → IsTrue result
            → IsUnfinished (self.now ++ unread) }
    {
        match self.progress.wanted().checked_sub(self.bytes.len()) {
            Some(missing) => more < missing,
            None => false,
        }
    }

    /// Whether a request has begun in them: they are more than line ends.
    pub fn has_begun(&self) -> bool
        ensures { result ≡ list_any (λ b. not (b == 10 || b == 13)) self.now }
    {
        self.bytes
            .bytes()
            .iter()
            .any(|b| !(*b == b'\n' || *b == b'\r'))
    }

    /// The number of bytes of the next request, once its head has come and was looked at, and 0 before.
    pub fn wanted(&self) -> usize {
        self.progress.wanted()
    }
}
