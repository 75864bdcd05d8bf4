//! A connection to the database in a file, with room for the pages of a change.
ghost use Rattle.std.specs.Prelude.{◌≡◌, false, true, IfErr, IfOk, IfSome, IsTrue};
ghost use Rattle.sqlite.specs.Files.{FailsToOpenFiles, IsCleanLeft, IsOpened, LeavesFiles, file_state};
ghost use Rattle.sqlite.specs.Held.{IsNew};
ghost use Rattle.sqlite.specs.Start.{FindsIn};
ghost use Rattle.sqlite.specs.State.{HasCleanDisk};
ghost use Rattle.sqlite_std_file.specs.File.{IsFresh, file_is_usable};
ghost use Rattle.sqlite_wal.specs.Files.{image_at};
ghost use Rattle.store_runs.specs.Missing.{HasSumsAsAsked};
ghost use Rattle.store_runs.specs.Watched.{file_of, is_lost};

use crate::place::{StorePlace, share_mode};
use sqlite::{Connection, Error, ErrorCode, FileStore, Files, Leftover, Options, Start};
use sqlite_std_file::OpenError;
use std::hash::{BuildHasher, RandomState};
use std::io::{self, ErrorKind};
use store_runs::{IfMissing, Refusal, StoreFile, Watched};

// The pages of a change that are in memory before they go to the log: 32 MiB of them. A page that went there and is
// written again is there twice. With 2,000 pages a large publication left a log of four times the database.
const CHANGED_PAGES: usize = 8192;

/// A file of a store, in the place where it was opened.
pub(crate) type PlacedFile<'a, S> = StoreFile<S, StorePlace<'a>>;

/// Why no connection can be made.
#[derive(Clone, Copy)]
pub(crate) struct NotOpened {
    pub(crate) error: Error,
    /// The same in words of the system, as far as it tells.
    pub(crate) refusal: Refusal,
}

/// Connects to the database in the file of this name and in its log, which it makes if they aren't there. `missing` says
/// whether it was asked to make them.
///
/// # Errors
///
/// The files can't be opened: then nothing is left of them. Or they can't be used, and this is left of them.
pub(crate) fn open_database<'a, S: Start>(
    rt: &'a HostRuntime,
    name: &str,
    missing: IfMissing,
    start: S,
) -> Result<
    Connection<FileStore<PlacedFile<'a, S>>>,
    (NotOpened, Option<Leftover<PlacedFile<'a, S>>>),
>
    ensures opened { IfOk result (λ conn. HasCleanDisk (file_state conn) → IsOpened conn) }
    ensures found { IfOk result (λ conn. HasCleanDisk (file_state conn)
        → FindsIn (image_at S.Start) (file_state conn)) }
    ensures sums { IfOk result (HasSumsAsAsked missing (image_at S.Start)) }
    ensures fresh { IfOk result IsNew }
    ensures cause { IfErr result (λ refused. IfSome refused.1 (λ left.
        (files : _) × IsFresh true (file_of files.log) × IsFresh false (file_of files.db)
        × (IsCleanLeft left → FailsToOpenFiles files left refused.0.error × LeavesFiles files left))) }
{
    if !names_a_file(name) {
        return Err((unopened(Refusal::Unknown), None));
    }
    let options = match options(rt) {
        Ok(options) => options,
        Err(error) => return Err((not_opened(OpenError::from(error)), None)),
    };
    let files = match open_in_place(rt, name, missing, start) {
        Ok(files) => files,
        Err(error) => return Err((not_opened(error), None)),
    };
    match Connection::open_files_with(rt.alloc(), files, options, missing.sums()) {
        Ok(conn) => Ok(conn),
        Err((error, left)) => Err((unusable(error), Some(left))),
    }
}

// Opens the two files, and notes where they stand. A log that lies beside a new store is made as private as that.
fn open_in_place<'a, S: Start>(
    rt: &'a HostRuntime,
    name: &str,
    missing: IfMissing,
    start: S,
) -> Result<Files<PlacedFile<'a, S>>, OpenError>
    ensures usable { IfOk result (λ files. IsTrue (file_is_usable S.Start (file_of files.log))
        × IsTrue (file_is_usable S.Start (file_of files.db))) }
    ensures stand { IfOk result (λ files. (is_lost files.log ≡ false) × (is_lost files.db ≡ false)) }
    ensures fresh { IfOk result (λ files. IsFresh true (file_of files.log)
        × IsFresh false (file_of files.db)) }
{
    if missing.makes() {
        share_mode(rt, name)?;
    }
    let files = sqlite_std_file::open(rt, name, start)?;
    Ok(Files {
        log: Watched::new(files.log, StorePlace::of(rt, name)?),
        db: Watched::new(files.db, StorePlace::of(rt, name)?),
    })
}

// A seed of its own, and room for the pages of a change.
fn options(rt: &HostRuntime) -> io::Result<Options> {
    let mut options = Options::new(RandomState::new(rt)?.hash_one(&0u8));
    options.spill_pages = CHANGED_PAGES;
    Ok(options)
}

// Why the files can't be opened: memory ran out, or anything else, of which the system tells the most common.
fn not_opened(error: OpenError) -> NotOpened {
    match error {
        OpenError::OutOfMemory => no_memory(),
        OpenError::Busy => unopened(Refusal::InUse),
        OpenError::HotJournal => unopened(Refusal::Unknown),
        OpenError::Io(error) => match error.kind() {
            ErrorKind::OutOfMemory => no_memory(),
            ErrorKind::NotFound | ErrorKind::NotADirectory => unopened(Refusal::NoFolder),
            ErrorKind::PermissionDenied | ErrorKind::ReadOnlyFilesystem => {
                unopened(Refusal::NoRights)
            }
            _ => unopened(Refusal::Unknown),
        },
    }
}

fn no_memory() -> NotOpened {
    NotOpened {
        error: Error::SqliteFailure(ErrorCode::OutOfMemory),
        refusal: Refusal::Unknown,
    }
}

fn unopened(refusal: Refusal) -> NotOpened {
    NotOpened {
        error: Error::SqliteFailure(ErrorCode::CannotOpen),
        refusal,
    }
}

// Why files that were opened can't be used.
fn unusable(error: Error) -> NotOpened
    ensures { result.error ≡ error }
{
    let refusal = match error {
        Error::SqliteFailure(ErrorCode::NotADatabase) => Refusal::NoDatabase,
        _ => Refusal::Unknown,
    };
    NotOpened { error, refusal }
}

/// Whether SQLite takes a name as that of a file, and not as a database in memory or an address.
pub(crate) fn names_a_file(name: &str) -> bool {
    name != ":memory:" && !name.starts_with("file:")
}
