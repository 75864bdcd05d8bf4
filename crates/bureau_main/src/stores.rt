//! The stores that the system's own files have.
ghost use Rattle.std.specs.Prelude.{◌≡◌, ◌≢◌, ◌⊎◌};

use crate::database::{names_a_file, open_database};
use crate::place::StorePlace;
use bureau_store::StoreFault;
use sqlite::{Connection, Error, ErrorCode, FileStore, Start};
use std::fs::{File, OpenOptions, Permissions, metadata};
use std::io;
use std::os::unix::fs::{FileExt, OpenOptionsExt, PermissionsExt};
use std::path::Path;
use store_runs::{Ended, IfMissing, Pages, Refusal, StoreFile, Stores};

// Where the header of a database says how many bytes at the end of each page are reserved, and how many a sum takes.
const RESERVED_AT: u64 = 20;

const SUM: u8 = 8;

/// The stores that the system's own files have, by the paths of these.
#[derive(Drop)]
pub(crate) struct StoreFiles<'a> {
    rt: &'a HostRuntime,
    // Why the last one couldn't be opened, as far as that is known.
    refusal: Refusal,
    // Whether the pages of the last one end in sums, as far as that is known.
    pages: Pages,
}

impl<'a> StoreFiles<'a> {
    pub(crate) fn new(rt: &'a HostRuntime) -> StoreFiles<'a> {
        StoreFiles {
            rt,
            refusal: Refusal::Unknown,
            pages: Pages::Unknown,
        }
    }
}

impl<'a> Stores for StoreFiles<'a> {
    ghost use Rattle.std.specs.Prelude.{None};

    ghost asked = { λ _. None };

    type Place = StorePlace<'a>;

    fn connect<D: Start>(
        &mut self,
        name: &str,
        missing: IfMissing,
        start: D,
    ) -> Result<
        Connection<FileStore<StoreFile<D, StorePlace<'a>>>>,
        (StoreFault, Ended<StoreFile<D, StorePlace<'a>>>),
    > {
        if is_missing(self.rt, name) {
            if !missing.makes() {
                return Err((StoreFault::Shape, Ended::Nothing));
            }
            if names_a_file(name) {
                // If it can't be made, the connection can't be made either, and tells why.
                let _made = make_private(self.rt, name);
            }
        }
        self.pages = pages_of(self.rt, name);
        match open_database(self.rt, name, missing, start) {
            Ok(conn) => Ok(conn),
            Err((refused, Some(left))) => {
                self.refusal = refused.refusal;
                Err((fault_of(refused.error), Ended::Left(left)))
            }
            Err((refused, None)) => {
                self.refusal = refused.refusal;
                Err((fault_of(refused.error), Ended::Nothing))
            }
        }
    }

    fn refusal(&self) -> Refusal {
        self.refusal
    }

    fn pages(&self) -> Pages {
        self.pages
    }
}

// Whether there is no file of this name, in a folder that is there. It opens none: a pipe without a writer would keep
// it waiting.
fn is_missing(rt: &HostRuntime, name: &str) -> bool {
    match metadata(rt, name) {
        Err(error) if error.kind() == io::ErrorKind::NotFound => {
            match Path::new(name).parent() {
                Some(folder) if !folder.as_str().is_empty() => folder.is_dir(rt),
                _ => true,
            }
        }
        _ => false,
    }
}

// Whether the pages of the database in a file end in sums, by what its header says. It is read before the file is
// locked: if a process closes a file, the system may give up the locks that the process has on it.
fn pages_of(rt: &HostRuntime, name: &str) -> Pages {
    match reserved(rt, name) {
        Ok(0) => Pages::WithoutSums,
        Ok(SUM) => Pages::WithSums,
        _ => Pages::Unknown,
    }
}

// How many bytes at the end of each page are reserved.
fn reserved(rt: &HostRuntime, name: &str) -> io::Result<u8> {
    if !metadata(rt, name)?.is_file() {
        return Err(io::ErrorKind::Unsupported.into());
    }
    let mut byte = [0];
    File::open(rt, name)?.read_exact_at(&mut byte, RESERVED_AT)?;
    Ok(byte[0])
}

// Makes an empty file that its owner alone may read and write, whatever the umask is. The log of a store is made as
// its file is.
fn make_private(rt: &HostRuntime, name: &str) -> io::Result<()> {
    let file = OpenOptions::new()
        .write(true)
        .create_new(true)
        .mode(0o600)
        .open(rt, name)?;
    file.set_permissions(Permissions::from_mode(0o600))
}

// Why the files of a store can't be opened.
fn fault_of(error: Error) -> StoreFault
    ensures { ((result ≡ StoreFault.Memory) × (error ≡ Error.SqliteFailure ErrorCode.OutOfMemory))
        ⊎ ((result ≡ StoreFault.Device) × (error ≢ Error.SqliteFailure ErrorCode.OutOfMemory)) }
{
    match error {
        Error::SqliteFailure(ErrorCode::OutOfMemory) => StoreFault::Memory,
        _ => StoreFault::Device,
    }
}
