//! The place of a store: the two names of its files, and which files had them as the store was opened.
use std::fs::{Metadata, Permissions, canonicalize, metadata, set_permissions, symlink_metadata};
use std::io;
use std::os::unix::fs::{MetadataExt, PermissionsExt};
use store_runs::Place;

/// The names of the two files of a store, and which files these were.
#[derive(Drop)]
pub(crate) struct StorePlace<'a> {
    rt: &'a HostRuntime,
    store: String,
    store_file: FileId,
    log: String,
    log_file: FileId,
}

impl<'a> StorePlace<'a> {
    /// The place of the store whose file this name leads to. The log lies beside that file.
    ///
    /// # Errors
    ///
    /// One of the two files isn't there, or can't be looked at; or memory ran out.
    pub(crate) fn of(rt: &'a HostRuntime, name: &str) -> io::Result<StorePlace<'a>> {
        let log = log_name(rt, name)?;
        Ok(StorePlace {
            rt,
            store: String::from_str(rt.alloc(), name)?,
            store_file: FileId::of(&metadata(rt, name)?),
            log_file: FileId::of(&symlink_metadata(rt, log.as_str())?),
            log,
        })
    }
}

impl Place for StorePlace<'_> {
    ghost use Rattle.std.specs.Prelude.{None};

    ghost sights = { λ _. None };

    fn stands(&mut self) -> bool {
        self.store_file
            .is_that_of(metadata(self.rt, self.store.as_str()))
            && self
                .log_file
                .is_that_of(symlink_metadata(self.rt, self.log.as_str()))
    }
}

// The name of the log of the store whose file this name leads to.
fn log_name(rt: &HostRuntime, name: &str) -> io::Result<String> {
    let real = canonicalize(rt, name)?;
    Ok(format!(in rt.alloc(); "{}-wal", real.as_str())?)
}

/// Gives a log that lies beside an empty file the mode of that file. Of a log that isn't there nothing is told.
///
/// # Errors
///
/// The mode can't be set.
pub(crate) fn share_mode(rt: &HostRuntime, name: &str) -> io::Result<()> {
    let Some(store) = found(metadata(rt, name))? else {
        return Ok(());
    };
    let log = log_name(rt, name)?;
    match found(symlink_metadata(rt, log.as_str()))? {
        Some(lies) if store.len() == 0 && lies.is_file() => {
            set_permissions(
                rt,
                log.as_str(),
                Permissions::from_mode(store.mode() & 0o777),
            )
        }
        _ => Ok(()),
    }
}

// What a look found; nothing if there is no such file.
fn found(look: io::Result<Metadata>) -> io::Result<Option<Metadata>> {
    match look {
        Ok(found) => Ok(Some(found)),
        Err(error) if error.kind() == io::ErrorKind::NotFound => Ok(None),
        Err(error) => Err(error),
    }
}

// Which file of the system it is.
#[derive(Clone, Copy, PartialEq, Eq)]
struct FileId {
    device: u64,
    inode: u64,
}

impl FileId {
    fn of(found: &Metadata) -> FileId {
        FileId {
            device: found.dev(),
            inode: found.ino(),
        }
    }

    // Whether a look found this file. What can't be looked at isn't found.
    fn is_that_of(self, found: io::Result<Metadata>) -> bool {
        match found {
            Ok(found) => found.is_file() && FileId::of(&found) == self,
            Err(_) => false,
        }
    }
}
