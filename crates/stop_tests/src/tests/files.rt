//! Files in memory that fail, and what a stop leaves of them.
use super::script::Checked;
use sqlite::Files;
use sqlite_disk::{Crash, Disk, Fuse, Memory};
use std::alloc::Global;

/// A file in memory that answers a number of calls, and then fails.
pub(crate) type Device = Fuse<Memory>;

/// A device that a stop leaves with some content.
pub(crate) trait Stoppable: Crash + Drop {
    /// A file with the same bytes, which answers so many calls.
    fn copied(&self, alloc: Global, calls: u64) -> Checked<Self>;
}

impl Stoppable for Device {
    fn copied(&self, alloc: Global, calls: u64) -> Checked<Device> {
        let mut disk = Memory::new(alloc);
        write(&mut disk, self.inner().bytes())?;
        Ok(Fuse::new(disk, calls))
    }
}

fn write<D: Disk>(disk: &mut D, bytes: &[u8]) -> Checked<()> {
    if !disk.may_be_used() || disk.write_at(0, bytes).is_err() {
        return Err("memory");
    }
    if disk.sync().is_err() {
        return Err("the bytes are not synced");
    }
    Ok(())
}

/// The number of calls that the log answers, and that of the database.
pub(crate) type Calls = (u64, u64);

/// All calls of both files are answered.
pub(crate) const ALL: Calls = (u64::MAX, u64::MAX);

/// The file of the two that fails.
#[derive(Clone, Copy)]
pub(crate) enum Failing {
    Log,
    Database,
}

impl Failing {
    /// This file answers so many calls, and the other one all.
    pub(crate) fn after(self, calls: u64) -> Calls {
        match self {
            Failing::Log => (calls, u64::MAX),
            Failing::Database => (u64::MAX, calls),
        }
    }
}

/// New files, which answer so many calls.
pub(crate) fn new_files(alloc: Global, calls: Calls) -> Files<Device> {
    Files {
        log: Fuse::new(Memory::new(alloc), calls.0),
        db: Fuse::new(Memory::new(alloc), calls.1),
    }
}

/// Files with the same bytes, which answer so many calls.
pub(crate) fn copied<D: Stoppable>(
    alloc: Global,
    files: &Files<D>,
    calls: Calls,
) -> Checked<Files<D>> {
    let log = files.log.copied(alloc, calls.0)?;
    let db = files.db.copied(alloc, calls.1)?;
    Ok(Files { log, db })
}

/// The files after the program ended: they have all that was written.
pub(crate) fn after_kill<D: Stoppable>(alloc: Global, files: &Files<D>) -> Checked<Files<D>> {
    copied(alloc, files, ALL)
}

/// The files after the machine stopped: what was not synced is lost.
pub(crate) fn after_power_loss<D: Stoppable>(mut files: Files<D>) -> Files<D> {
    files.log.crash();
    files.db.crash();
    files
}
