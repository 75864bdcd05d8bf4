//! The files of a store when a run of the program ends.
ghost use Rattle.store_runs.specs.Ended.{IsCopied, IsCopiedEnd, IsEndOf};

use sqlite::{Connection, FileStore, Leftover};
use sqlite_disk::Disk;

/// The files of a store when a run ends.
#[derive(Drop)]
pub enum Ended<D: Disk> {
    /// None were opened.
    Nothing,
    /// What an open that failed has left of them.
    Left(Leftover<D>),
    /// They were opened as a database. Nothing is on its way.
    Closed(FileStore<D>),
}

impl<D: Disk + Drop> Ended<D> {
    /// Copies the log into the database's file, as the last thing of a run. What is committed stays, whatever the
    /// device answers. Both files are closed once the result is dropped.
    pub fn close(self) -> Ended<D>
        ensures { IsCopiedEnd self result }
    {
        match self {
            Ended::Nothing => Ended::Nothing,
            Ended::Left(left) => Ended::Left(left),
            Ended::Closed(store) => Ended::Closed(copy_log(store)),
        }
    }
}

// Copies the log into the database's file, if that can be done.
fn copy_log<D: Disk + Drop>(mut store: FileStore<D>) -> FileStore<D>
    ensures { IsCopied store result }
{
    let _ = store.checkpoint();
    store
}

/// Ends a connection. What isn't committed is rolled back.
pub fn end<D: Disk + Drop>(conn: Connection<FileStore<D>>) -> Ended<D>
    ensures { IsEndOf conn result }
{
    Ended::Closed(conn.into_store())
}
