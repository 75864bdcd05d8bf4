//! The stores that files have, by the names of their files.
ghost use Rattle.std.specs.Prelude.{◌≡◌, false, IfErr, IfOk};
ghost use Rattle.sqlite_wal.specs.Files.{image_at};
ghost use Rattle.store_runs.specs.Asked.{Asked, AsksFor, answer_in};
ghost use Rattle.store_runs.specs.Ended.{HasFound, IsRefused};
ghost use Rattle.store_runs.specs.Missing.{HasSumsAsAsked, makes};

use crate::ended::Ended;
use crate::missing::IfMissing;
use crate::pages::Pages;
use crate::refusal::Refusal;
use crate::watched::{Place, Watched};
use bureau_store::StoreFault;
use sqlite::{Connection, FileFrom, FileStore, Start};

/// A file of a store that held this as it was opened, and its place.
pub type StoreFile<D, P> = Watched<FileFrom<D>, P>;

/// Connections to the databases in files, by the names of these.
///
/// A run has it as an argument of its own, so a run that doesn't get it asks for no store. A system's stores don't
/// tell what was asked for. A proof about every `Stores` says which store a run asks for, and that it asks once.
pub trait Stores {
    /// The stores that were asked for, the oldest first, as far as they are known.
    ghost asked: { Self → Asked };

    /// The place of the files of a store.
    type Place: Place + Drop;

    /// Connects to the database in the file of this name, and leaves it at rest. `missing` says what becomes
    /// of a file that isn't there. What the files held stands as a `Start`, since no code can read it. If the files are
    /// no longer in their place, the next change fails as one of a device that has failed.
    ///
    /// # Errors
    ///
    /// `Shape` if the file isn't there and should not be made; `Memory` if memory ran out. `Device` if the name is no
    /// file's, or the file may not be opened, or another has it open. `Device` also if a call on it failed, or if it
    /// is no database, or one as long as a database may be. With the fault comes what is left of the files.
    fn connect<D: Start>(
        &mut self,
        name: &str,
        missing: IfMissing,
        start: D,
    ) -> Result<
        Connection<FileStore<StoreFile<D, Self::Place>>>,
        (StoreFault, Ended<StoreFile<D, Self::Place>>),
    >
        ensures rest { IfOk result (λ conn. conn.in_transaction ≡ false) }
        ensures found { IfOk result (HasFound (image_at D.Start)) }
        ensures sums { IfOk result (HasSumsAsAsked missing (image_at D.Start)) }
        ensures asked { AsksFor (asked self.old) (asked self.new) name.now missing (image_at D.Start)
            (answer_in result) }
        ensures refused { IfErr result
            (λ refused. IsRefused (makes missing) (image_at D.Start) refused.0 refused.1) };

    /// Why the last connection couldn't be made, as far as that is known. Nothing is promised of it.
    fn refusal(&self) -> Refusal;

    /// Whether the pages of the last store end in sums, as far as that is known. Nothing is promised of it.
    fn pages(&self) -> Pages;
}
