//! Laws on any number of runs of the program.
ghost use Rattle.std.specs.Prelude.{◌≡◌, ◌++◌, ℕ, List, None, Some, Option};
ghost use Rattle.faults.specs.declared.any.AnyFault.{AnyFault};
ghost use Rattle.bureau_sql.specs.Files.{HoldTables, HoldsEarlier, HoldsStore};
ghost use Rattle.bureau.specs.Joint.{CallBy};
ghost use Rattle.bureau_store.specs.Tables.{Tables};
ghost use Rattle.bureau_store.specs.declared.caller.CallerRow.{CallerRow};
ghost use Rattle.connections.specs.Rounds.{AreAskedIn, AreCallsOf, Entry, Log};
ghost use Rattle.sqlite_wal.specs.Recovery.{Image};
ghost use Rattle.store_runs.specs.Callers.{KeepsCallers};
ghost use Rattle.store_runs.specs.Checking.{IsFilesChecked};
ghost use Rattle.store_runs.specs.Desk.{AreRowsOf};
ghost use Rattle.store_runs.specs.Ended.{IsNothing};
ghost use Rattle.store_runs.specs.Keeping.{EndsWell, HoldCallers, IsDone, KeepsMade, KeepsMigrated, KeepsTables, Leaves};
ghost use Rattle.bureau_program.specs.Runs.{AreRunsOver, FileRun, HaveThePublisher, HoldAfter, HoldSinceInit, IsRunOver, Other, Serves, Sets};
ghost use Rattle.bureau_program.specs.RunsEnd.{IsLastOf, LeavesAtLast};
ghost use Rattle.bureau_program.specs.Served.{HasFailed, KeepsServed};

use sqlite_disk::Disk;
use store_runs::Ended;

/// Once `init` has made a store, any number of runs of the program may come one after the other, and each may stop
/// at any moment. The next one finds the store in the files again, with the tables after all that was acknowledged,
/// and perhaps after the change that was on its way at each stop. The calls of all runs, and the callers that were
/// set between them, are together one course of the bureau.
///
/// A stop in `serve` leaves the tables after all that was acknowledged; or, if the device failed, perhaps those with
/// the one change that was on its way. A stop in `callers` leaves the tables before it or after it. So it is over all
/// runs: each reply to a caller, other than 503, is that of a bureau which got only some of the calls before it. These
/// are the publisher's and that caller's own since it came, and perhaps the one on its way at each stop. A caller who
/// went counts until then, and one who came from then on, whoever had its name before. A change acts once: sent again
/// after a stop it is told what it was told before, or would have been.
///
/// `tables` says this of any store of the bureau's own, as `migrate` leaves one. From the first run on that sets
/// callers, and before it, each reply is so whoever the callers were. A history that goes across that run counts if
/// the publisher was there before it. What a stop may leave of a run is said from its end on (`Leaves`); that an
/// earlier stop leaves no more is argued in `docs/PROVED.md`, *Trusted*. [`what_a_run_keeps`] says that each run of the
/// program is such a run, and [`where_runs_begin`] who gives the first store.
pub fn any_number_of_runs()
    ensures made { (source : List ℕ) (image : Image) → HoldCallers source image
        → (runs : List FileRun) (last : Image) → AreRunsOver image runs last
        → HoldSinceInit source runs last }
    ensures tables { (opening : Tables) (image : Image) → HoldTables image (λ this. this ≡ opening)
        → (runs : List FileRun) (last : Image) → AreRunsOver image runs last
        → HoldAfter opening runs last }
{}

/// Each run of the program is one of those runs, by what its own contract says that it keeps ([`crate::run`]:
/// `KeepsServed` of `serve`; `KeepsCallers` of a `callers` that was given callers; `KeepsTables` of any other that
/// opened the files of the store). `ended` stands for what is left of the files. A run that opened none keeps the
/// tables too.
pub fn what_a_run_keeps<D: Disk>(ended: &Ended<D>)
    ensures serves { (from : Image) (log log_after : Log) (outcome : Option AnyFault)
        → KeepsServed from log log_after outcome ended.now → EndsWell from ended.now
        → (left : Image) → Leaves from ended.now left
        → IsRunOver from (Serves log log_after outcome left) }
    ensures sets { (from : Image) (source : List ℕ) (rows : List CallerRow) (outcome : Option AnyFault)
        → AreRowsOf source rows → KeepsCallers from rows outcome ended.now → EndsWell from ended.now
        → (left : Image) → Leaves from ended.now left
        → IsRunOver from (Sets rows outcome left) }
    ensures others { (from : Image) → KeepsTables from ended.now → EndsWell from ended.now
        → (left : Image) → Leaves from ended.now left → IsRunOver from (Other left) }
    ensures nothing { (from : Image) → IsNothing ended.now → KeepsTables from ended.now }
{}

/// What [`any_number_of_runs`] begins with. `makes`: an `init` that has done its work leaves a store with its callers.
/// `brings`: such a `migrate` leaves one with the tables of the store of version 1. `finds`: if a `check` told that a
/// store is whole, the publisher is among its callers. A `callers` that has set callers gives that too
/// (`AreCoursesOn`).
pub fn where_runs_begin<D: Disk>(ended: &Ended<D>)
    ensures makes { (from : Image) (source : List ℕ) (outcome : Option AnyFault)
        → KeepsMade from source outcome ended.now → IsDone outcome → EndsWell from ended.now
        → (left : Image) → Leaves from ended.now left → HoldCallers source left }
    ensures brings { (from : Image) (outcome : Option AnyFault)
        → KeepsMigrated from outcome ended.now → IsDone outcome → EndsWell from ended.now
        → (before : Tables) → HoldsEarlier from before
        → (left : Image) → Leaves from ended.now left → HoldTables left (λ this. this ≡ before) }
    ensures finds { (from : Image) (output written : Option (List ℕ))
        → IsFilesChecked from output written ended.now None → EndsWell from ended.now
        → (before : Tables) → HoldsStore from before → HaveThePublisher before.callers }
{}

/// The last thing of the program is to copy the log of a store into its file ([`Ended::close`]). `well`: if the disk
/// returned what was written by then, it had at the end of the run. `left`: what a stop leaves from then on is what a
/// stop may leave from the end of the run on, so [`what_a_run_keeps`] says what it holds.
pub fn what_a_copy_leaves<D: Disk>(ended: &Ended<D>, closed: &Ended<D>)
    ensures well { (from : Image) → IsLastOf from ended.now closed.now → EndsWell from ended.now }
    ensures left { (from : Image) → IsLastOf from ended.now closed.now
        → (left : Image) → LeavesAtLast from closed.now left → Leaves from ended.now left }
{}

/// If the log of a run is known, the calls of the run (`AreCallsOf`) are those that the rounds of the log ask for, and
/// no others: it grew by just these rounds. If the run told 42, the last round may have had more events.
pub fn which_calls()
    ensures { (rows : List CallerRow) (before entries : List Entry) (calls : List CallBy)
        → (outcome : Option AnyFault) → (HasFailed outcome → ⊥)
        → AreCallsOf rows (Some before) (Some (before ++ entries)) (HasFailed outcome) calls
        → AreAskedIn rows entries calls }
{}
