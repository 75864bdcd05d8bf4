//! A damaged byte of the log: the part that it is in can't be read.
//!
//! The database refuses a read that finds the damage, but would commit what comes after it, and lose that at the
//! next opening. So the store is closed from the first refusal on.
use super::script::{Checked, REQUESTS};
use super::stores::{Opened, Step, connected, files_of, visited};
use super::trial::{Course, Trial, worked};
use sqlite::Files;
use sqlite_disk::{Disk, Memory, Rot};
use std::alloc::Global;
use std::hash::RandomState;
use std::test::Fail;

// New files, with a damaged byte in the log.
fn damaged_files(alloc: Global, at: usize) -> Files<Rot<Memory>> {
    Files {
        log: Rot::new(Memory::new(alloc), at),
        db: Rot::new(Memory::new(alloc), usize::MAX),
    }
}

// Whether the connection says that its file is damaged, and commits a change all the same.
fn would_commit<D: Disk + Drop>(trial: &mut Trial, conn: Opened<D>) -> Checked<bool> {
    let (committed, conn) = visited(trial, conn, Step::Commit, Course::Nothing)?;
    let _files = files_of(conn);
    Ok(committed.is_ok())
}

// The number of requests that are answered over a new store of this connection, and whether the connection would have
// committed more. If no store can be made, none is answered.
fn served_over<D: Disk + Drop>(trial: &mut Trial, conn: Opened<D>) -> Checked<(usize, bool)> {
    match visited(trial, conn, Step::Init, Course::Part(0, REQUESTS))? {
        (Ok(answered), conn) => Ok((answered, would_commit(trial, conn)?)),
        (Err(_), conn) => {
            let _files = files_of(conn);
            Ok((0, false))
        }
    }
}

// The same over a store in these files, which are new.
fn served<D: Disk + Drop>(trial: &mut Trial, files: Files<D>) -> Checked<(usize, bool)> {
    match connected(trial.alloc, files, 2000) {
        Ok(conn) => served_over(trial, conn),
        Err(_) => Ok((0, false)),
    }
}

#[test]
fn behind_damage_nothing_is_acknowledged(rt: HostRuntime) -> Result<(), Fail> {
    let mut trial = worked(rt.alloc(), RandomState::new(&rt)?)?;
    let mut is_closed_alone = false;
    // a byte of each page that the log has, and of some that it doesn't
    for page in 0..70usize {
        let at = 32 + page * 4120 + 2000;
        let (answered, would_commit) = served(&mut trial, damaged_files(rt.alloc(), at))?;
        is_closed_alone |= 0 < answered && answered < REQUESTS && would_commit;
    }
    assert!(rt; is_closed_alone);
    Ok(())
}
