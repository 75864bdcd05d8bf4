//! A device that fails at each of its calls in turn, while a store of version 1 is made one of version 2.
//!
//! The store that is found after the stop is of version 1, and is migrated then, or of version 2. Either way it has
//! all that it had, and the script goes on.
use super::files::{
    ALL, Calls, Device, Failing, Stoppable, after_kill, after_power_loss, copied, new_files,
};
use super::script::{Checked, OPENED_AGAIN};
use super::stores::{Opened, SHORT_LOG, Step, Visited, closed, connected, given_up, left, visited};
use super::trial::{Course, Stage, Trial, worked};
use bureau_store::StoreFault;
use sqlite::Files;
use sqlite_disk::Disk;
use std::alloc::Global;
use std::hash::RandomState;
use std::test::Fail;
use testing::assert_equal_at;

// The version that is found after a stop.
#[derive(Clone, Copy, Debug, PartialEq, Eq)]
enum Found {
    One,
    Two,
}

// Whether the store was migrated before a stop, and the versions that are found after the program ended and after a
// loss of power.
type Stop = (bool, Found, Found);

// A connection over which a store was made, and the script served up to the request at which the files are closed.
fn served<D: Disk + Drop>(trial: &mut Trial, conn: Opened<D>) -> Checked<Opened<D>> {
    match visited(trial, conn, Step::Init, Course::Part(0, OPENED_AGAIN))? {
        (Ok(OPENED_AGAIN), conn) => Ok(conn),
        (_, conn) => given_up(conn, "the first part of the script"),
    }
}

// The files of this connection, with a store of version 1.
fn taken_back<D: Disk + Drop>(trial: &mut Trial, conn: Opened<D>) -> Checked<Files<D>> {
    match visited(trial, conn, Step::TakeBack, Course::Nothing)? {
        (Ok(_), conn) => closed(conn).ok().ok_or("the files"),
        (Err(_), conn) => given_up(conn, "the tables of version 1"),
    }
}

// These files, which are new, with a store of version 1 over which the script was served up to the request at which
// the files are closed.
fn earlier<D: Disk + Drop>(trial: &mut Trial, files: Files<D>) -> Checked<Files<D>> {
    match connected(trial.alloc, files, SHORT_LOG) {
        Ok(conn) => {
            let conn = served(trial, conn)?;
            taken_back(trial, conn)
        }
        Err(_) => Err("a connection"),
    }
}

fn earlier_files(trial: &mut Trial) -> Checked<Files<Device>> {
    earlier(trial, new_files(trial.alloc, ALL))
}

// The script was served up to the request at which the files are closed.
const MIGRATED: Stage = Stage {
    answered: OPENED_AGAIN,
    on_their_way: 0,
};

// Lets the store in these files go on with the script.
fn goes_on<D: Disk + Drop>(
    trial: &mut Trial,
    files: Files<D>,
    step: Step,
) -> Checked<Visited<Files<D>>> {
    left(trial, files, step, Course::Rest(MIGRATED))
}

fn goes_on_migrated<D: Disk + Drop>(trial: &mut Trial, files: Files<D>) -> Checked<Found> {
    match goes_on(trial, files, Step::Migrate)? {
        (Ok(_), _) => Ok(Found::One),
        (Err(_), _) => Err("a store of version 1 is not migrated"),
    }
}

// Checks that nothing of what was served is lost in these files, and returns their version.
fn version_in<D: Disk + Drop>(trial: &mut Trial, files: Files<D>) -> Checked<Found> {
    match goes_on(trial, files, Step::Open)? {
        (Ok(_), _) => Ok(Found::Two),
        (Err(StoreFault::Version), files) => goes_on_migrated(trial, files),
        (Err(_), _) => Err("open is refused for another reason"),
    }
}

// Checks that nothing is lost in these files, which are of version 2 if that was acknowledged, and returns their
// version.
fn look<D: Disk + Drop>(trial: &mut Trial, is_done: bool, files: Files<D>) -> Checked<Found> {
    let found = version_in(trial, files)?;
    if is_done && found == Found::One {
        return Err("what was acknowledged is lost");
    }
    Ok(found)
}

// Migrates the store in these files. Returns whether that was done, and the files.
fn tried<D: Disk + Drop>(trial: &mut Trial, files: Files<D>) -> Checked<(bool, Files<D>)> {
    match left(trial, files, Step::Migrate, Course::Nothing)? {
        (Ok(_), files) => Ok((true, files)),
        (Err(StoreFault::Device), files) => Ok((false, files)),
        (Err(_), _) => Err("migrate is refused for another reason"),
    }
}

// Lets these files fail.
fn stopped<D: Stoppable>(trial: &mut Trial, files: Files<D>) -> Checked<Stop> {
    let (is_done, files) = tried(trial, files)?;
    let killed = after_kill(trial.alloc, &files)?;
    let killed = look(trial, is_done, killed)?;
    let crashed = look(trial, is_done, after_power_loss(files))?;
    Ok((is_done, killed, crashed))
}

// Lets copies of these files fail after so many calls.
fn copies_stopped<D: Stoppable>(
    trial: &mut Trial,
    files: &Files<D>,
    calls: Calls,
) -> Checked<Stop> {
    stopped(trial, copied(trial.alloc, files, calls)?)
}

fn stopped_after<D: Stoppable>(
    trial: &mut Trial,
    files: &Files<D>,
    failing: Failing,
    calls: u64,
) -> Result<Stop, Fail> {
    match copies_stopped(trial, files, failing.after(calls)) {
        Ok(stop) => Ok(stop),
        Err(why) => Err(Fail::new(format_args!("{why}, after {calls} calls"))),
    }
}

// Adds what is found as each call of one of the files fails in turn, until none does.
fn put_stops<D: Stoppable>(
    stops: &mut Vec<Stop>,
    trial: &mut Trial,
    files: &Files<D>,
    failing: Failing,
) -> Result<(), Fail> {
    for calls in 0..10_000u64 {
        let stop = stopped_after(trial, files, failing, calls)?;
        stops.push(stop)?;
        if stop.0 {
            return Ok(());
        }
    }
    Err("migrate never runs through".into())
}

// Checks that these are among what is found as each call of one of these files fails in turn.
fn assert_stops_of<D: Stoppable>(
    trial: &mut Trial,
    files: &Files<D>,
    failing: Failing,
    wanted: &[Stop],
) -> Result<(), Fail> {
    let mut stops = Vec::new(trial.alloc);
    put_stops(&mut stops, trial, files, failing)?;
    assert_among(stops.as_slice(), wanted)
}

// The same of files with a store of version 1.
fn assert_stops(trial: &mut Trial, failing: Failing, wanted: &[Stop]) -> Result<(), Fail> {
    let files = earlier_files(trial)?;
    assert_stops_of(trial, &files, failing, wanted)
}

fn assert_among(stops: &[Stop], wanted: &[Stop]) -> Result<(), Fail> {
    for stop in wanted {
        assert_equal_at(*stop, stops.contains(stop), true)?;
    }
    Ok(())
}

static OF_LOG: [Stop; 3] = [
    (false, Found::One, Found::One),
    (false, Found::Two, Found::One),
    (true, Found::Two, Found::Two),
];

static OF_DATABASE: [Stop; 2] = [
    (false, Found::One, Found::One),
    (true, Found::Two, Found::Two),
];

#[test]
fn a_migration_is_whole_or_nothing_where_the_log_fails(rt: HostRuntime) -> Result<(), Fail> {
    let mut trial = worked(rt.alloc(), RandomState::new(&rt)?)?;
    assert_stops(&mut trial, Failing::Log, &OF_LOG)
}

#[test]
fn a_migration_is_whole_or_nothing_where_the_database_fails(rt: HostRuntime) -> Result<(), Fail> {
    let mut trial = worked(rt.alloc(), RandomState::new(&rt)?)?;
    assert_stops(&mut trial, Failing::Database, &OF_DATABASE)
}
