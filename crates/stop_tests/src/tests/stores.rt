//! Stores in files.
//!
//! Each call with a contract of its own has a function of its own that promises little, so that no proof carries
//! much along. Of the functions that speak of files on a device, only `visited` and `files_of` call those that speak
//! of any database: each such call has all of a store in files proved to be one.
use super::script::Checked;
use super::trial::{Course, Trial};
use bureau_sql::{SqlStore, find_store, init, migrate};
use bureau_store::{CallerRow, StoreFault};
use sqlite::{Alter, Connection, Error, ErrorCode, FileStore, Files, Options};
use sqlite_disk::Disk;
use std::alloc::Global;

/// A connection over files.
pub(crate) type Opened<D> = Connection<FileStore<D>>;

/// The number of pages after which the log is copied into the database file: a few times while a script is served.
pub(crate) const SHORT_LOG: usize = 8;

// Few pages are kept in memory, so that the files are read often.
fn options(log_pages: usize) -> Options {
    Options {
        cache_pages: 2,
        spill_pages: 2000,
        checkpoint_frames: log_pages,
        seed: 1,
    }
}

/// Opens a connection to these files. The log is copied after so many pages. After a refusal it returns the files as
/// they are.
pub(crate) fn connected<D: Disk + Drop>(
    alloc: Global,
    files: Files<D>,
    log_pages: usize,
) -> Result<Opened<D>, Files<D>> {
    if !files.may_be_used() {
        return Err(files);
    }
    match Connection::open_files(alloc, files, options(log_pages)) {
        Ok(conn) => Ok(conn),
        Err((_, left)) => Err(left.into_files()),
    }
}

/// The files of a connection as they are, with nothing written anew.
pub(crate) fn files_of<D: Disk + Drop>(conn: Opened<D>) -> Files<D> {
    conn.into_store().close()
}

/// Drops a connection, and returns this error. It drops the files, since they cost less to prove than a connection.
pub(crate) fn given_up<D: Disk + Drop, T>(conn: Opened<D>, why: &'static str) -> Checked<T> {
    let _files = files_of(conn);
    Err(why)
}

/// The files of a connection after the log was copied into the database, or after the device failed in that.
pub(crate) fn closed<D: Disk + Drop>(conn: Opened<D>) -> Result<Files<D>, Files<D>> {
    match conn.close_files() {
        Ok(files) => Ok(files),
        Err((_, store)) => Err(store.close()),
    }
}

// A connection is not at rest. No step should be refused so.
const NOT_AT_REST: StoreFault = StoreFault::Memory;

/// The step that is made in a database before a desk is asked over it.
#[derive(Clone, Copy)]
pub(crate) enum Step {
    /// Makes a store with the callers in it.
    Init,
    /// Opens the store that is in it.
    Open,
    /// Makes the store of version 1 that is in it one of version 2.
    Migrate,
    /// Deletes, as something else than the bureau, what version 1 did not have.
    TakeBack,
    /// Commits a change after the connection says that its file is damaged. It is refused if the connection doesn't
    /// say so.
    Commit,
}

fn take_back<S: Alter>(conn: &mut Connection<S>) -> Result<(), StoreFault> {
    let texts = [
        "DROP TABLE sysmod_cond",
        "UPDATE bureau_version SET version = 1",
    ];
    for text in texts {
        if conn.execute(text, &[]).is_err() {
            return Err(StoreFault::Shape);
        }
    }
    Ok(())
}

fn says_damage<S: Alter>(conn: &mut Connection<S>) -> bool {
    let found = conn.query_all("SELECT count(*) FROM sysmod", &[]);
    matches!(found, Err(Error::SqliteFailure(ErrorCode::DatabaseCorrupt)))
}

fn commit<S: Alter>(conn: &mut Connection<S>) -> Result<(), StoreFault> {
    if !says_damage(conn) {
        return Err(StoreFault::Shape);
    }
    let text = "INSERT INTO caller (name, token) VALUES ('GAMMA', 'gamma-token')";
    match conn.execute(text, &[]) {
        Ok(_) => Ok(()),
        Err(_) => Err(StoreFault::Device),
    }
}

fn done<S: Alter>(
    conn: &mut Connection<S>,
    callers: &[CallerRow],
    step: Step,
) -> Result<(), StoreFault> {
    if !conn.is_autocommit() {
        return Err(NOT_AT_REST);
    }
    match step {
        Step::Init => init(conn, callers),
        Step::Open => find_store(conn),
        Step::Migrate => migrate(conn),
        Step::TakeBack => take_back(conn),
        Step::Commit => commit(conn),
    }
}

// The store of a connection; after a refusal the connection.
fn store_over<S: Alter + Drop>(
    alloc: Global,
    conn: Connection<S>,
) -> Result<SqlStore<S>, (StoreFault, Connection<S>)> {
    if !conn.is_autocommit() {
        return Err((NOT_AT_REST, conn));
    }
    Ok(SqlStore::over(alloc, conn))
}

// The store of a connection after this step; after a refusal the connection, and what was wrong.
fn store_after<S: Alter + Drop>(
    trial: &Trial,
    mut conn: Connection<S>,
    step: Step,
) -> Result<SqlStore<S>, (StoreFault, Connection<S>)> {
    match done(&mut conn, trial.callers.as_slice(), step) {
        Ok(()) => store_over(trial.alloc, conn),
        Err(fault) => Err((fault, conn)),
    }
}

/// The number of requests that were answered in a visit, or why the step was refused; and the connection, or the
/// files.
pub(crate) type Visited<C> = (Result<usize, StoreFault>, C);

// Asks a desk over the store that a connection has after this step.
fn visited_over<S: Alter + Drop>(
    trial: &mut Trial,
    conn: Connection<S>,
    step: Step,
    course: Course,
) -> Checked<Visited<Connection<S>>> {
    match store_after(trial, conn, step) {
        Ok(store) => {
            let (answered, store) = trial.asked_over(store, course)?;
            Ok((Ok(answered), store.into_connection()))
        }
        Err((fault, conn)) => Ok((Err(fault), conn)),
    }
}

/// Asks a desk over the store that a connection over files has after this step.
pub(crate) fn visited<D: Disk + Drop>(
    trial: &mut Trial,
    conn: Opened<D>,
    step: Step,
    course: Course,
) -> Checked<Visited<Opened<D>>> {
    visited_over(trial, conn, step, course)
}

/// The same over files that are opened for it, and left as they are then.
pub(crate) fn left<D: Disk + Drop>(
    trial: &mut Trial,
    files: Files<D>,
    step: Step,
    course: Course,
) -> Checked<Visited<Files<D>>> {
    match connected(trial.alloc, files, SHORT_LOG) {
        Ok(conn) => {
            let (answered, conn) = visited(trial, conn, step, course)?;
            Ok((answered, files_of(conn)))
        }
        Err(files) => Ok((Err(StoreFault::Device), files)),
    }
}
