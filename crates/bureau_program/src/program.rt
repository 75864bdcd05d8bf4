//! A run of the program: it does what its words say, over files and the three streams.
ghost use Rattle.std.specs.Prelude.{◌≡◌, map, string_bytes, IfErr, IfOk, IfSome};
ghost use Rattle.faults.specs.Refusal.{IsRefusal};
ghost use Rattle.sqlite_wal.specs.Files.{image_at};
ghost use Rattle.run_parts.specs.Files.{AreContents, IsContent};
ghost use Rattle.run_parts.specs.Outputs.{outputs_of};
ghost use Rattle.bureau_program.specs.Program.{IsAnswered, IsReplay, IsRun, IsUnderstoodAs, found_in, seen_by};

use crate::replay::run_replay;
use crate::serving::{Service, run_serve};
use crate::surroundings::Surroundings;
use command_line::{Line, LineFault, line_of};
use questions::Report;
use report_runs::{Question, do_chain, do_holds, do_report};
use run_parts::{ProgramFault, explain, read_file, refuse};
use sqlite::Start;
use std::alloc::Global;
use std::io::{Read, Write};
use store_runs::{Ended, StoreFile, Stores, callers_file, check_file, do_init, migrate_file};
use transfer::RETRIES;

/// Does what the words of the command line say, and returns the exit status, and what is left of a store's files.
///
/// It reads standard input only if `-` stands for a FILE of `holds` or of a report. It opens every other FILE by its
/// name. Output goes to standard output, and a fault's line to standard error. Connections come only if the line is
/// one of `serve`. Where someone looks on, a report and `check` tell more, as with their options. The run asks for the line's STORE, once, and for no other store. `start` stands for what its files
/// hold as the run begins.
pub fn run<S: Surroundings, T: Stores, D: Start, I: Read, O: Write, E: Write>(
    surroundings: &mut S,
    stores: &mut T,
    alloc: Global,
    start: D,
    input: &mut I,
    output: &mut O,
    errors: &mut E,
) -> (u8, Ended<StoreFile<D, T::Place>>)
    ensures { IsRun (S.known_words surroundings.old) (S.known_watched surroundings.old)
        (found_in (S.known_file surroundings.old) (T.asked stores.old) (T.asked stores.new)
        (S.known_port surroundings.old) (S.is_over surroundings.new)
        (S.log surroundings.old) (S.log surroundings.new))
        (image_at D.Start)
        (I.remaining input.old) (I.remaining input.new)
        (outputs_of O.contents E.contents output.old output.new errors.old errors.new)
        result.0 result.1 }
{
    let line = line_asked(surroundings, alloc);
    let line = seen_by(surroundings.is_watched(), line);
    let done = answer(
        surroundings,
        stores,
        alloc,
        &line,
        start,
        input,
        output,
        errors,
    );
    // Drops it by a call, which is proved once. At the end of the scope each text of each command would be dropped
    // here.
    drop(line);
    done
}

// The line that the words are understood as.
fn line_asked<S: Surroundings>(surroundings: &S, alloc: Global) -> Result<Line, LineFault>
    ensures { IfSome (S.known_words surroundings.now) (λ known. IsUnderstoodAs known result) }
{
    match surroundings.words(alloc) {
        Ok(words) => line_of(alloc, words.as_slice()),
        Err(fault) => Err(fault),
    }
}

// The line as it is done where someone looks on, or as it is.
fn seen_by(watched: bool, line: Result<Line, LineFault>) -> Result<Line, LineFault>
    ensures { result ≡ seen_by watched line }
{
    match line {
        Ok(line) => Ok(if watched { line.seen() } else { line }),
        Err(fault) => Err(fault),
    }
}

// Does what a line says.
fn answer<S: Surroundings, T: Stores, D: Start, I: Read, O: Write, E: Write>(
    surroundings: &mut S,
    stores: &mut T,
    alloc: Global,
    line: &Result<Line, LineFault>,
    start: D,
    input: &mut I,
    output: &mut O,
    errors: &mut E,
) -> (u8, Ended<StoreFile<D, T::Place>>)
    ensures { IsAnswered
        (found_in (S.known_file surroundings.old) (T.asked stores.old) (T.asked stores.new)
        (S.known_port surroundings.old) (S.is_over surroundings.new)
        (S.log surroundings.old) (S.log surroundings.new))
        (image_at D.Start) line.now
        (I.remaining input.old) (I.remaining input.new)
        (outputs_of O.contents E.contents output.old output.new errors.old errors.new)
        result.0 result.1 }
{
    match line {
        Ok(Line::Holds { file }) => {
            let status = do_holds(surroundings, alloc, file.as_str(), input, output, errors);
            (status, Ended::Nothing)
        }
        Ok(
            Line::Replay {
                cache,
                callers,
                files,
            },
        ) => {
            let (callers, files) = (callers.as_str(), files.as_slice());
            let status = do_replay(surroundings, alloc, *cache, callers, files, output, errors);
            (status, Ended::Nothing)
        }
        Ok(
            Line::Init {
                store,
                callers,
                sums,
            },
        ) => {
            let (store, callers) = (store.as_str(), callers.as_str());
            do_init(
                surroundings,
                stores,
                alloc,
                store,
                callers,
                *sums,
                start,
                output,
                errors,
            )
        }
        Ok(
            Line::Serve {
                port,
                cache,
                connections,
                most_open,
                memory,
                log,
                store,
            },
        ) => {
            let service = Service {
                port: *port,
                cache: *cache,
                connections: *connections,
                most_open: *most_open,
                memory: *memory,
                log: *log,
            };
            let store = store.as_str();
            run_serve(
                surroundings,
                stores,
                alloc,
                service,
                store,
                start,
                output,
                errors,
            )
        }
        Ok(Line::Migrate { store }) => {
            migrate_file(stores, alloc, store.as_str(), start, output, errors)
        }
        Ok(Line::ErrSysmods { files }) => {
            let question = Question::Report(Report::ErrSysmods);
            let status = do_report(surroundings, alloc, question, files, input, output, errors);
            (status, Ended::Nothing)
        }
        Ok(Line::MissingFix { files }) => {
            let question = Question::Report(Report::MissingFix);
            let status = do_report(surroundings, alloc, question, files, input, output, errors);
            (status, Ended::Nothing)
        }
        Ok(Line::Chain { sysmod, files }) => {
            let sysmod = sysmod.as_str();
            let status = do_chain(surroundings, alloc, sysmod, files, input, output, errors);
            (status, Ended::Nothing)
        }
        Ok(Line::Callers { store, callers }) => {
            let (store, callers) = (store.as_str(), callers.as_str());
            callers_file(
                surroundings,
                stores,
                alloc,
                store,
                callers,
                start,
                output,
                errors,
            )
        }
        Ok(Line::Check { store, explain }) => {
            let store = store.as_str();
            check_file(stores, alloc, store, *explain, start, output, errors)
        }
        Err(LineFault::Words(text)) => (explain(errors, text.as_str()), Ended::Nothing),
        Err(LineFault::Memory) => (refuse(errors, ProgramFault::Memory), Ended::Nothing),
    }
}

// Serves the connections in files, with the callers of the callers file.
fn do_replay<S: Surroundings, O: Write, E: Write>(
    surroundings: &S,
    alloc: Global,
    cache: u32,
    callers: &str,
    files: &[String],
    output: &mut O,
    errors: &mut E,
) -> u8
    ensures { IsReplay (S.known_file surroundings.now) callers.now (map string_bytes files.now)
        (outputs_of O.contents E.contents output.old output.new errors.old errors.new) result }
{
    let (callers, connections) = match read_files(surroundings, alloc, callers, files) {
        Ok(read) => read,
        Err(fault) => return refuse(errors, fault),
    };
    match surroundings.random_keys() {
        Ok(keys) => {
            let callers = callers.as_slice();
            run_replay(alloc, callers, connections, cache, keys, output, errors)
        }
        Err(_) => refuse(errors, ProgramFault::Memory),
    }
}

// Reads the callers file, and the file of each connection, in this order, with 64 retries in all.
fn read_files<S: Surroundings>(
    surroundings: &S,
    alloc: Global,
    callers: &str,
    files: &[String],
) -> Result<(Vec<u8>, Vec<Vec<u8>>), ProgramFault>
    ensures callers { IfOk result (λ read.
        IsContent (S.known_file surroundings.now callers.now) read.0.items) }
    ensures files { IfOk result (λ read. AreContents (S.known_file surroundings.now)
        (map string_bytes files.now)
        (map (λ file. file.items) read.1.items)) }
    ensures fault { IfErr result (IsRefusal ProgramFault.Memory (λ fault. fault ≡ ProgramFault.NotRead)) }
{
    let mut retries = RETRIES;
    let callers = read_file(surroundings, alloc, callers, &mut retries)?;
    let mut connections = Vec::with_capacity(alloc, files.len())?;
    for file in files {
        connections.push(read_file(surroundings, alloc, file.as_str(), &mut retries)?)?;
    }
    Ok((callers, connections))
}
