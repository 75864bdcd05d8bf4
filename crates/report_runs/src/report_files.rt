//! The files of a report, and their bytes.
ghost use Rattle.std.specs.Prelude.{◌≡◌, ◌↔◌, ◌<◌, ◌≤◌, ℕ, List, Option, [], ◌∷◌, length, map, option_map, string_bytes, IfErr, IfOk, IsTrue};
ghost use Rattle.std.specs.Option.{option_and_then, option_to_list};
ghost use Rattle.faults.specs.Refusal.{IsRefusal};
ghost use Rattle.mcs_reader.specs.Id.{id_of};
ghost use Rattle.faults.specs.declared.fault.Cause.TheVariants.{Machine};
ghost use Rattle.report_runs.specs.Contents.{IsToldAs, IsUnread, inputs_in};
ghost use Rattle.run_parts.specs.Outputs.{IsMeant, outputs_of};
ghost use Rattle.report_runs.specs.ReportFiles.{AreInputs, AreRead, IsChain, IsRead, IsReadIfGiven, IsReport, IsTakenBy, name_of_file, names_in, standard_inputs, times_standard_input, zone_of};
ghost use Rattle.report_runs.specs.Reporting.{AreNamed, IsReportRun, made_by};

use crate::holds::read_input;
use crate::reporting::{Question, ReportAsked, run_report};
use faults::{AnyFault, NoMemory};
use file_reports::Lists;
use mcs_reader::Id;
use run_parts::{
    Files, ProgramFault, ReportFiles, exit_status, explain, explain_fault, is_standard_input,
    report, tell_in,
};
use std::alloc::{AllocFailed, Global};
use std::io::{Read, Write};
use std::path::Path;
use transfer::RETRIES;

// The bytes of a report's files.
#[derive(Drop)]
pub(crate) struct Contents {
    pub(crate) zone: Vec<u8>,
    pub(crate) categories: Option<Vec<u8>>,
    pub(crate) received: Option<Vec<u8>>,
    pub(crate) publications: Vec<Vec<u8>>,
}

// Why not all files are read.
#[derive(Clone, Copy)]
pub(crate) enum Unread<'f> {
    // The file of this name can't be read.
    File(&'f str),
    Memory,
}

impl From<NoMemory> for Unread<'_> {
    ghost use Rattle.report_runs.specs.declared.report_files.Unread.TheVariants.{Memory};

    ghost from_gives = { λ _ unread. unread ≡ Memory };

    fn from(_: NoMemory) -> Self {
        Unread::Memory
    }
}

impl<T: Drop> From<AllocFailed<T>> for Unread<'_> {
    ghost use Rattle.report_runs.specs.declared.report_files.Unread.TheVariants.{Memory};

    ghost from_gives = { λ _ unread. unread ≡ Memory };

    fn from(_: AllocFailed<T>) -> Self {
        Unread::Memory
    }
}

/// Prints the verdict on the SYSMOD of this name. If that is no id, it says so, and the exit status is 2.
pub fn do_chain<S: Files, I: Read, O: Write, E: Write>(
    surroundings: &S,
    alloc: Global,
    sysmod: &str,
    files: &ReportFiles,
    input: &mut I,
    output: &mut O,
    errors: &mut E,
) -> u8
    ensures { IsChain (S.known_file surroundings.now) sysmod.now files.now
        (I.remaining input.old) (I.remaining input.new)
        (outputs_of O.contents E.contents output.old output.new errors.old errors.new) result }
{
    match Id::new(sysmod.as_bytes()) {
        Some(sysmod) => {
            let question = Question::Chain(sysmod);
            do_report(surroundings, alloc, question, files, input, output, errors)
        }
        None => explain(errors, "SYSMOD is no id: 1 to 7 of A-Z 0-9 @ # $\n"),
    }
}

/// Prints the answer to a question from these files. If the zone has no name, or a second file is `-`, it reads nothing
/// and the exit status is 2.
pub fn do_report<S: Files, I: Read, O: Write, E: Write>(
    surroundings: &S,
    alloc: Global,
    question: Question,
    files: &ReportFiles,
    input: &mut I,
    output: &mut O,
    errors: &mut E,
) -> u8
    ensures { IsReport (S.known_file surroundings.now) question files.now
        (I.remaining input.old) (I.remaining input.new)
        (outputs_of O.contents E.contents output.old output.new errors.old errors.new) result }
{
    let zone = match zone_name(alloc, files) {
        Ok(Some(zone)) => zone,
        Ok(None) => return explain(
            errors,
            "the zone has no name that is an id: give it with --name\n",
        ),
        Err(_) => return tell_unread(errors, files, Unread::Memory),
    };
    if is_read_twice(files) {
        return explain(errors, "standard input is one file: give - once\n");
    }
    match read_files(surroundings, alloc, files, input) {
        Ok(contents) => print(alloc, question, zone, files, contents, output, errors),
        Err(unread) => tell_unread(errors, files, unread),
    }
}

// Tells why not all files are read, and returns the exit status.
fn tell_unread<E: Write>(errors: &mut E, files: &ReportFiles, unread: Unread<'_>) -> u8
    ensures told { (line : Option (List ℕ)) × IsToldAs unread.entry (E.contents errors.old) line
        × IsMeant files.now.explain line (E.contents errors.new) }
    ensures status { result ≡ 3 }
{
    let fault = tell_line(errors, unread);
    explain_fault(errors, files.explain, fault);
    exit_status(fault)
}

// Tells the fault, with the name of its file.
fn tell_line<E: Write>(errors: &mut E, unread: Unread<'_>) -> AnyFault
    ensures told { IsToldAs unread.entry (E.contents errors.old) (E.contents errors.new) }
    ensures cause { result.cause ≡ Machine }
{
    match unread {
        Unread::File(name) => {
            let fault = AnyFault::from(ProgramFault::NotRead);
            let _ = tell_in(errors, fault, name);
            fault
        }
        Unread::Memory => {
            let fault = AnyFault::from(ProgramFault::Memory);
            let _ = report(errors, fault);
            fault
        }
    }
}

// Prints the answer to a question from the bytes of the files.
fn print<O: Write, E: Write>(
    alloc: Global,
    question: Question,
    zone: Id,
    files: &ReportFiles,
    contents: Contents,
    output: &mut O,
    errors: &mut E,
) -> u8
    requires { AreNamed files.now (inputs_in contents) }
    ensures { IsReportRun files.now (made_by question zone (inputs_in contents))
        (O.contents output.old) (O.contents output.new)
        (E.contents errors.old) (E.contents errors.new) result }
{
    let Contents {
        zone: rows,
        categories: patterns,
        received: ids,
        publications,
    } = contents;
    let (categories, received) = (bytes_of(&patterns), bytes_of(&ids));
    let lists = Lists {
        zone: rows.as_slice(),
        categories,
        received,
    };
    let asked = ReportAsked {
        question,
        zone,
        lists,
        files,
    };
    run_report(alloc, &asked, publications, output, errors)
}

// The bytes, if there are any.
fn bytes_of(bytes: &Option<Vec<u8>>) -> Option<&[u8]>
    ensures { option_map (λ bytes. bytes.now) result ≡ option_map (λ bytes. bytes.items) bytes.now }
{
    match bytes {
        Some(bytes) => Some(bytes.as_slice()),
        None => None,
    }
}

// Reads the bytes of the files, one after the other, with 64 retries in all.
fn read_files<'f, S: Files, I: Read>(
    surroundings: &S,
    alloc: Global,
    files: &'f ReportFiles,
    input: &mut I,
) -> Result<Contents, Unread<'f>>
    ensures inputs { IfOk result (λ contents. AreInputs (S.known_file surroundings.now) files.now
        (inputs_in contents) (I.remaining input.old) (I.remaining input.new)) }
    ensures fault { IfErr result (IsUnread (S.known_file surroundings.now) (names_in files.now)
        (I.remaining input.old) (I.remaining input.new)) }
{
    let mut retries = RETRIES;
    let zone = read_named(
        surroundings,
        alloc,
        files.zone.as_str(),
        input,
        &mut retries,
    )?;
    let categories = read_given(surroundings, alloc, &files.categories, input, &mut retries)?;
    let received = read_given(surroundings, alloc, &files.received, input, &mut retries)?;
    let names = files.publications.as_slice();
    let publications = read_all(surroundings, alloc, names, input, &mut retries)?;
    Ok(Contents {
        zone,
        categories,
        received,
        publications,
    })
}

// Reads the bytes of each file, in their order.
fn read_all<'f, S: Files, I: Read>(
    surroundings: &S,
    alloc: Global,
    names: &'f [String],
    input: &mut I,
    retries: &mut u32,
) -> Result<Vec<Vec<u8>>, Unread<'f>>
    ensures read { IfOk result (λ all. AreRead (S.known_file surroundings.now)
        (map string_bytes names.now) (map (λ bytes. bytes.items) all.items)
        (I.remaining input.old) (I.remaining input.new)) }
    ensures fault { IfErr result (IsUnread (S.known_file surroundings.now)
        (map string_bytes names.now) (I.remaining input.old) (I.remaining input.new)) }
{
    let mut all = Vec::with_capacity(alloc, names.len())?;
    for name in names {
        all.push(read_named(surroundings, alloc, name.as_str(), input, retries)?)?;
    }
    Ok(all)
}

// Reads the bytes of a file, if one is given.
fn read_given<'f, S: Files, I: Read>(
    surroundings: &S,
    alloc: Global,
    name: &'f Option<String>,
    input: &mut I,
    retries: &mut u32,
) -> Result<Option<Vec<u8>>, Unread<'f>>
    ensures read { IfOk result (λ bytes. IsReadIfGiven (S.known_file surroundings.now)
        (option_map string_bytes name.now) (option_map (λ bytes. bytes.items) bytes)
        (I.remaining input.old) (I.remaining input.new)) }
    ensures fault { IfErr result (IsUnread (S.known_file surroundings.now)
        (option_to_list (option_map string_bytes name.now))
        (I.remaining input.old) (I.remaining input.new)) }
{
    match name {
        Some(name) => {
            let bytes = read_named(surroundings, alloc, name.as_str(), input, retries)?;
            Ok(Some(bytes))
        }
        None => Ok(None),
    }
}

// Reads the bytes of a file, or of standard input, and tells which file can't be read.
fn read_named<'f, S: Files, I: Read>(
    surroundings: &S,
    alloc: Global,
    name: &'f str,
    input: &mut I,
    retries: &mut u32,
) -> Result<Vec<u8>, Unread<'f>>
    ensures read { IfOk result (λ bytes. IsRead (S.known_file surroundings.now) name.now bytes.items
        (I.remaining input.old) (I.remaining input.new)) }
    ensures fault { IfErr result (IsUnread (S.known_file surroundings.now) (name.now ∷ [])
        (I.remaining input.old) (I.remaining input.new)) }
{
    match read_one(surroundings, alloc, name, input, retries) {
        Ok(bytes) => Ok(bytes),
        Err(ProgramFault::Memory) => Err(Unread::Memory),
        Err(_) => Err(Unread::File(name)),
    }
}

// Reads the bytes of a file, or of standard input if the name is `-`: all of them, or one byte more than an input may
// have.
fn read_one<S: Files, I: Read>(
    surroundings: &S,
    alloc: Global,
    name: &str,
    input: &mut I,
    retries: &mut u32,
) -> Result<Vec<u8>, ProgramFault>
    ensures read { IfOk result (λ bytes. IsRead (S.known_file surroundings.now) name.now bytes.items
        (I.remaining input.old) (I.remaining input.new)) }
    ensures fault { IfErr result (IsRefusal ProgramFault.Memory (λ fault. fault ≡ ProgramFault.NotRead)) }
    ensures err { IfErr result (λ _. IsTakenBy name.now (I.remaining input.old) (I.remaining input.new)) }
{
    if is_standard_input(name) {
        return read_input(alloc, input, retries);
    }
    match surroundings.open(name) {
        Ok(mut source) => read_input(alloc, &mut source, retries),
        Err(_) => Err(ProgramFault::NotRead),
    }
}

// The id of the zone: the name that is given, or else that of its file.
fn zone_name(alloc: Global, files: &ReportFiles) -> Result<Option<Id>, NoMemory>
    ensures { IfOk result (λ zone. zone ≡ zone_of files.now) }
{
    match &files.name {
        Some(name) => Ok(Id::new(name.as_bytes())),
        None => id_of_file(alloc, files.zone.as_str()),
    }
}

// The name of a file without its folder, up to its first period and in upper case, if that is an id.
fn id_of_file(alloc: Global, file: &str) -> Result<Option<Id>, NoMemory>
    ensures { IfOk result (λ id. id ≡ option_and_then id_of (name_of_file file.now)) }
{
    let Some(prefix) = Path::new(file).file_prefix() else {
        return Ok(None);
    };
    let name = prefix.to_ascii_uppercase(alloc)?;
    Ok(Id::new(name.as_bytes()))
}

// Whether more than one of the names is `-`.
fn is_read_twice(files: &ReportFiles) -> bool
    ensures { IsTrue result ↔ (1 < times_standard_input files.now) }
{
    let lists = once(files.zone.as_str())
        + once_given(&files.categories)
        + once_given(&files.received);
    lists.saturating_add(standard_inputs_in(files.publications.as_slice())) > 1
}

// 1 if the name is `-`, and else 0.
fn once(name: &str) -> usize
    ensures times { result ≡ length (standard_inputs (name.now ∷ [])) }
    ensures bound { result ≤ 1 }
{
    if is_standard_input(name) { 1 } else { 0 }
}

fn once_given(name: &Option<String>) -> usize
    ensures times { result ≡ length (standard_inputs (option_to_list (option_map string_bytes name.now))) }
    ensures bound { result ≤ 1 }
{
    match name {
        Some(name) => once(name.as_str()),
        None => 0,
    }
}

// The number of names that are `-`.
fn standard_inputs_in(names: &[String]) -> usize
    ensures { result ≡ length (standard_inputs (map string_bytes names.now)) }
{
    let mut count = 0;
    for name in names {
        count += once(name.as_str());
    }
    count
}
