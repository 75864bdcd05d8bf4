//! `errsysmods`, `missingfix` and `chain`: reports from files, without a desk.
ghost use Rattle.std.specs.Prelude.{◌≡◌, ◌++◌, ℕ, List, codes, length, map, option_map, string_bytes, IfErr, IfOk, IsSome, None, Ok, Some};
ghost use Rattle.file_reports.specs.Inputs.{IsOutOfMemory, IsFirstFault};
ghost use Rattle.file_reports.specs.Lists.{inputs_of};
ghost use Rattle.report_runs.specs.Reporting.{AreNamed, HasName, IsReadTold, IsReportOutput, IsReportRun, IsToldOf, input_fault_in, made_of, name_of};

use crate::amounts::read_text;
use catalogue::SourceFault;
use faults::AnyFault;
use file_reports::{
    Counts, Input, InputFault, Lists, Made, chain_report, err_report, missing_report,
};
use mcs_reader::Id;
use questions::Report;
use run_parts::{ReportFiles, exit_status, explain_fault, report, tell, tell_in, write_text};
use std::alloc::Global;
use std::io::{self, Write};

/// The question to files.
#[derive(Clone, Copy, Debug)]
pub enum Question {
    /// A report on a zone.
    Report(Report),
    /// The verdict on a SYSMOD in a zone.
    Chain(Id),
}

/// The question, the zone with its lists, and the names of all files.
#[derive(Clone, Copy, Debug)]
pub struct ReportAsked<'a, 'f> {
    pub question: Question,
    pub zone: Id,
    pub lists: Lists<'a>,
    pub files: &'f ReportFiles,
}

/// Prints a report of the publications and of a zone's lists. Returns the exit status.
///
/// The text is whole before its first byte is written. A fault goes to `errors` alone, as `FAULT`, its number, its line
/// or record, and the name of its file. If the files say so, `errors` also gets how much was read (`verbose`), and what
/// the fault means (`explain`).
pub fn run_report<W: Write, E: Write>(
    alloc: Global,
    asked: &ReportAsked<'_, '_>,
    publications: Vec<Vec<u8>>,
    writer: &mut W,
    errors: &mut E,
) -> u8
    requires { AreNamed asked.now.files.now
        (inputs_of asked.now.lists (map (λ body. body.items) publications.items)) }
    ensures { IsReportRun asked.now.files.now
        (made_of asked.now (map (λ body. body.items) publications.items))
        (W.contents writer.old) (W.contents writer.new)
        (E.contents errors.old) (E.contents errors.new) result }
{
    match print_report(alloc, asked, publications, writer) {
        Ok(counts) => {
            tell_read(alloc, errors, asked.files, counts);
            0
        }
        Err(told) => {
            let _ = tell_fault(errors, asked.files, told);
            explain_fault(errors, asked.files.explain, told.fault);
            exit_status(told.fault)
        }
    }
}

// Prints the report.
fn print_report<W: Write>(
    alloc: Global,
    asked: &ReportAsked<'_, '_>,
    publications: Vec<Vec<u8>>,
    writer: &mut W,
) -> Result<Counts, InputFault>
    ensures output { IsReportOutput (input_fault_in result)
        (made_of asked.now (map (λ body. body.items) publications.items))
        (W.contents writer.old) (W.contents writer.new) }
    ensures counts { IfOk result (λ counts. (text : List ℕ)
        × (made_of asked.now (map (λ body. body.items) publications.items) ≡ Ok (text, counts))) }
{
    match report_text(alloc, asked, publications) {
        Ok(made) => match write_text(writer, made.text.as_slice()) {
            Ok(()) => Ok(made.counts),
            Err(fault) => Err(of_no_input(AnyFault::from(fault))),
        },
        Err(told) => Err(told),
    }
}

// A fault that is in none of the inputs.
fn of_no_input(fault: AnyFault) -> InputFault
    ensures { result ≡ record { input = None; fault = fault } }
{
    InputFault { input: None, fault }
}

// The text of the report.
fn report_text(
    alloc: Global,
    asked: &ReportAsked<'_, '_>,
    publications: Vec<Vec<u8>>,
) -> Result<Made, InputFault>
    ensures made { IfOk result (λ made.
        made_of asked.now (map (λ body. body.items) publications.items) ≡ Ok (made.text.items, made.counts)) }
    ensures fault { IfErr result
        (IsFirstFault (made_of asked.now (map (λ body. body.items) publications.items))) }
{
    match asked.question {
        Question::Report(Report::ErrSysmods) => err_report(
            alloc,
            &asked.zone,
            asked.lists,
            publications,
        ),
        Question::Report(Report::MissingFix) => missing_report(
            alloc,
            &asked.zone,
            asked.lists,
            publications,
        ),
        Question::Chain(sysmod) => {
            let made = chain_report(alloc, &asked.zone, &sysmod, asked.lists, publications)?;
            with_line_end(made)
        }
    }
}

// The same with a line end after the text.
fn with_line_end(made: Made) -> Result<Made, InputFault>
    ensures text { IfOk result (λ line. line.text.items ≡ made.text.items ++ codes "\n") }
    ensures counts { IfOk result (λ line. line.counts ≡ made.counts) }
    ensures fault { IfErr result IsOutOfMemory }
{
    let Made { mut text, counts } = made;
    match text.push(b'\n') {
        Ok(()) => Ok(Made { text, counts }),
        Err(_) => Err(InputFault::from(SourceFault::Memory)),
    }
}

// Tells how much was read, if that is asked for.
fn tell_read<E: Write>(alloc: Global, errors: &mut E, files: &ReportFiles, counts: Counts)
    ensures { (text : List ℕ) → IsReadTold files.now.verbose (length files.now.publications.items)
        (Ok (text, counts)) (E.contents errors.old) (E.contents errors.new) }
{
    if !files.verbose {
        return;
    }
    if let Ok(line) = read_text(alloc, counts, files.publications.len()) {
        let _ = tell(errors, line.as_slice());
    }
}

// Writes a fault, with the name of its file.
fn tell_fault<E: Write>(errors: &mut E, files: &ReportFiles, told: InputFault) -> io::Result<()>
    requires { HasName files.now told.input }
    ensures { IsToldOf files.now told.fault told.input (E.contents errors.old) (E.contents errors.new) }
{
    match told.input {
        None => report(errors, told.fault),
        Some(input) => tell_in(errors, told.fault, name_in(files, input)),
    }
}

// The name of an input's file.
fn name_in(files: &ReportFiles, input: Input) -> &str
    requires { IsSome (name_of files.now input) }
    ensures { name_of files.now input ≡ Some result.now }
{
    match input {
        Input::Zone => files.zone.as_str(),
        Input::Categories => text_in(&files.categories),
        Input::Received => text_in(&files.received),
        Input::Publication(index) => files.publications[index].as_str(),
    }
}

// The text, or an empty one if there is none.
fn text_in(text: &Option<String>) -> &str
    requires { IsSome (option_map string_bytes text.now) }
    ensures { option_map string_bytes text.now ≡ Some result.now }
{
    match text {
        Some(text) => text.as_str(),
        None => unreachable!(),
    }
}
