//! The values that the matches of a command have for its arguments.
ghost use Rattle.std.specs.Prelude.{◌≡◌, ℕ, codes, map, option_map, string_bytes, IfOk, IfSome, IsNone, MatchResult};
ghost use Rattle.clap.specs.Words.{all_of, first_of, one_of};
ghost use Rattle.command_line.specs.Line.{files_given, HasValues, IsNumberIn, IsPort, is_set};
ghost use Rattle.command_line.specs.Wanted.{IsUnread, WantsNumber, WantsText, WantsTexts, rows_in};

use crate::line::LineFault;
use clap::ArgMatches;
use faults::NoMemory;
use run_parts::ReportFiles;
use std::alloc::Global;

/// The names of a report's files. The matches have none for which the command has no argument.
pub fn files(alloc: Global, matches: &ArgMatches, command: &str) -> Result<ReportFiles, LineFault>
    requires zone { WantsText command.now (codes "zone") }
    requires publications { WantsTexts command.now (codes "files") }
    ensures { MatchResult result (λ files. HasValues (rows_in matches.now) (files_given files))
        (IsUnread command.now (rows_in matches.now)) }
{
    Ok(ReportFiles {
        zone: text(alloc, matches, command, "zone")?,
        categories: text_with(alloc, matches, "categories")?,
        received: text_with(alloc, matches, "received")?,
        name: text_with(alloc, matches, "name")?,
        verbose: flag_with(matches, "verbose"),
        explain: flag_with(matches, "explain"),
        publications: texts(alloc, matches, command, "files")?,
    })
}

/// The text of an argument, which each line of the command has.
pub fn text(
    alloc: Global,
    matches: &ArgMatches,
    command: &str,
    name: &str,
) -> Result<String, LineFault>
    requires { WantsText command.now name.now }
    ensures { MatchResult result (λ text. first_of name.now (rows_in matches.now) ≡ Some (string_bytes text))
        (IsUnread command.now (rows_in matches.now)) }
{
    match text_with(alloc, matches, name)? {
        Some(text) => Ok(text),
        None => Err(lacking(alloc, command, name)),
    }
}

/// The texts of an argument, which each line of the command has.
pub fn texts(
    alloc: Global,
    matches: &ArgMatches,
    command: &str,
    name: &str,
) -> Result<Vec<String>, LineFault>
    requires { WantsTexts command.now name.now }
    ensures { MatchResult result
        (λ texts. all_of name.now (rows_in matches.now) ≡ Some (map string_bytes texts.items))
        (IsUnread command.now (rows_in matches.now)) }
{
    match matches.get_strs(name) {
        Some(texts) => Ok(strings(alloc, texts)?),
        None => Err(lacking(alloc, command, name)),
    }
}

/// The number of an option, in its range, which each line of the command has.
pub fn number(
    alloc: Global,
    matches: &ArgMatches,
    command: &str,
    name: &str,
    least: u32,
    most: u32,
) -> Result<u32, LineFault>
    requires { WantsNumber command.now name.now least most }
    ensures { MatchResult result (IsNumberIn least most (one_of name.now (rows_in matches.now)))
        (IsUnread command.now (rows_in matches.now)) }
{
    match number_with(matches, name, least, most) {
        Some(number) => Ok(number),
        None => Err(lacking(alloc, command, name)),
    }
}

/// The port of `serve`.
pub fn port(alloc: Global, matches: &ArgMatches) -> Result<u16, LineFault>
    ensures { MatchResult result (IsPort (one_of (codes "port") (rows_in matches.now)))
        (IsUnread (codes "serve") (rows_in matches.now)) }
{
    match port_with(matches) {
        Some(port) => Ok(port),
        None => Err(lacking(alloc, "serve", "port")),
    }
}

// The text if a command lacks an argument. clap lets no such words through.
fn lacking(alloc: Global, command: &str, name: &str) -> LineFault {
    LineFault::in_words(format!(in alloc; "{command} lacks {name}\n"))
}

// The text of an argument, if it is given.
fn text_with(alloc: Global, matches: &ArgMatches, name: &str) -> Result<Option<String>, NoMemory>
    ensures { IfOk result (λ text. first_of name.now (rows_in matches.now) ≡ option_map string_bytes text) }
{
    match matches.get_str(name) {
        Some(text) => Ok(Some(String::from_str(alloc, text)?)),
        None => Ok(None),
    }
}

/// Whether a flag is set.
pub fn flag_with(matches: &ArgMatches, name: &str) -> bool
    ensures { result ≡ is_set (first_of name.now (rows_in matches.now)) }
{
    match matches.get_str(name) {
        Some(text) => text == "true",
        None => false,
    }
}

// The port. clap lets no other number through.
fn port_with(matches: &ArgMatches) -> Option<u16>
    ensures some { IfSome result (IsPort (one_of (codes "port") (rows_in matches.now))) }
    ensures none { IsNone result → (number : ℕ)
        → IsPort (one_of (codes "port") (rows_in matches.now)) number → ⊥ }
{
    let port = number_with(matches, "port", 1, 65_535)?;
    u16::try_from(port).ok()
}

// The number of an option, in its range. clap lets no other number through.
fn number_with(matches: &ArgMatches, name: &str, least: u32, most: u32) -> Option<u32>
    ensures some { IfSome result (IsNumberIn least most (one_of name.now (rows_in matches.now))) }
    ensures none { IsNone result → (number : ℕ)
        → IsNumberIn least most (one_of name.now (rows_in matches.now)) number → ⊥ }
{
    let number = matches.get_one::<u32>(name)?;
    if (least..=most).contains(&number) {
        Some(number)
    } else {
        None
    }
}

// The texts, each as a string of its own.
fn strings(alloc: Global, texts: &[&str]) -> Result<Vec<String>, NoMemory>
    ensures { IfOk result (λ strings. map string_bytes strings.items ≡ map (λ text. text.now) texts.now) }
{
    let mut strings = Vec::with_capacity(alloc, texts.len())?;
    for text in texts {
        strings.push(String::from_str(alloc, text)?)?;
    }
    Ok(strings)
}
