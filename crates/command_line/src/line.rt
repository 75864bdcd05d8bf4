//! The words of a command line, read with `clap`.
ghost use Rattle.std.specs.Prelude.{◌≡◌, ◌≢◌, [], codes, map, string_bytes, IfErr, IfOk, OnOk};
ghost use Rattle.clap.specs.Words.{fault_of, kind_of, subcommand_rows_of};
ghost use Rattle.faults.specs.Refusal.{IsRefusal};
ghost use Rattle.command_line.specs.Line.{bureau_app, HasOneLine, IsLineOf, seen, telling_all};
ghost use Rattle.command_line.specs.Wanted.{IsRead, IsReadAs, rows_in};
ghost use Rattle.command_line.specs.declared.line.Line.{Line};
ghost use Rattle.command_line.specs.declared.line.LineFault.TheVariants.{Memory};

use crate::commands::command;
use crate::values::{files, flag_with, number, port, text, texts};
use clap::ArgMatches;
use clap::error::ErrorKind;
use faults::NoMemory;
use run_parts::ReportFiles;
use std::alloc::Global;

/// The command of a command line, with its arguments.
#[derive(Debug, Drop)]
pub enum Line {
    /// `holds FILE`: prints the hold book of a file, or of standard input if FILE is `-`.
    Holds {
        file: String,
    },
    /// `init [--sums] STORE CALLERS`: makes a store in a file, with these callers. The pages of the file end in sums if
    /// `--sums` is given.
    Init {
        store: String,
        callers: String,
        sums: bool,
    },
    /// `serve --port P --cache N --connections K --open M --memory MIB --log STORE`: serves K connections to a port of
    /// 127.0.0.1, 1 to 65,535, side by side over the store in a file. N frames at most are kept, 1 to 65,536. K is 1 to
    /// 1,000,000, and M of them at most are open at once, 1 to 8,192. Bodies that come and replies that aren't read take
    /// so many MiB together at most, 128 to 65,536. It keeps a log if `--log` is given.
    Serve {
        port: u16,
        cache: u32,
        connections: u32,
        most_open: u32,
        memory: u32,
        log: bool,
        store: String,
    },
    /// `replay --cache N CALLERS FILE..`: writes the replies to connections whose bytes are in files, over a store in
    /// memory that has these callers. N frames at most are kept, 1 to 65,536.
    Replay {
        cache: u32,
        callers: String,
        files: Vec<String>,
    },
    /// `migrate STORE`: makes a store of version 1 in a file one of version 2.
    Migrate {
        store: String,
    },
    /// `errsysmods --zone ZONE [--received R] [--name NAME] [--verbose] [--explain] FILE..`: prints the exception SYSMOD report on a zone.
    ErrSysmods {
        files: ReportFiles,
    },
    /// `missingfix --zone ZONE --categories C [--received R] [--name NAME] [--verbose] [--explain] FILE..`: prints the missing fix report on
    /// a zone.
    MissingFix {
        files: ReportFiles,
    },
    /// `chain --zone ZONE [--name NAME] [--verbose] [--explain] SYSMOD FILE..`: prints the verdict on a SYSMOD in a zone.
    Chain {
        sysmod: String,
        files: ReportFiles,
    },
    /// `callers STORE CALLERS`: gives the store in a file these callers, and no others.
    Callers {
        store: String,
        callers: String,
    },
    /// `check [--explain] STORE`: looks through the store in a file, and leaves it as it is. If `--explain` is given,
    /// standard error is told what a fault means.
    Check {
        store: String,
        explain: bool,
    },
}

impl Line {
    /// The line as it is done where someone looks on, as if it had the options that tell more. A report tells how much
    /// it read. It and `check` tell what a fault means.
    pub fn seen(self) -> Line
        ensures { result ≡ seen self }
    {
        match self {
            Line::ErrSysmods { files } => Line::ErrSysmods {
                files: telling_all(files),
            },
            Line::MissingFix { files } => Line::MissingFix {
                files: telling_all(files),
            },
            Line::Chain { sysmod, files } => Line::Chain {
                sysmod,
                files: telling_all(files),
            },
            Line::Check { store, explain: _ } => Line::Check {
                store,
                explain: true,
            },
            line => line,
        }
    }
}

// The files of a report that tells how much it read, and what a fault means.
fn telling_all(files: ReportFiles) -> ReportFiles
    ensures { result ≡ telling_all files }
{
    ReportFiles {
        verbose: true,
        explain: true,
        ..files
    }
}

/// Why words are no line.
#[derive(Debug, Drop)]
pub enum LineFault {
    /// The command line is wrong, or asks for help: the text for the user.
    Words(String),
    /// Memory ran out.
    Memory,
}

impl LineFault {
    // The text of these words, if there is memory for it.
    pub(crate) fn in_words(text: Result<String, NoMemory>) -> LineFault {
        match text {
            Ok(text) => LineFault::Words(text),
            Err(_) => LineFault::Memory,
        }
    }
}

impl From<NoMemory> for LineFault {
    ghost from_gives = { λ _ fault. fault ≡ Memory };

    fn from(_: NoMemory) -> LineFault {
        LineFault::Memory
    }
}

/// Reads the words after the program's name.
pub fn line_of(alloc: Global, words: &[String]) -> Result<Line, LineFault>
    ensures line { IfOk result (λ line. IsLineOf (map string_bytes words.now) line) }
    ensures understood { OnOk result (fault_of bureau_app (map string_bytes words.now) ≡ []) }
    ensures one_line { HasOneLine (map string_bytes words.now) }

    // If clap understands the words, and their matches are a line's, they are refused only for want of memory.
    ensures refused { IfErr result (IsRefusal Memory
        (λ _. (line : Line) → IsLineOf (map string_bytes words.now) line
        → fault_of bureau_app (map string_bytes words.now) ≢ [])) }
{
    match command(alloc)?.try_get_matches_from(words) {
        Ok(matches) => line_in(alloc, &matches),
        Err(error) => Err(told(alloc, &error)),
    }
}

// The line that matches give.
fn line_in(alloc: Global, matches: &ArgMatches) -> Result<Line, LineFault>
    ensures { IsRead (subcommand_rows_of matches.now) result }
{
    match matches.subcommand() {
        Some((name, found)) => line_with(alloc, name, found),
        None => Err(unnamed(alloc)),
    }
}

// The line of the command of this name, by its matches.
fn line_with(alloc: Global, name: &str, matches: &ArgMatches) -> Result<Line, LineFault>
    ensures { IsReadAs name.now (rows_in matches.now) result }
{
    match name {
        "holds" => holds_with(alloc, matches),
        "init" => init_with(alloc, matches),
        "serve" => serve_with(alloc, matches),
        "replay" => replay_with(alloc, matches),
        "migrate" => migrate_with(alloc, matches),
        "errsysmods" => err_sysmods_with(alloc, matches),
        "missingfix" => missing_fix_with(alloc, matches),
        "chain" => chain_with(alloc, matches),
        "callers" => callers_with(alloc, matches),
        "check" => check_with(alloc, matches),
        _ => Err(unnamed(alloc)),
    }
}

fn holds_with(alloc: Global, matches: &ArgMatches) -> Result<Line, LineFault>
    ensures { IsReadAs (codes "holds") (rows_in matches.now) result }
{
    Ok(Line::Holds {
        file: text(alloc, matches, "holds", "file")?,
    })
}

fn init_with(alloc: Global, matches: &ArgMatches) -> Result<Line, LineFault>
    ensures { IsReadAs (codes "init") (rows_in matches.now) result }
{
    Ok(Line::Init {
        store: text(alloc, matches, "init", "store")?,
        callers: text(alloc, matches, "init", "callers")?,
        sums: flag_with(matches, "sums"),
    })
}

fn serve_with(alloc: Global, matches: &ArgMatches) -> Result<Line, LineFault>
    ensures { IsReadAs (codes "serve") (rows_in matches.now) result }
{
    Ok(Line::Serve {
        port: port(alloc, matches)?,
        cache: number(alloc, matches, "serve", "cache", 1, 65_536)?,
        connections: number(alloc, matches, "serve", "connections", 1, 1_000_000)?,
        most_open: number(alloc, matches, "serve", "open", 1, 8192)?,
        memory: number(alloc, matches, "serve", "memory", 128, 65_536)?,
        log: flag_with(matches, "log"),
        store: text(alloc, matches, "serve", "store")?,
    })
}

fn replay_with(alloc: Global, matches: &ArgMatches) -> Result<Line, LineFault>
    ensures { IsReadAs (codes "replay") (rows_in matches.now) result }
{
    Ok(Line::Replay {
        cache: number(alloc, matches, "replay", "cache", 1, 65_536)?,
        callers: text(alloc, matches, "replay", "callers")?,
        files: texts(alloc, matches, "replay", "files")?,
    })
}

fn migrate_with(alloc: Global, matches: &ArgMatches) -> Result<Line, LineFault>
    ensures { IsReadAs (codes "migrate") (rows_in matches.now) result }
{
    Ok(Line::Migrate {
        store: text(alloc, matches, "migrate", "store")?,
    })
}

fn err_sysmods_with(alloc: Global, matches: &ArgMatches) -> Result<Line, LineFault>
    ensures { IsReadAs (codes "errsysmods") (rows_in matches.now) result }
{
    Ok(Line::ErrSysmods {
        files: files(alloc, matches, "errsysmods")?,
    })
}

fn missing_fix_with(alloc: Global, matches: &ArgMatches) -> Result<Line, LineFault>
    ensures { IsReadAs (codes "missingfix") (rows_in matches.now) result }
{
    Ok(Line::MissingFix {
        files: files(alloc, matches, "missingfix")?,
    })
}

fn chain_with(alloc: Global, matches: &ArgMatches) -> Result<Line, LineFault>
    ensures { IsReadAs (codes "chain") (rows_in matches.now) result }
{
    Ok(Line::Chain {
        sysmod: text(alloc, matches, "chain", "sysmod")?,
        files: files(alloc, matches, "chain")?,
    })
}

fn callers_with(alloc: Global, matches: &ArgMatches) -> Result<Line, LineFault>
    ensures { IsReadAs (codes "callers") (rows_in matches.now) result }
{
    Ok(Line::Callers {
        store: text(alloc, matches, "callers", "store")?,
        callers: text(alloc, matches, "callers", "callers")?,
    })
}

fn check_with(alloc: Global, matches: &ArgMatches) -> Result<Line, LineFault>
    ensures { IsReadAs (codes "check") (rows_in matches.now) result }
{
    Ok(Line::Check {
        store: text(alloc, matches, "check", "store")?,
        explain: flag_with(matches, "explain"),
    })
}

// The text if no command is named. clap lets no such words through.
fn unnamed(alloc: Global) -> LineFault {
    LineFault::in_words(String::from_str(alloc, "no command is named\n"))
}

// The text that clap has for an error.
fn told(alloc: Global, error: &clap::Error) -> LineFault
    ensures { kind_of error.now ≡ ErrorKind.OutOfMemory → result ≡ Memory }
{
    if error.kind() == ErrorKind::OutOfMemory {
        return LineFault::Memory;
    }
    LineFault::in_words(error.to_string(alloc))
}
