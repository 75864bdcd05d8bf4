//! The arguments of the commands, as rows, and how `clap` reads one.
ghost use Rattle.std.specs.Prelude.{◌≡◌, false};
ghost use Rattle.clap.specs.Words.{rule_of};
ghost use Rattle.command_line.specs.Commands.{rule_for};

use clap::{Arg, ArgAction};
use std::alloc::Global;

/// An argument of a command.
#[derive(Clone, Copy)]
pub struct Argument {
    /// The name by which it is found among the matches. An option has this name in the words too.
    pub name: &'static str,
    /// The form in which it is given.
    pub kind: Kind,
    /// Its text in the help.
    pub help: &'static str,
}

/// The form in which an argument is given. Its first part is the name that the help has for its value.
#[derive(Clone, Copy)]
pub enum Kind {
    /// `VALUE`: one value, which must be given.
    One(&'static str),
    /// `VALUE..`: one value or more, which must be given.
    Several(&'static str),
    /// `--NAME VALUE`: a text, which must be given.
    Text(&'static str),
    /// `--NAME VALUE`: a text, which may be left out.
    MaybeText(&'static str),
    /// `--NAME VALUE`: a number from one to another; if it isn't given, the number in the text.
    Number(&'static str, u32, u32, &'static str),
    /// `--NAME`: a flag.
    Flag,
}

/// `FILE` of `holds`
pub const FILE: Argument = Argument {
    name: "file",
    kind: Kind::One("FILE"),
    help: "The HOLDDATA to read; `-` is standard input",
};

/// `STORE`
pub const STORE: Argument = Argument {
    name: "store",
    kind: Kind::One("STORE"),
    help: "The file that keeps all that the desk has",
};

/// `CALLERS`
pub const CALLERS: Argument = Argument {
    name: "callers",
    kind: Kind::One("CALLERS"),
    help: "The callers of the desk: CSV with the header NAME,TOKEN",
};

/// `SYSMOD`
pub const SYSMOD: Argument = Argument {
    name: "sysmod",
    kind: Kind::One("SYSMOD"),
    help: "The SYSMOD whose chain is asked for",
};

/// `FILE..` of `replay`
pub const CONNECTION_FILES: Argument = Argument {
    name: "files",
    kind: Kind::Several("FILE"),
    help: "The bytes of a connection to the desk: HTTP/1.1 requests one after the other",
};

/// `FILE..` of a report
pub const PUBLICATIONS: Argument = Argument {
    name: "files",
    kind: Kind::Several("FILE"),
    help: "HOLDDATA, SYSMODs or both, in the order in which they are published; `-` is standard input",
};

/// `--zone ZONE`
pub const ZONE: Argument = Argument {
    name: "zone",
    kind: Kind::Text("ZONE"),
    help: "The SYSMODs of the zone: CSV with the header SYSMOD,STATE",
};

/// `--categories CATEGORIES`
pub const CATEGORIES: Argument = Argument {
    name: "categories",
    kind: Kind::Text("CATEGORIES"),
    help: "The fix categories that are asked for: CSV with the header CATEGORY",
};

/// `--received RECEIVED`
pub const RECEIVED: Argument = Argument {
    name: "received",
    kind: Kind::MaybeText("RECEIVED"),
    help: "The SYSMODs that are received: CSV with the header SYSMOD",
};

/// `--name NAME`
pub const NAME: Argument = Argument {
    name: "name",
    kind: Kind::MaybeText("NAME"),
    help: "The name of the zone; without it that of its file up to the period, in upper case",
};

/// `--port P`
pub const PORT: Argument = Argument {
    name: "port",
    kind: Kind::Number("P", 1, 65_535, "8080"),
    help: "The port to listen on, 1 to 65535",
};

/// `--cache N`
pub const CACHE: Argument = Argument {
    name: "cache",
    kind: Kind::Number("N", 1, 65_536, "1024"),
    help: "How many frames are kept at most, 1 to 65536",
};

/// `--connections K`
pub const CONNECTIONS: Argument = Argument {
    name: "connections",
    kind: Kind::Number("K", 1, 1_000_000, "1000000"),
    help: "How many connections are served before the program ends, 1 to 1000000",
};

/// `--open M`
pub const OPEN: Argument = Argument {
    name: "open",
    kind: Kind::Number("M", 1, 8192, "1024"),
    help: "How many connections are open at once at most, 1 to 8192",
};

/// `--memory MIB`
pub const MEMORY: Argument = Argument {
    name: "memory",
    kind: Kind::Number("MIB", 128, 65_536, "512"),
    help: "How many MiB bodies and replies take together at most, 128 to 65536",
};

/// `--sums`
pub const SUMS: Argument = Argument {
    name: "sums",
    kind: Kind::Flag,
    help: "Ends each page of the file in a sum, by which a page that rots is told",
};

/// `--log`
pub const LOG: Argument = Argument {
    name: "log",
    kind: Kind::Flag,
    help: "Writes a line to standard error for each request and each connection that failed",
};

/// `--verbose`
pub const VERBOSE: Argument = Argument {
    name: "verbose",
    kind: Kind::Flag,
    help: "Writes to standard error how much was read",
};

/// `--explain`
pub const EXPLAIN: Argument = Argument {
    name: "explain",
    kind: Kind::Flag,
    help: "Writes below the line of a FAULT what it means and what to do",
};

/// An argument, as `clap` reads it.
pub fn arg_of<'a>(alloc: Global, argument: &Argument) -> Arg<'a>
    ensures rule { rule_of result ≡ rule_for argument.now }
    ensures local { result.global ≡ false }
{
    let name = argument.name;
    let arg = Arg::new(alloc, name).help(argument.help);
    match argument.kind {
        Kind::One(value) => arg.required(true).action(ArgAction::Set).value_name(value),
        Kind::Several(value) => arg
            .required(true)
            .action(ArgAction::Append)
            .num_args(1..)
            .value_name(value),
        Kind::Text(value) => arg
            .long(name)
            .required(true)
            .action(ArgAction::Set)
            .value_name(value),
        Kind::MaybeText(value) => arg.long(name).action(ArgAction::Set).value_name(value),
        Kind::Number(value, least, most, default) => arg
            .long(name)
            .action(ArgAction::Set)
            .value_parser(clap::value_parser!(u32).range(i64::from(least)..=i64::from(most)))
            .value_name(value)
            .default_value(default),
        Kind::Flag => arg.long(name).action(ArgAction::SetTrue),
    }
}
