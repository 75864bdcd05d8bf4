//! The commands that there are, as rows.
ghost use Rattle.std.specs.Prelude.{◌≡◌, codes, fold};
ghost use Rattle.command_line.specs.Commands.{with_command};
ghost use Rattle.command_line.specs.Line.{bureau_app, commands_named};

use crate::arguments::{
    Argument, CACHE, CALLERS, CATEGORIES, CONNECTION_FILES, CONNECTIONS, EXPLAIN, FILE, LOG,
    MEMORY, NAME, OPEN, PORT, PUBLICATIONS, RECEIVED, STORE, SUMS, SYSMOD, VERBOSE, ZONE,
};

/// A command of the program.
pub struct Subcommand {
    /// The name by which the words name it.
    pub name: &'static str,
    /// Its text in the help.
    pub about: &'static str,
    /// Its arguments, in the order in which the help lists them.
    pub arguments: &'static [Argument],
}

static SUBCOMMANDS: [Subcommand; 10] = [
    Subcommand {
        name: "holds",
        about: "Prints the hold book that the ++HOLD and ++RELEASE statements of FILE leave",
        arguments: &[FILE],
    },
    Subcommand {
        name: "init",
        about: "Makes STORE, the file of a desk that has these callers and nothing else",
        arguments: &[SUMS, STORE, CALLERS],
    },
    Subcommand {
        name: "serve",
        about: "Serves the desk in STORE on 127.0.0.1, to many connections side by side",
        arguments: &[PORT, CACHE, CONNECTIONS, OPEN, MEMORY, LOG, STORE],
    },
    Subcommand {
        name: "replay",
        about: "Serves each FILE as a connection to a desk in memory, and prints what the desk replies",
        arguments: &[CACHE, CALLERS, CONNECTION_FILES],
    },
    Subcommand {
        name: "migrate",
        about: "Makes STORE, a file of version 1, one of version 2",
        arguments: &[STORE],
    },
    Subcommand {
        name: "errsysmods",
        about: "Prints the exception SYSMOD report on a zone, from files and with no desk",
        arguments: &[ZONE, RECEIVED, NAME, VERBOSE, EXPLAIN, PUBLICATIONS],
    },
    Subcommand {
        name: "missingfix",
        about: "Prints the missing fix report on a zone, from files and with no desk",
        arguments: &[
            ZONE,
            CATEGORIES,
            RECEIVED,
            NAME,
            VERBOSE,
            EXPLAIN,
            PUBLICATIONS,
        ],
    },
    Subcommand {
        name: "chain",
        about: "Prints whether a SYSMOD can be installed in a zone, and with what, as JSON",
        arguments: &[ZONE, NAME, VERBOSE, EXPLAIN, SYSMOD, PUBLICATIONS],
    },
    Subcommand {
        name: "callers",
        about: "Gives STORE these callers and no others; who stays keeps all, and who is gone leaves nothing",
        arguments: &[STORE, CALLERS],
    },
    Subcommand {
        name: "check",
        about: "Looks through all of STORE, changes no row, and prints how much each caller has",
        arguments: &[EXPLAIN, STORE],
    },
];

/// The commands that there are, in the order in which the help lists them.
pub fn subcommands() -> &'static [Subcommand]
    ensures { fold with_command (commands_named (codes "bureau")) result.now ≡ bureau_app }
{
    &SUBCOMMANDS
}
