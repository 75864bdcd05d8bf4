//! The commands of the program, as `clap` reads them.
ghost use Rattle.std.specs.Prelude.{◌≡◌, codes, false, fold, IfOk};
ghost use Rattle.clap.specs.Words.{app_of};
ghost use Rattle.clap.specs.declared.builder.command.Command.TheViews.{out-Command as fields_of};
ghost use Rattle.command_line.specs.Commands.{app_for, with_argument, with_command};
ghost use Rattle.command_line.specs.Line.{bureau_app, commands_named};

use crate::arguments::{Argument, arg_of};
use crate::help::{STATUSES_AND_FAULTS, VERSION};
use crate::subcommands::{Subcommand, subcommands};
use clap::Command;
use faults::NoMemory;
use std::alloc::Global;

/// The program, with the commands that there are.
pub fn command<'a>(alloc: Global) -> Result<Command<'a>, NoMemory>
    ensures { IfOk result (λ command. app_of command ≡ bureau_app) }
{
    with_commands(alloc, program(alloc)?, subcommands())
}

// The program, with no command yet.
fn program<'a>(alloc: Global) -> Result<Command<'a>, NoMemory>
    ensures { IfOk result (λ command. app_of command ≡ commands_named (codes "bureau")) }
{
    let bureau = Command::new(alloc, "bureau").bin_name("bureau")?;
    Ok(
        bureau
            .about("Exception SYSMODs and missing fixes of z/OS SMP/E zones")
            .version(VERSION)
            .after_help(STATUSES_AND_FAULTS)
            .no_binary_name(true)
            .subcommand_required(true),
    )
}

// The program with a command for each of these rows.
fn with_commands<'a>(
    alloc: Global,
    mut program: Command<'a>,
    rows: &[Subcommand],
) -> Result<Command<'a>, NoMemory>
    ensures { IfOk result (λ whole. app_of whole ≡ fold with_command (app_of program.entry) rows.now) }
{
    for row in rows {
        program = with_command(alloc, program, row)?;
    }
    Ok(program)
}

// The program with the command of one more row. If memory runs out, all of it is dropped here.
fn with_command<'a>(
    alloc: Global,
    program: Command<'a>,
    row: &Subcommand,
) -> Result<Command<'a>, NoMemory>
    ensures { IfOk result (λ more. app_of more ≡ with_command (app_of program.entry) row.now) }
{
    program.subcommand(command_of(alloc, row)?)
}

// The command of a row.
fn command_of<'a>(alloc: Global, row: &Subcommand) -> Result<Command<'a>, NoMemory>
    ensures app { IfOk result (λ command. app_of command ≡ app_for row.now) }
    ensures local { IfOk result (λ command. (fields_of command).has_globals ≡ false) }
{
    let command = Command::new(alloc, row.name).about(row.about);
    with_arguments(alloc, command, row.arguments)
}

// A command with an argument for each of these rows.
fn with_arguments<'a>(
    alloc: Global,
    mut command: Command<'a>,
    rows: &[Argument],
) -> Result<Command<'a>, NoMemory>
    ensures app { IfOk result (λ whole. app_of whole
        ≡ fold with_argument (app_of command.entry) rows.now) }
    ensures local { IfOk result (λ whole. (fields_of whole).has_globals
        ≡ (fields_of command.entry).has_globals) }
{
    for row in rows {
        command = with_argument(alloc, command, row)?;
    }
    Ok(command)
}

// A command with the argument of one more row.
fn with_argument<'a>(
    alloc: Global,
    command: Command<'a>,
    row: &Argument,
) -> Result<Command<'a>, NoMemory>
    ensures app { IfOk result (λ more. app_of more
        ≡ with_argument (app_of command.entry) row.now) }
    ensures local { IfOk result (λ more. (fields_of more).has_globals
        ≡ (fields_of command.entry).has_globals) }
{
    command.arg(arg_of(alloc, row))
}
