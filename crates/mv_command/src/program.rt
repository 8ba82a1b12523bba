//! The table as `clap` is told it, and what `clap` makes of words.

ghost use Rattle.std.specs.Prelude.{◌≡◌, ◌≢◌, [], false, map, IfOk, MatchOption};
ghost use Rattle.std.specs.String.{string_bytes};
ghost use Rattle.clap.specs.Walk.{rule_of};
ghost use Rattle.clap.specs.Simple.{app_of, subcommand_of, subcommand_rows_of};
ghost use Rattle.clap.specs.Faults.{fault_of};
ghost use Rattle.clap.specs.declared.builder.command.Command.TheViews.{out-Command};
ghost use Rattle.mv_command.specs.Commands.{rule, form, argument_of, app};

use crate::options::{Argument, COMMANDS, Kind, PROGRAM};
use clap::error::ErrorKind;
use clap::{Arg, ArgAction, ArgMatches, Command};
use std::alloc::{AllocError, Global};

fn clap_argument<'a>(alloc: Global, kind: Kind, name: &'a str) -> Arg<'a>
    ensures rule { rule_of result ≡ rule kind name.now }
    ensures local { result.global ≡ false }
{
    match kind {
        Kind::Operand | Kind::Optional => Arg::new(alloc, name),
        Kind::Needed | Kind::Valued => Arg::new(alloc, name).long(name),
        Kind::Flag => Arg::new(alloc, name).long(name).action(ArgAction::SetTrue),
    }
}

// A command of the table.
fn form_of<'a>(
    alloc: Global,
    name: &'static str,
    arguments: &[Argument],
) -> Result<Command<'a>, AllocError>
    ensures { IfOk result (λ command. (app_of command ≡ form name.now (map argument_of arguments.now)) × ((out-Command command).has_globals ≡ false)) }
{
    let mut command = Command::new(alloc, name);
    for argument in arguments {
        command = command.arg(clap_argument(alloc, argument.kind, argument.name))?;
    }
    Ok(command)
}

// The whole table.
fn program<'a>(alloc: Global) -> Result<Command<'a>, AllocError>
    ensures { IfOk result (λ program. app_of program ≡ app) }
{
    let mut program = Command::new(alloc, PROGRAM)
        .no_binary_name(true)
        .disable_help_flag(true)
        .disable_help_subcommand(true);
    for row in &COMMANDS {
        program = program.subcommand(form_of(alloc, row.name, row.arguments)?)?;
    }
    Ok(program)
}

/// What `clap` makes of words in which it finds no fault. An error is want of memory.
pub fn matches_of<'a>(
    alloc: Global,
    words: &'a [String],
) -> Result<Option<ArgMatches<'a>>, AllocError>
    ensures { IfOk result (λ found. MatchOption found (fault_of app (map string_bytes words.now) ≢ [])
        (λ matches. (fault_of app (map string_bytes words.now) ≡ []) × (subcommand_rows_of matches ≡ subcommand_of app (map string_bytes words.now)))) }
{
    let program = program(alloc)?;
    match program.try_get_matches_from(words) {
        Ok(matches) => Ok(Some(matches)),
        Err(error) => {
            match error.kind() {
                ErrorKind::OutOfMemory => Err(AllocError),
                _ => Ok(None),
            }
        }
    }
}
