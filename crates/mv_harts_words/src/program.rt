//! The table as `clap` is told it, and what `clap` makes of words.

ghost use Rattle.std.specs.Prelude.{◌≡◌, ◌≢◌, [], IfOk, MatchOption, map};
ghost use Rattle.std.specs.String.{string_bytes};
ghost use Rattle.clap.specs.Walk.{rows_of};
ghost use Rattle.clap.specs.Matches.{found_of};
ghost use Rattle.clap.specs.Simple.{app_of, matches_of};
ghost use Rattle.clap.specs.Faults.{fault_of};
ghost use Rattle.mv_harts_words.specs.Asked.{app};

use crate::options::{OPERANDS, PROGRAM};
use clap::error::ErrorKind;
use clap::{Arg, ArgMatches, Command};
use std::alloc::{AllocError, Global};

// The table of operands.
fn program<'a>(alloc: Global) -> Result<Command<'a>, AllocError>
    ensures { IfOk result (λ program. app_of program ≡ app) }
{
    let mut program = Command::new(alloc, PROGRAM)
        .no_binary_name(true)
        .disable_help_flag(true);
    for name in &OPERANDS {
        program = program.arg(Arg::new(alloc, *name))?;
    }
    Ok(program)
}

/// What `clap` makes of words in which it finds no fault. An error is want of memory.
pub fn matches_of<'a>(
    alloc: Global,
    words: &'a [String],
) -> Result<Option<ArgMatches<'a>>, AllocError>
    ensures { IfOk result (λ found. MatchOption found (fault_of app (map string_bytes words.now) ≢ [])
        (λ matches. (fault_of app (map string_bytes words.now) ≡ []) × (rows_of (found_of matches) ≡ matches_of app (map string_bytes words.now)))) }
{
    let program = program(alloc)?;
    match program.try_get_matches_from(words) {
        Ok(matches) => Ok(Some(matches)),
        Err(error) => {
            match error.kind() {
                ErrorKind::OutOfMemory => Err(AllocError),
                _ => Ok(None),
            }
        }
    }
}
