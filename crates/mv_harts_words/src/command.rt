//! What words ask for.

ghost use Rattle.std.specs.Prelude.{ℕ, ◌≡◌, ◌≢◌, ◌≤◌, ◌<◌, ◌^◌, IfOk, MatchOption, map};
ghost use Rattle.std.specs.Option.{option_copied};
ghost use Rattle.std.specs.String.{string_bytes};
ghost use Rattle.clap.specs.Walk.{rows_of};
ghost use Rattle.clap.specs.Matches.{found_of};
ghost use Rattle.mv_harts_words.specs.Asked.{asked, given, Asked, IsAsked, IsNotAsked, IsNumber, IsRead};

use crate::options::{
    COUNT, FILE, LEAST_COUNT, LEAST_TURNS, MOST_COUNT, MOST_NUMBER, MOST_TURNS, NUMBER, TURNS,
};
use crate::program::matches_of;
use clap::ArgMatches;
use mv_command::number::number;
use std::alloc::{AllocError, Global};

/// What the words ask for.
#[derive(Clone, Copy, Debug)]
pub struct Command<'a> {
    /// The name of the file with the program.
    pub file: &'a str,
    /// How many harts run it: 2 to 4.
    pub count: u8,
    /// The number of the schedule.
    pub number: u32,
    /// How many turns the schedule has: 1 to 10,000,000.
    pub turns: u32,
}

// The text of an operand.
fn given<'a>(found: &ArgMatches<'a>, name: &str) -> Option<&'a str>
    ensures { option_copied result ≡ given name.now (rows_of (found_of found.now)) }
{
    found.get_str(name)
}

// The number of an operand, within its bounds.
fn number_given(found: &ArgMatches, name: &str, least: u64, most: u64) -> Option<u64>
    requires { most < 2 ^ 59 }
    ensures { MatchOption result ((n : ℕ) → IsNumber name.now least most (rows_of (found_of found.now)) n → ⊥) (IsNumber name.now least most (rows_of (found_of found.now))) }
{
    let number = number(given(found, name)?.as_bytes(), most)?;
    if number < least {
        return None;
    }
    Some(number)
}

// What the operands ask for.
fn read<'a>(found: &ArgMatches<'a>) -> Option<Command<'a>>
    ensures { MatchOption result ((a : Asked) → IsRead (rows_of (found_of found.now)) a → ⊥) (λ command. IsRead (rows_of (found_of found.now)) (asked command)) }
{
    let file = given(found, FILE)?;
    let count = number_given(found, COUNT, LEAST_COUNT, MOST_COUNT)?;
    let number = number_given(found, NUMBER, 0, MOST_NUMBER)?;
    let turns = number_given(found, TURNS, LEAST_TURNS, MOST_TURNS)?;
    Some(Command {
        file,
        count: count as u8,
        number: number as u32,
        turns: turns as u32,
    })
}

/// What the words ask for, where they are right. An error is want of memory.
pub fn command_of<'a>(alloc: Global, words: &'a [String]) -> Result<Option<Command<'a>>, AllocError>
    ensures { IfOk result (λ found. MatchOption found (IsNotAsked (map string_bytes words.now)) (λ command. IsAsked (map string_bytes words.now) (asked command))) }
{
    let Some(matches) = matches_of(alloc, words)? else {
        return Ok(None);
    };
    Ok(read(&matches))
}
