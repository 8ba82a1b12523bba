//! The command that words are.

ghost use Rattle.std.specs.Prelude.{ℕ, ◌≡◌, IfOk, MatchOption, map};
ghost use Rattle.std.specs.Option.{option_copied};
ghost use Rattle.std.specs.String.{string_bytes};
ghost use Rattle.clap.specs.Walk.{rows_of};
ghost use Rattle.clap.specs.Matches.{found_of};
ghost use Rattle.mv_command.specs.Commands.{given, is_set, IsLimit, AreItems, AreOptions, IsReading, IsCommand, IsNoCommand, PicksBy, asked, oracle_asked};
ghost use Rattle.mv_command.specs.Conversions.{name_of};
ghost use Rattle.mv_command.specs.Oracles.{IsOracle};

use crate::conversion::Conversion;
use crate::help::{help_on, version_text};
use crate::items::{Item, list_of};
use crate::number::number;
use crate::options::{
    AT, BINDINGS, BOUND, BUILD, CHECK, COMMAND, DEFAULT_STEPS, DISASM, EVAL, EXEC, FILE, GEN, HELP,
    IMAGE, LIST, LOG, MOST_BOUND, MOST_NUMBER, MOST_STEPS, NUMBER, ORACLE, RUN, SOURCE, STATS,
    STEPS, VERSIONS, WORDS,
};
use crate::oracles::{Oracle, named};
use crate::program::matches_of;
use clap::ArgMatches;
use mv_num::list::List;
use std::alloc::{AllocError, Global};

/// A command, as the words ask for it.
#[derive(Drop)]
pub enum Command<'a> {
    /// Compiles the file and runs it.
    Run {
        /// The name of the file.
        file: &'a str,
        /// How it is run.
        options: RunOptions,
    },
    /// Compiles the file and saves the image.
    Build {
        /// The name of the file.
        file: &'a str,
        /// The name under which the image is saved.
        image: &'a str,
    },
    /// Runs the image.
    Exec {
        /// The name of the image.
        image: &'a str,
        /// How it is run.
        options: RunOptions,
    },
    /// Shows what stands in the image.
    List {
        /// The name of the image.
        image: &'a str,
        /// Whether the words that commits change are shown, in place of its tables.
        words: bool,
    },
    /// Evaluates what the file means.
    Eval {
        /// The name of the file.
        file: &'a str,
        /// The bound of the evaluation.
        bound: u32,
    },
    /// Makes a program.
    Gen {
        /// Which one.
        number: u32,
        /// Whether its text is asked for, in place of its run.
        source: bool,
    },
    /// Makes one file of another.
    Convert {
        /// Which file of which.
        conversion: Conversion,
        /// The name of the file of which it is made.
        from: &'a str,
        /// The name under which it is saved.
        to: &'a str,
    },
    /// Shows the code of the image as assembler text.
    Disassemble {
        /// The name of the image.
        image: &'a str,
    },
    /// Compares the image with that of the file.
    Check {
        /// The name of the file.
        file: &'a str,
        /// The name of the image.
        image: &'a str,
    },
    /// Writes what the program tells of itself.
    Print {
        /// What is written.
        text: Vec<u8>,
    },
}

/// How a file or an image is run.
#[derive(Drop)]
pub struct RunOptions {
    /// The greatest number of instructions, from 1 to 1,000,000,000,000.
    pub steps: u64,
    /// What the operator does, with ascending polls.
    pub items: List<Item>,
    /// What picks the words that fetches give.
    pub oracle: Oracle,
    /// Whether the bindings are shown.
    pub bindings: bool,
    /// Whether the words of text that aren't as they were built are shown.
    pub words: bool,
    /// Whether the log is shown.
    pub log: bool,
    /// Whether the number of instructions is shown.
    pub stats: bool,
}

fn limit_of(text: Option<&str>) -> Option<u64>
    ensures { MatchOption result ((steps : ℕ) → IsLimit (option_copied text.entry) steps → ⊥) (IsLimit (option_copied text.entry)) }
{
    let Some(text) = text else {
        return Some(DEFAULT_STEPS);
    };
    let steps = number(text.as_bytes(), MOST_STEPS)?;
    if steps == 0 {
        return None;
    }
    Some(steps)
}

fn items_of(alloc: Global, text: Option<&str>) -> Result<Option<List<Item>>, AllocError>
    ensures { IfOk result (λ found. MatchOption found ((items : List Item) → AreItems (option_copied text.entry) items → ⊥) (AreItems (option_copied text.entry))) }
{
    match text {
        Some(text) => list_of(alloc, text),
        None => Ok(Some(List::new(alloc))),
    }
}

fn oracle_of(alloc: Global, text: Option<&str>) -> Result<Option<Oracle>, AllocError>
    ensures { IfOk result (λ found. MatchOption found ((oracle : Oracle) → IsOracle (option_copied text.entry) oracle → ⊥) (IsOracle (option_copied text.entry))) }
{
    match text {
        Some(text) => named(alloc, text),
        None => Ok(Some(Oracle::Oldest)),
    }
}

// The text of an operand or of an option with a value.
fn given<'a>(found: &ArgMatches<'a>, name: &str) -> Option<&'a str>
    ensures { option_copied result ≡ given name.now (rows_of (found_of found.now)) }
{
    found.get_str(name)
}

// Whether an option without a value is set.
fn is_set(found: &ArgMatches, name: &str) -> bool
    ensures { result ≡ is_set name.now (rows_of (found_of found.now)) }
{
    match given(found, name) {
        Some(text) => text == "true",
        None => false,
    }
}

fn options_of(alloc: Global, found: &ArgMatches) -> Result<Option<RunOptions>, AllocError>
    ensures { IfOk result (λ read. MatchOption read ((options : RunOptions) → AreOptions (rows_of (found_of found.now)) options → ⊥) (AreOptions (rows_of (found_of found.now)))) }
{
    let Some(steps) = limit_of(given(found, STEPS)) else {
        return Ok(None);
    };
    let Some(items) = items_of(alloc, given(found, AT))? else {
        return Ok(None);
    };
    let Some(oracle) = oracle_of(alloc, given(found, ORACLE))? else {
        return Ok(None);
    };
    Ok(Some(RunOptions {
        steps,
        items,
        oracle,
        bindings: is_set(found, BINDINGS),
        words: is_set(found, WORDS),
        log: is_set(found, LOG),
        stats: is_set(found, STATS),
    }))
}

fn run<'a>(alloc: Global, found: &ArgMatches<'a>) -> Result<Option<Command<'a>>, AllocError>
    ensures { IfOk result (IsReading RUN.now (rows_of (found_of found.now))) }
{
    let Some(file) = given(found, FILE) else {
        return Ok(None);
    };
    let Some(options) = options_of(alloc, found)? else {
        return Ok(None);
    };
    Ok(Some(Command::Run { file, options }))
}

fn build<'a>(found: &ArgMatches<'a>) -> Option<Command<'a>>
    ensures { IsReading BUILD.now (rows_of (found_of found.now)) result }
{
    let file = given(found, FILE)?;
    let image = given(found, IMAGE)?;
    Some(Command::Build { file, image })
}

fn exec<'a>(alloc: Global, found: &ArgMatches<'a>) -> Result<Option<Command<'a>>, AllocError>
    ensures { IfOk result (IsReading EXEC.now (rows_of (found_of found.now))) }
{
    let Some(image) = given(found, IMAGE) else {
        return Ok(None);
    };
    let Some(options) = options_of(alloc, found)? else {
        return Ok(None);
    };
    Ok(Some(Command::Exec { image, options }))
}

fn list<'a>(found: &ArgMatches<'a>) -> Option<Command<'a>>
    ensures { IsReading LIST.now (rows_of (found_of found.now)) result }
{
    let image = given(found, IMAGE)?;
    Some(Command::List {
        image,
        words: is_set(found, WORDS),
    })
}

fn eval<'a>(found: &ArgMatches<'a>) -> Option<Command<'a>>
    ensures { IsReading EVAL.now (rows_of (found_of found.now)) result }
{
    let file = given(found, FILE)?;
    let bound = number(given(found, BOUND)?.as_bytes(), MOST_BOUND)?;
    Some(Command::Eval {
        file,
        bound: bound as u32,
    })
}

fn generate<'a>(found: &ArgMatches<'a>) -> Option<Command<'a>>
    ensures { IsReading GEN.now (rows_of (found_of found.now)) result }
{
    let number = number(given(found, NUMBER)?.as_bytes(), MOST_NUMBER)?;
    Some(Command::Gen {
        number: number as u32,
        source: is_set(found, SOURCE),
    })
}

fn convert<'a>(conversion: Conversion, found: &ArgMatches<'a>) -> Option<Command<'a>>
    ensures { IsReading (name_of conversion) (rows_of (found_of found.now)) result }
{
    let from = given(found, conversion.from_operand())?;
    let to = given(found, conversion.to_operand())?;
    Some(Command::Convert {
        conversion,
        from,
        to,
    })
}

fn disassemble<'a>(found: &ArgMatches<'a>) -> Option<Command<'a>>
    ensures { IsReading DISASM.now (rows_of (found_of found.now)) result }
{
    let image = given(found, IMAGE)?;
    Some(Command::Disassemble { image })
}

fn check<'a>(found: &ArgMatches<'a>) -> Option<Command<'a>>
    ensures { IsReading CHECK.now (rows_of (found_of found.now)) result }
{
    let file = given(found, FILE)?;
    let image = given(found, IMAGE)?;
    Some(Command::Check { file, image })
}

fn help<'a>(alloc: Global, found: &ArgMatches<'a>) -> Result<Option<Command<'a>>, AllocError>
    ensures { IfOk result (IsReading HELP.now (rows_of (found_of found.now))) }
{
    match help_on(alloc, given(found, COMMAND))? {
        Some(text) => Ok(Some(Command::Print { text })),
        None => Ok(None),
    }
}

fn version<'a>(alloc: Global, found: &ArgMatches<'a>) -> Result<Option<Command<'a>>, AllocError>
    ensures { IfOk result (IsReading VERSIONS.now (rows_of (found_of found.now))) }
{
    let text = version_text(alloc)?;
    Ok(Some(Command::Print { text }))
}

// What the values of the command with this name ask for.
fn read<'a>(
    alloc: Global,
    name: &str,
    found: &ArgMatches<'a>,
) -> Result<Option<Command<'a>>, AllocError>
    ensures { IfOk result (IsReading name.now (rows_of (found_of found.now))) }
{
    if name == RUN {
        run(alloc, found)
    } else if name == EXEC {
        exec(alloc, found)
    } else if name == BUILD {
        Ok(build(found))
    } else if name == LIST {
        Ok(list(found))
    } else if name == EVAL {
        Ok(eval(found))
    } else if name == GEN {
        Ok(generate(found))
    } else if let Some(conversion) = Conversion::by_command(name) {
        Ok(convert(conversion, found))
    } else if name == DISASM {
        Ok(disassemble(found))
    } else if name == CHECK {
        Ok(check(found))
    } else if name == HELP {
        help(alloc, found)
    } else if name == VERSIONS {
        version(alloc, found)
    } else {
        Ok(None)
    }
}

/// The command that the words are, where they are one. An error is want of memory.
pub fn command_of<'a>(alloc: Global, words: &'a [String]) -> Result<Option<Command<'a>>, AllocError>
    ensures { IfOk result (λ found. MatchOption found (IsNoCommand (map string_bytes words.now)) (λ command. IsCommand (map string_bytes words.now) (asked command))) }
{
    let Some(matches) = matches_of(alloc, words)? else {
        return Ok(None);
    };
    let Some((name, found)) = matches.subcommand() else {
        return Ok(None);
    };
    read(alloc, name, found)
}

// The oracle by which a command picks.
fn oracle_asked(command: Command) -> Oracle
    ensures { result ≡ oracle_asked (asked command.entry) }
{
    match command {
        Command::Run { options, .. } | Command::Exec { options, .. } => options.oracle,
        _ => Oracle::Oldest,
    }
}

/// The oracle by which the words pick: the one that they name, or the one that always picks the oldest word. An error is want of memory.
pub fn oracle_of_words(alloc: Global, words: &[String]) -> Result<Oracle, AllocError>
    ensures { IfOk result (PicksBy (map string_bytes words.now)) }
{
    match command_of(alloc, words)? {
        Some(command) => Ok(oracle_asked(command)),
        None => Ok(Oracle::Oldest),
    }
}
