//! Carries out the commands of its standard input, one a line, and prints the output and the notes of each, and the number of its status where the notes have
//! no last line. A line that begins with `#` is printed as it is. What a command saves is there for those behind it.
//!
//! | Behind the words | What it says |
//! |---|---|
//! | ` < NAME` | the file that is the input |
//! | ` !read N`, ` !write N`, ` !note N` | the read, the write to the output or to the notes that fails |
//! | ` !room N` | how many bytes the output has room for |
//! | ` !notes N`, ` !piece N` | how many the notes have room for, and how many they take at once |
//! | ` !shelf N` | the call of the shelf that fails: a shelf in memory, for this command alone |
//! | ` !oracle NAME` | the one oracle by which what runs fetches: `fresh`, `oldest`, the numbers of a table, `told:` and the addresses of which it is asked, or `named`, which is the one that the words name |
//! | ` !verdict` | of a text that isn't refused that alone is printed |
//! | ` !log` | how many probes are left is printed, of one with room for a single event and one with more, and what that heard |
//! | ` !limits N` | the command is carried out with each step limit up to N, too |
//!
//! | Indented, behind the command | What it says |
//! |---|---|
//! | a line | one of the text of the file `a.c` |
//! | `*N TEXT` | the text N times, without line feeds, each time with its number from 0 on in place of `#` |
//! | `@NAME WORDS` | another file, of these words: four bytes `0xN` from the lowest on, one of two digits, and four of eight digits, `*N` times |
//!
//! What runs does so under three oracles, unless it is refused. The outcome under `Oldest` is printed, and another one where it differs, that is its output,
//! its notes or what the probes were told. A run without an operator that ends is compared with an evaluation, whose outcome is printed where it differs. In
//! what `list` writes of an image that was built, `ADDRESS` stands for each address.
#![tactic(auto)]

mod limits;
mod outcome;
mod picks;
mod printing;
mod row;

use crate::limits::show_limits;
use crate::outcome::{Outcome, outcome_of};
use crate::printing::{REFUSED, print_outcome};
use crate::row::{Row, add_line, row_of};
use std::io;

/// What stands in front of a line of the text.
const INDENT: &str = "    ";

/// The greatest number of the status of a run that ended or trapped.
const TRAPPED: u8 = 1;

// Carries out a command once more under an oracle, and prints what it came to where that is something else.
fn repeat(rt: &HostRuntime, row: &Row, first: &Outcome, oracle: &str) -> io::Result<()> {
    let outcome = outcome_of(rt, row, row.words().0, oracle)?;
    if !first.is_same(&outcome) {
        println!(rt; "# and by another oracle")?;
        print_outcome(rt, row, &outcome)?;
    }
    Ok(())
}

// Compares a run that ended, and in which no operator acted, with an evaluation of its file, lines of the notes before the last one aside. Prints what that
// came to where it is something else.
fn compare(rt: &HostRuntime, row: &Row, outcome: &Outcome) -> io::Result<()> {
    let words = row.words().0;
    if !words.starts_with("run ") || words.contains("--at") || outcome.status > TRAPPED {
        return Ok(());
    }
    let file = words.split(' ').nth(1).unwrap_or("");
    let line = format!(in rt.alloc(); "eval {file} --bound 1000000")?;
    let evaluated = outcome_of(rt, row, line.as_str(), "fresh")?;
    if outcome.out.as_slice() != evaluated.out.as_slice()
        || !outcome
            .notes
            .as_slice()
            .ends_with(evaluated.notes.as_slice())
    {
        println!(rt; "# and it means something else")?;
        print_outcome(rt, row, &evaluated)?;
    }
    Ok(())
}

// Carries out what runs under two more oracles, and compares it with what it means.
fn again(rt: &HostRuntime, row: &Row, outcome: &Outcome) -> io::Result<()> {
    repeat(rt, row, outcome, "fresh")?;
    repeat(rt, row, outcome, "0,1,2")?;
    compare(rt, row, outcome)
}

// Whether what runs does so under three oracles: no oracle is named.
fn is_repeated(row: &Row) -> bool {
    let words = row.words().0;
    row.said("oracle").is_none() && (words.starts_with("run") || words.starts_with("exec"))
}

// Carries out a command, and prints what it came to.
fn carry_out(rt: &HostRuntime, row: &Row) -> io::Result<()> {
    let oracle = row.said("oracle").unwrap_or("oldest");
    let outcome = outcome_of(rt, row, row.words().0, oracle)?;
    print_outcome(rt, row, &outcome)?;
    if is_repeated(row) && outcome.status != REFUSED {
        again(rt, row, &outcome)?;
    }
    show_limits(rt, row, &outcome)
}

// Carries out the command of a row whose lines have all been read, or prints a remark. An empty line says nothing.
fn finish(rt: &HostRuntime, row: &Row) -> io::Result<()> {
    if row.line.is_empty() {
        return Ok(());
    }
    if row.line.as_str().starts_with('#') {
        return println!(rt; "{}", row.line);
    }
    carry_out(rt, row)
}

fn main(rt: HostRuntime) -> io::Result<()> {
    let mut row = row_of(rt.alloc(), "")?;
    for line in rt.lines(rt.alloc()) {
        let line = line?;
        if let Some(more) = line.as_str().strip_prefix(INDENT) {
            add_line(rt.alloc(), &mut row, more)?;
        } else {
            finish(&rt, &row)?;
            row = row_of(rt.alloc(), line.as_str())?;
        }
    }
    finish(&rt, &row)
}
