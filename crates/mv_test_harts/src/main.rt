//! Carries out the rows of its standard input, one a line, and prints what each came to. A line that begins with `#` is printed as it is. An indented line
//! is the text of the file `a.c` for the rows behind it.
//!
//! | Row | What it is |
//! |---|---|
//! | `mvharts` and words | the words of the program `mvharts`: its output and its notes are printed, and the number of its status where that has no last line |
//! | `harts` and a schedule | a call of `run_harts`: printed are the lines that `mvharts` writes, behind those of each hart what its polls took but skips, and the bindings that each commit left |
//! | `turns` and words, `by` and a schedule | both: printed is whether the words write what comes of the schedule |
//!
//! A schedule has parts `HARTS*TIMES` with commas between, as `01*3` for 0, 1, 0, 1, 0, 1.
//!
//! | Behind the words | What it says |
//! |---|---|
//! | ` !in BYTES BYTES ..` | the input of each hart of a schedule, `-` for none |
//! | ` !reads N N ..`, ` !writes N N ..`, ` !rooms N N ..` | the read and the write of each that fails, and the room of its output |
//! | ` !at SKIPS:SWITCH=VALUE` | what the operator does |
//! | ` !oracle NAME` | how the harts of a schedule fetch, in place of the oldest word: `fresh`, or `table` for a table of 0, 1, 2 |
//! | ` !room N`, ` !write N`, ` !note N`, ` !shelf N` | of `mvharts`: the room of the output, and the write to the output, the write to the notes and the call of the shelf that fails |
#![tactic(auto)]

mod harts;
mod program;
mod row;
mod text;

use crate::row::Row;
use std::alloc::{AllocError, Global};
use std::{io, str};

/// What stands in front of a text.
const INDENT: &str = "    ";

// Whether the words of `mvharts` write what comes of the schedule behind them.
fn compared(alloc: Global, row: Row, rest: &str) -> Result<Vec<u8>, AllocError> {
    let (words, schedule) = rest.split_once(" by ").unwrap_or((rest, ""));
    let written = program::outcome_of(alloc, row, words)?;
    let wanted = harts::outcome_of(alloc, row, schedule)?;
    let is_same = written.as_slice().starts_with(wanted.as_slice());
    let answer = if is_same { "same\n" } else { "different\n" };
    answer.as_bytes().to_vec(alloc)
}

// What a row comes to.
fn outcome_of(alloc: Global, row: Row) -> Result<Vec<u8>, AllocError> {
    let words = row.words();
    let (kind, rest) = words.split_once(' ').unwrap_or((words, ""));
    match kind {
        "mvharts" => program::outcome_of(alloc, row, rest),
        "harts" => harts::outcome_of(alloc, row, rest),
        _ => compared(alloc, row, rest),
    }
}

// Carries out a row, and prints what it came to, or prints a remark.
fn carry_out(rt: &HostRuntime, row: Row) -> io::Result<()> {
    if row.line.starts_with('#') {
        return println!(rt; "{}", row.line);
    }
    let outcome = outcome_of(rt.alloc(), row)?;
    let text = str::from_utf8(outcome.as_slice()).unwrap_or("no text\n");
    print!(rt; "{text}")
}

fn main(rt: HostRuntime) -> io::Result<()> {
    let mut text = String::new(rt.alloc());
    for line in rt.lines(rt.alloc()) {
        let line = line?;
        let line = line.as_str();
        match line.strip_prefix(INDENT) {
            Some(program) => text = program.to_string(rt.alloc())?,
            None => carry_out(
                &rt,
                Row {
                    line,
                    text: text.as_str(),
                },
            )?,
        }
    }
    Ok(())
}
