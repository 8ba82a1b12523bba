//! The program `multiverse`: the top call over standard input, standard output, standard error and the files of the machine.
//!
//! `main` makes the real objects and calls `multiverse_by_words`, which picks by the oracle that the words name. It has one stored
//! run. What the real objects hold is claimed by nothing.
#![tactic(auto)]

use mv_io::{FileShelf, StdSink, StdSource};
use mv_notes::{Performed, report};
use mv_probe::Probe;
use mv_top::{Status, multiverse_by_words};
use std::io::ErrorKind;
use std::process::ExitCode;
use std::{env, io};

/// The words after the program's name.
fn words(rt: &HostRuntime) -> io::Result<Vec<String>> {
    let mut words = Vec::new(rt.alloc());
    for word in env::args(rt)?.skip(1) {
        words.push(word)?;
    }
    Ok(words)
}

// What the words ask for.
fn run(rt: &HostRuntime, words: &[String]) -> Status {
    let mut shelf = FileShelf::new(rt);
    let mut input = StdSource::new(rt.stdin());
    let mut out = StdSink::new(rt.stdout());
    let mut notes = StdSink::new(rt.stderr());
    let mut probes: Vec<Box<dyn Probe>> = Vec::new(rt.alloc());
    multiverse_by_words(
        rt.alloc(),
        words,
        &mut shelf,
        &mut input,
        &mut out,
        &mut notes,
        &mut probes,
    )
}

// Where the words can't be had: words that are no text are no command.
fn refused(rt: &HostRuntime, error: &io::Error) -> Status {
    if error.kind() != ErrorKind::InvalidData {
        return Status::Memory;
    }
    let mut notes = StdSink::new(rt.stderr());
    let usage = Performed::alone(rt.alloc(), Status::Usage);
    report(rt.alloc(), usage, &mut notes)
}

fn main(rt: HostRuntime) -> ExitCode {
    let status = match words(&rt) {
        Ok(words) => run(&rt, words.as_slice()),
        Err(error) => refused(&rt, &error),
    };
    ExitCode::from(status.number())
}
