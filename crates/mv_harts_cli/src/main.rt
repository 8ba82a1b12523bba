//! The program `mvharts`: its call over standard output, standard error and the files of the machine.
//!
//! `main` makes the real objects, boxes an oracle that picks the oldest word, and calls `mvharts`. It has one stored run. What the real objects
//! hold is claimed by nothing.
#![tactic(auto)]

use mv_harts::{Status, mvharts};
use mv_io::{FileShelf, StdSink};
use mv_notes::{Performed, report};
use mv_probe::{FetchOracle, Oldest};
use std::alloc::AllocError;
use std::io::ErrorKind;
use std::process::ExitCode;
use std::{env, io};

/// The words after the program's name.
fn words(rt: &HostRuntime) -> io::Result<Vec<String>> {
    let mut words = Vec::new(rt.alloc());
    for word in env::args(rt)?.skip(1) {
        words.push(word)?;
    }
    Ok(words)
}

// What the words ask for.
fn run(rt: &HostRuntime, words: &[String]) -> Result<Status, AllocError> {
    let mut shelf = FileShelf::new(rt);
    let mut out = StdSink::new(rt.stdout());
    let mut notes = StdSink::new(rt.stderr());
    let mut oracle: Box<dyn FetchOracle> = Box::new(rt.alloc(), Oldest)?;
    Ok(mvharts(
        rt.alloc(),
        words,
        &mut shelf,
        &mut out,
        &mut notes,
        &mut oracle,
    ))
}

// Where the words can't be had: words that are no text ask for nothing.
fn refused(rt: &HostRuntime, error: &io::Error) -> Status {
    if error.kind() != ErrorKind::InvalidData {
        return Status::Memory;
    }
    let mut notes = StdSink::new(rt.stderr());
    let usage = Performed::alone(rt.alloc(), Status::Usage);
    report(rt.alloc(), usage, &mut notes)
}

fn main(rt: HostRuntime) -> ExitCode {
    let status = match words(&rt) {
        Ok(words) => run(&rt, words.as_slice()).unwrap_or(Status::Memory),
        Err(error) => refused(&rt, &error),
    };
    ExitCode::from(status.number())
}
