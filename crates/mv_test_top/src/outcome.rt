//! What a command comes to.

ghost use Rattle.std.specs.Prelude.{All};
ghost use Rattle.mv_probe.specs.Hearing.{hearing, IsPatient};

use crate::picks::picks_of;
use crate::row::Row;
use mv_bindings::binding::Event;
use mv_io::{FileShelf, MemShelf, MemSink, MemSource, Shelf};
use mv_probe::{FetchOracle, Probe, Recorder};
use mv_top::{multiverse, multiverse_by_words};
use std::alloc::{AllocError, Global};
use std::{fs, io};

/// How many events are kept of a run.
const EVENTS: u32 = 1_000;

/// How many bytes a sink has room for where a row says nothing.
const ROOM: u32 = 8_192;

/// The name of the oracle that the words name.
const NAMED: &str = "named";

/// What a command came to.
#[derive(Drop)]
pub(crate) struct Outcome {
    pub(crate) status: u8,
    pub(crate) out: Vec<u8>,
    pub(crate) notes: Vec<u8>,
    /// How many of the two probes are left, and what the last one was told.
    pub(crate) log: String,
}

/// The words of a command, and its devices.
#[derive(Drop)]
struct Command {
    words: Vec<String>,
    input: MemSource,
    out: MemSink,
    notes: MemSink,
}

impl Outcome {
    /// Whether another command came to the same.
    pub(crate) fn is_same(&self, other: &Outcome) -> bool {
        self.status == other.status
            && self.out.as_slice() == other.out.as_slice()
            && self.notes.as_slice() == other.notes.as_slice()
            && self.log.as_str() == other.log.as_str()
    }
}

// The words of a line.
fn words_of(alloc: Global, line: &str) -> Result<Vec<String>, AllocError> {
    let mut words = Vec::new(alloc);
    for word in line.split(' ') {
        words.push(word.to_string(alloc)?)?;
    }
    Ok(words)
}

// The bytes of the file that is the input of a row, none where there is none.
fn input_of(rt: &HostRuntime, row: &Row) -> io::Result<Vec<u8>> {
    let name = row.words().1;
    if name.is_empty() {
        return Ok(Vec::new(rt.alloc()));
    }
    fs::read(rt, name)
}

fn sink_of(alloc: Global, room: u32, piece: u32, failing: u32) -> Result<MemSink, AllocError> {
    let piece = if piece == 0 { 1 } else { piece as usize };
    MemSink::new(alloc, room as usize, piece, vec![in alloc; failing]?)
}

// The words of a line, with the input of a row and what takes its output and its notes.
fn command_of(rt: &HostRuntime, row: &Row, line: &str) -> io::Result<Command> {
    let alloc = rt.alloc();
    Ok(Command {
        words: words_of(alloc, line)?,
        input: MemSource::new(input_of(rt, row)?, vec![in alloc; row.number("read", 0)]?),
        out: sink_of(
            alloc,
            row.number("room", ROOM),
            ROOM,
            row.number("write", 0),
        )?,
        notes: sink_of(
            alloc,
            row.number("notes", ROOM),
            row.number("piece", ROOM),
            row.number("note", 0),
        )?,
    })
}

// Puts an event behind others: the number of the function, and the words that it is bound to.
fn push_event(alloc: Global, log: &mut String, event: &Event) -> Result<(), AllocError> {
    log.push_str(format!(in alloc; " {}", event.function)?.as_str())?;
    if !event.binding.bound {
        log.push_str(" free")?;
    }
    for (value, _) in event.binding.values.iter().zip(0..event.binding.count) {
        log.push_str(format!(in alloc; " {value}")?.as_str())?;
    }
    Ok(())
}

// How many probes are left, and the events that the last one was told.
fn log_of(alloc: Global, probes: &[Box<dyn Probe>]) -> Result<String, AllocError> {
    let Some(probe) = probes.last() else {
        return "0 left, 0 events".to_string(alloc);
    };
    let mut log = format!(in alloc; "{} left, {} events", probes.len(), probe.heard())?;
    let mut mark = ":";
    for index in 0..probe.heard() {
        if let Some(event) = probe.event(index) {
            log.push_str(mark)?;
            push_event(alloc, &mut log, &event)?;
            mark = ",";
        }
    }
    Ok(log)
}

// Carries out a command, and gives the number of its status.
fn status_of<H: Shelf>(
    alloc: Global,
    shelf: &mut H,
    command: &mut Command,
    oracle: &mut Box<dyn FetchOracle>,
    probes: &mut Vec<Box<dyn Probe>>,
) -> u8
    requires { All (λ probe. IsPatient (hearing (told probe) (patience probe))) probes.old.items }
{
    multiverse(
        alloc,
        command.words.as_slice(),
        shelf,
        &mut command.input,
        &mut command.out,
        &mut command.notes,
        oracle,
        probes,
    )
    .number()
}

// Carries out a command under the oracle that its words name, and gives the number of its status.
fn status_by_words<H: Shelf>(
    alloc: Global,
    shelf: &mut H,
    command: &mut Command,
    probes: &mut Vec<Box<dyn Probe>>,
) -> u8
    requires { All (λ probe. IsPatient (hearing (told probe) (patience probe))) probes.old.items }
{
    multiverse_by_words(
        alloc,
        command.words.as_slice(),
        shelf,
        &mut command.input,
        &mut command.out,
        &mut command.notes,
        probes,
    )
    .number()
}

// Carries out a command under an oracle of this name, and gives the number of its status.
fn status_under<H: Shelf>(
    alloc: Global,
    shelf: &mut H,
    command: &mut Command,
    oracle: &str,
    probes: &mut Vec<Box<dyn Probe>>,
) -> Result<u8, AllocError>
    requires { All (λ probe. IsPatient (hearing (told probe) (patience probe))) probes.old.items }
{
    if oracle == NAMED {
        return Ok(status_by_words(alloc, shelf, command, probes));
    }
    let mut oracle: Box<dyn FetchOracle> = Box::new(alloc, picks_of(alloc, oracle)?)?;
    Ok(status_of(alloc, shelf, command, &mut oracle, probes))
}

// What the devices and the probes tell of a command.
fn told_outcome(
    alloc: Global,
    status: u8,
    command: &Command,
    probes: &[Box<dyn Probe>],
) -> Result<Outcome, AllocError> {
    Ok(Outcome {
        status,
        out: command.out.bytes().to_vec(alloc)?,
        notes: command.notes.bytes().to_vec(alloc)?,
        log: log_of(alloc, probes)?,
    })
}

// Carries out a command over a shelf, under an oracle of this name, while two probes hear it.
fn heard<H: Shelf>(
    alloc: Global,
    shelf: &mut H,
    command: &mut Command,
    oracle: &str,
) -> Result<Outcome, AllocError> {
    let mut probes: Vec<Box<dyn Probe>> = Vec::new(alloc);
    probes.push(Box::new(alloc, Recorder::new(alloc, 1)?)?)?;
    probes.push(Box::new(alloc, Recorder::new(alloc, EVENTS)?)?)?;
    let status = status_under(alloc, shelf, command, oracle, &mut probes)?;
    told_outcome(alloc, status, command, probes.as_slice())
}

// A shelf in memory with the files of a row, of which a call fails.
fn failing_shelf(alloc: Global, row: &Row, call: u32) -> Result<MemShelf, AllocError> {
    let mut shelf = MemShelf::new(alloc, vec![in alloc; call]?);
    for file in row.files.iter() {
        shelf.put(alloc, file.name.as_str(), file.bytes.as_slice())?;
    }
    Ok(shelf)
}

// Puts the files of a row where the program runs.
fn put_files(rt: &HostRuntime, row: &Row) -> io::Result<()> {
    for file in row.files.iter() {
        fs::write(rt, file.name.as_str(), file.bytes.as_slice())?;
    }
    Ok(())
}

/// Carries out the command of some words, with the files, the input and the devices of a row, under an oracle of this name. What it saves stays for the
/// rows behind it, unless the shelf is one that fails.
pub(crate) fn outcome_of(
    rt: &HostRuntime,
    row: &Row,
    line: &str,
    oracle: &str,
) -> io::Result<Outcome> {
    let alloc = rt.alloc();
    let call = row.number("shelf", 0);
    if call > 0 {
        let mut shelf = failing_shelf(alloc, row, call)?;
        let mut command = command_of(rt, row, line)?;
        return Ok(heard(alloc, &mut shelf, &mut command, oracle)?);
    }
    put_files(rt, row)?;
    let mut command = command_of(rt, row, line)?;
    Ok(heard(alloc, &mut FileShelf::new(rt), &mut command, oracle)?)
}
