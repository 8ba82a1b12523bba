//! What is written to the notes.

ghost use Rattle.std.specs.Prelude.{◌≡◌, ◌++◌, List, [], IfOk, if◌then◌else◌, string_bytes};
ghost use Rattle.mv_bindings.specs.declared.binding.Event.{Event};
ghost use Rattle.mv_io.specs.Outside.{CountAfter};
ghost use Rattle.mv_list.specs.Bindings.{bindings_text};
ghost use Rattle.mv_list.specs.Changes.{patched_text};
ghost use Rattle.mv_list.specs.Events.{events_text};
ghost use Rattle.mv_machine.specs.Snapshots.{Logs};
ghost use Rattle.mv_notes.specs.Lines.{asked_lines, names_output, owed, stats_line, trap_line, Noted};

use crate::status::Status;
use mv_command::RunOptions;
use mv_eval::writing::write_all;
use mv_image::Image;
use mv_io::Sink;
use mv_list::{bindings, events, patched, place};
use mv_machine::{Machine, Report, Stopped};
use std::alloc::{AllocError, Global};

/// What a command came to: its status, and the lines that it was asked for.
#[derive(Drop)]
pub struct Performed {
    /// The status that is due.
    pub status: Status,
    /// The lines, each with its line feed.
    pub lines: Vec<u8>,
}

impl Performed {
    /// A status alone.
    pub fn alone(alloc: Global, status: Status) -> Performed
        ensures status { result.status ≡ status }
        ensures lines { result.lines.items ≡ [] }
    {
        Performed {
            status,
            lines: Vec::new(alloc),
        }
    }
}

// The lines of bindings, where they are wanted.
fn binding_lines(
    alloc: Global,
    wanted: bool,
    image: &Image,
    machine: &Machine,
) -> Result<Vec<u8>, AllocError>
    ensures { IfOk result (λ lines. lines.items ≡ (if wanted then bindings_text image.now machine.now.bindings else [])) }
{
    if wanted {
        bindings(alloc, image, machine.bindings())
    } else {
        Ok(Vec::new(alloc))
    }
}

// The lines of changed words, where they are wanted.
fn word_lines(
    alloc: Global,
    wanted: bool,
    image: &Image,
    machine: &Machine,
) -> Result<Vec<u8>, AllocError>
    ensures { IfOk result (λ lines. lines.items ≡ (if wanted then patched_text image.now machine.now.room.held else [])) }
{
    if wanted {
        patched(alloc, image, machine)
    } else {
        Ok(Vec::new(alloc))
    }
}

// The lines of the log, where they are wanted. An error is want of memory, also where the log wasn't kept for it.
fn log_lines(
    alloc: Global,
    wanted: bool,
    image: &Image,
    report: &Report,
) -> Result<Vec<u8>, AllocError>
    ensures { IfOk result (λ lines. (log : List Event) → Logs report.now.log log → lines.items ≡ (if wanted then events_text image.now log else [])) }
{
    if !wanted {
        return Ok(Vec::new(alloc));
    }
    match &report.log {
        Some(log) => events(alloc, image, log),
        None => Err(AllocError),
    }
}

// The line of the place from where a run departed last, where it trapped and there is one.
fn trap_line(alloc: Global, image: &Image, report: &Report) -> Result<Vec<u8>, AllocError>
    ensures { IfOk result (λ line. line.items ≡ trap_line image.now report.now.stopped report.now.departed) }
{
    let mut line = Vec::new(alloc);
    if let (Stopped::Trapped(_), Some(address)) = (report.stopped, report.departed) {
        let place = place(alloc, image, address)?;
        line.extend_from_slice(b"at ")?;
        line.extend_from_slice(place.as_slice())?;
        line.push(b'\n')?;
    }
    Ok(line)
}

// The lines of the number of instructions and of the place, where they are wanted.
fn stats_lines(
    alloc: Global,
    wanted: bool,
    image: &Image,
    report: &Report,
) -> Result<Vec<u8>, AllocError>
    ensures { IfOk result (λ lines. lines.items ≡ (if wanted then stats_line report.now.executed ++ trap_line image.now report.now.stopped report.now.departed else [])) }
{
    let mut lines = Vec::new(alloc);
    if wanted {
        let count = report.executed;
        let line = format!(in alloc; "instructions {count}\n")?;
        let place = trap_line(alloc, image, report)?;
        lines.extend_from_slice(line.as_bytes())?;
        lines.extend_from_slice(place.as_slice())?;
    }
    Ok(lines)
}

/// The lines that a run is asked for, of its image, of the machine as it stopped and of what it did.
pub fn lines_of_run(
    alloc: Global,
    options: &RunOptions,
    image: &Image,
    machine: &Machine,
    report: &Report,
) -> Result<Vec<u8>, AllocError>
    ensures { IfOk result (λ lines. (log : List Event) → Logs report.now.log log → lines.items ≡ asked_lines options.now image.now machine.now log report.now) }
{
    let mut lines = log_lines(alloc, options.log, image, report)?;
    let bindings = binding_lines(alloc, options.bindings, image, machine)?;
    let words = word_lines(alloc, options.words, image, machine)?;
    let stats = stats_lines(alloc, options.stats, image, report)?;
    lines.extend_from_slice(bindings.as_slice())?;
    lines.extend_from_slice(words.as_slice())?;
    lines.extend_from_slice(stats.as_slice())?;
    Ok(lines)
}

// The lines, and the last line behind them; nothing where there is no last line.
fn owed(alloc: Global, performed: Performed) -> Result<Vec<u8>, AllocError>
    ensures { IfOk result (λ text. text.items ≡ owed performed.lines.items performed.status) }
{
    let Performed { status, mut lines } = performed;
    if status.is_silent() {
        return Ok(Vec::new(alloc));
    }
    let line = format!(in alloc; "{status}\n")?;
    lines.extend_from_slice(line.as_str().as_bytes())?;
    Ok(lines)
}

/// Writes what the notes are owed, and gives the status that then stands.
pub fn report<N: Sink>(alloc: Global, performed: Performed, notes: &mut N) -> Status
    ensures noted { Noted performed.lines.items performed.status (N.written notes.old) (N.written notes.new) (N.faults notes.old) (N.faults notes.new) result }
    ensures count { CountAfter (names_output result) (N.faults notes.old) (N.faults notes.new) }
{
    let status = performed.status;
    let Ok(text) = owed(alloc, performed) else {
        return Status::Memory;
    };
    match write_all(notes, text.as_slice()) {
        Ok(()) => status,
        Err(_) => Status::OutputFault,
    }
}
