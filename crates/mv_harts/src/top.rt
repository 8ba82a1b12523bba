//! The top call.

ghost use Rattle.std.specs.Prelude.{ℕ, ◌≡◌, ◌≤◌, List, IfOk, map};
ghost use Rattle.std.specs.String.{string_bytes};
ghost use Rattle.mv_image.specs.Faults.{Rules};
ghost use Rattle.mv_io.specs.Outside.{CountAfter};
ghost use Rattle.mv_io.specs.Shelves.{AsksFor};
ghost use Rattle.mv_notes.specs.Lines.{names_output, names_shelf};
ghost use Rattle.mv_harts_meant.specs.Runnable.{IsRunnable};
ghost use Rattle.mv_harts_runs.specs.Harts.{Harts};
ghost use Rattle.mv_harts_words.specs.Asked.{asked};
ghost use Rattle.mv_build.specs.Verdicts.{IsBuiltFrom};
ghost use Rattle.mv_harts.specs.Outcomes.{around, output, Comes, FileComes, IsCarriedOut, IsRunOf, TextComes, status_of_build, status_of_shelf};
ghost use Rattle.mv_harts.specs.Texts.{text_of};

use crate::devices::{sinks_of, sources_of};
use crate::harts::run_harts;
use crate::runnable::built_programs_are_runnable;
use crate::text::text_of;
use mv_build::{BuildError, Built, build};
use mv_eval::writing::write_all;
use mv_harts_words::{Command, command_of, schedule_of};
use mv_image::Image;
use mv_io::{Shelf, ShelfError, Sink};
use mv_notes::{Performed, Status, report};
use mv_probe::FetchOracle;
use std::alloc::{AllocError, Global};

// The status of a load that gave nothing.
fn status_of_shelf(error: ShelfError) -> Status
    ensures { result ≡ status_of_shelf error }
{
    match error {
        ShelfError::Failed => Status::ShelfFault,
        ShelfError::Memory(_) => Status::Memory,
    }
}

// The status of a text that has no image.
fn status_of_build(error: BuildError) -> Status
    ensures { result ≡ status_of_build error }
{
    match error {
        BuildError::Refused(refusal) => Status::Refused(refusal),
        BuildError::Memory(_) => Status::Memory,
    }
}

// Runs what was built in so many harts, and gives the text of the run. An error is want of memory.
fn text_of_run(
    alloc: Global,
    built: &Built,
    command: &Command,
    oracle: &mut Box<dyn FetchOracle>,
) -> Result<Vec<u8>, AllocError>
    requires some { 1 ≤ command.now.count }
    requires few { command.now.count ≤ 4 }
    requires sound { IsRunnable built.now.program built.now.image }
    ensures { IfOk result (λ text. (hs : Harts) × IsRunOf built.now (asked command.now) hs × (text.items ≡ text_of hs)) }
{
    let schedule = schedule_of(alloc, command.count, command.number, command.turns)?;
    let mut sources = sources_of(alloc, command.count)?;
    let mut sinks = sinks_of(alloc, command.count)?;
    let end = run_harts(
        alloc,
        built,
        schedule.as_slice(),
        &mut sources,
        &mut sinks,
        oracle,
        &[],
    )?;
    text_of(alloc, &end, sinks.as_slice())
}

// Runs what was built of a text, and writes the text of the run.
fn run_built<O: Sink>(
    alloc: Global,
    built: &Built,
    command: &Command,
    out: &mut O,
    oracle: &mut Box<dyn FetchOracle>,
) -> Status
    requires some { 1 ≤ command.now.count }
    requires few { command.now.count ≤ 4 }
    requires sound { IsRunnable built.now.program built.now.image }
    ensures comes { (text : List ℕ) → IsBuiltFrom text built.now →
        TextComes (output (O.written out.old) (O.faults out.old)) (output (O.written out.new) (O.faults out.new)) (asked command.now) text result }
    ensures writing { CountAfter (names_output result) (O.faults out.old) (O.faults out.new) }
{
    let Ok(text) = text_of_run(alloc, built, command, oracle) else {
        return Status::Memory;
    };
    match write_all(out, text.as_slice()) {
        Ok(()) => Status::Done,
        Err(_) => Status::OutputFault,
    }
}

// An image keeps the rules. The call reads and changes nothing; it is for the clause.
fn keeps_rules(image: &Image)
    ensures { Rules image.now }
{
    let _entry = image.entry();
}

// Compiles a text, and runs it.
fn run_text<O: Sink>(
    alloc: Global,
    text: &[u8],
    command: &Command,
    out: &mut O,
    oracle: &mut Box<dyn FetchOracle>,
) -> Status
    requires some { 1 ≤ command.now.count }
    requires few { command.now.count ≤ 4 }
    ensures comes { TextComes (output (O.written out.old) (O.faults out.old)) (output (O.written out.new) (O.faults out.new)) (asked command.now) text.now result }
    ensures writing { CountAfter (names_output result) (O.faults out.old) (O.faults out.new) }
{
    built_programs_are_runnable();
    match build(alloc, text) {
        Ok(built) => {
            keeps_rules(&built.image);
            run_built(alloc, &built, command, out, oracle)
        }
        Err(error) => status_of_build(error),
    }
}

// Loads the file, and runs its text.
fn run_file<H: Shelf, O: Sink>(
    alloc: Global,
    command: &Command,
    shelf: &mut H,
    out: &mut O,
    oracle: &mut Box<dyn FetchOracle>,
) -> Status
    requires some { 1 ≤ command.now.count }
    requires few { command.now.count ≤ 4 }
    ensures comes { FileComes
        (around (H.files shelf.old) (H.asked shelf.old) (H.faults shelf.old) (output (O.written out.old) (O.faults out.old)))
        (around (H.files shelf.new) (H.asked shelf.new) (H.faults shelf.new) (output (O.written out.new) (O.faults out.new))) (asked command.now) result }
    ensures asks { AsksFor (H.asked shelf.old) (H.asked shelf.new) command.now.file.now }
    ensures count { CountAfter (names_shelf result) (H.faults shelf.old) (H.faults shelf.new) }
    ensures writing { CountAfter (names_output result) (O.faults out.old) (O.faults out.new) }
{
    match shelf.load(alloc, command.file) {
        Ok(text) => run_text(alloc, text.as_slice(), command, out, oracle),
        Err(error) => status_of_shelf(error),
    }
}

// Does what the words ask for, without the notes.
fn perform<H: Shelf, O: Sink>(
    alloc: Global,
    words: &[String],
    shelf: &mut H,
    out: &mut O,
    oracle: &mut Box<dyn FetchOracle>,
) -> Status
    ensures { Comes
        (around (H.files shelf.old) (H.asked shelf.old) (H.faults shelf.old) (output (O.written out.old) (O.faults out.old)))
        (around (H.files shelf.new) (H.asked shelf.new) (H.faults shelf.new) (output (O.written out.new) (O.faults out.new))) (map string_bytes words.now) result }
{
    match command_of(alloc, words) {
        Ok(Some(command)) => run_file(alloc, &command, shelf, out, oracle),
        Ok(None) => Status::Usage,
        Err(_) => Status::Memory,
    }
}

/// Runs the program of a file in several harts, as the words ask for: the words after the program's name. The text of the run goes to `out`, and the last line to
/// `notes`. Where memory was refused for that, `notes` is as it was; where a write failed, it has a part of what was due.
pub fn mvharts<H: Shelf, O: Sink, N: Sink>(
    alloc: Global,
    words: &[String],
    shelf: &mut H,
    out: &mut O,
    notes: &mut N,
    oracle: &mut Box<dyn FetchOracle>,
) -> Status
    ensures carried_out { IsCarriedOut
        (around (H.files shelf.old) (H.asked shelf.old) (H.faults shelf.old) (output (O.written out.old) (O.faults out.old)))
        (around (H.files shelf.new) (H.asked shelf.new) (H.faults shelf.new) (output (O.written out.new) (O.faults out.new)))
        (map string_bytes words.now) (output (N.written notes.old) (N.faults notes.old)) (output (N.written notes.new) (N.faults notes.new)) result }
    ensures notes { CountAfter (names_output result) (N.faults notes.old) (N.faults notes.new) }
{
    let status = perform(alloc, words, shelf, out, oracle);
    report(alloc, Performed::alone(alloc, status), notes)
}
