//! The top call.

ghost use Rattle.std.specs.Prelude.{All, map};
ghost use Rattle.std.specs.String.{string_bytes};
ghost use Rattle.mv_io.specs.Outside.{CountAfter};
ghost use Rattle.mv_notes.specs.Lines.{names_output};
ghost use Rattle.mv_probe.specs.Fates.{Fates};
ghost use Rattle.mv_probe.specs.Hearing.{hearing, object_at, Becomes, IsPatient};
ghost use Rattle.mv_refine.specs.Environment.{environment, reading, writing};
ghost use Rattle.mv_top.specs.Outcomes.{Comes, IsCarriedOut, Performs};
ghost use Rattle.mv_top.specs.Outside.{outside, shelved};

use crate::check::check_file;
use crate::eval::eval_file;
use crate::exec::exec_file;
use crate::files::write_text;
use crate::generate::generate_program;
use crate::list::{Shown, list_file, shown_by_list};
use crate::run::run_file;
use crate::save::{Maker, save_file};
use mv_command::{Command, command_of};
use mv_gen_accepted::counted_programs_pass_no_limit;
use mv_io::{Shelf, Sink, Source};
use mv_notes::{Performed, Status, report};
use mv_probe::{FetchOracle, Probe};
use std::alloc::{AllocError, Global};

// Carries out a command, without its notes. An error is want of memory for the lines that it is asked for.
// An arm for each command.
fn perform<H: Shelf, I: Source, O: Sink>(
    alloc: Global,
    words: &[String],
    shelf: &mut H,
    input: &mut I,
    out: &mut O,
    oracle: &mut Box<dyn FetchOracle>,
    probes: &mut Vec<Box<dyn Probe>>,
) -> Result<Performed, AllocError>
    requires { All (λ probe. IsPatient (hearing (told probe) (patience probe))) probes.old.items }
    ensures { Performs (Comes
        (outside (shelved (H.files shelf.old) (H.asked shelf.old) (H.faults shelf.old)) (environment (reading (I.left input.old) (I.faults input.old)) (writing (O.written out.old) (O.faults out.old)) (way oracle.old)))
        (outside (shelved (H.files shelf.new) (H.asked shelf.new) (H.faults shelf.new)) (environment (reading (I.left input.new) (I.faults input.new)) (writing (O.written out.new) (O.faults out.new)) (way oracle.new)))
        (λ events. Fates (Becomes (λ probe. object_at probe.ptr probe.vtable) (λ probe. hearing (told probe) (patience probe)) events) probes.old.items probes.new.items)
        (map string_bytes words.now)) result }
{
    match command_of(alloc, words) {
        Ok(Some(Command::Run { file, options })) => {
            run_file(alloc, file, &options, shelf, input, out, oracle, probes)
        }
        Ok(Some(Command::Build { file, image })) => {
            let status = save_file(alloc, Maker::Build, file, image, shelf);
            Ok(Performed::alone(alloc, status))
        }
        Ok(Some(Command::Exec { image, options })) => {
            exec_file(alloc, image, &options, shelf, input, out, oracle, probes)
        }
        Ok(Some(Command::List { image, words })) => {
            let status = list_file(alloc, shown_by_list(words), image, shelf, out);
            Ok(Performed::alone(alloc, status))
        }
        Ok(Some(Command::Eval { file, bound })) => {
            let status = eval_file(alloc, file, bound, shelf, input, out);
            Ok(Performed::alone(alloc, status))
        }
        Ok(Some(Command::Gen { number, source })) => {
            let status = generate_program(alloc, number, source, out, oracle, probes);
            Ok(Performed::alone(alloc, status))
        }
        Ok(
            Some(
                Command::Convert {
                    conversion,
                    from,
                    to,
                },
            ),
        ) => {
            let status = save_file(alloc, Maker::Convert(conversion), from, to, shelf);
            Ok(Performed::alone(alloc, status))
        }
        Ok(Some(Command::Disassemble { image })) => {
            let status = list_file(alloc, Shown::Assembler, image, shelf, out);
            Ok(Performed::alone(alloc, status))
        }
        Ok(Some(Command::Check { file, image })) => {
            let status = check_file(alloc, file, image, shelf);
            Ok(Performed::alone(alloc, status))
        }
        Ok(Some(Command::Print { text })) => {
            let status = write_text(text.as_slice(), out);
            Ok(Performed::alone(alloc, status))
        }
        Ok(None) => Ok(Performed::alone(alloc, Status::Usage)),
        Err(_) => Ok(Performed::alone(alloc, Status::Memory)),
    }
}

/// Carries out the command that the words are: the words after the program's name. The output goes to `out`, and to `notes` the lines that are
/// asked for and the last line. Where memory was refused for these, `notes` is as it was; where a write failed, it has a part of what was due.
/// What runs fetches by the oracle, and tells the probes each change of a binding.
pub fn multiverse<H: Shelf, I: Source, O: Sink, N: Sink>(
    alloc: Global,
    words: &[String],
    shelf: &mut H,
    input: &mut I,
    out: &mut O,
    notes: &mut N,
    oracle: &mut Box<dyn FetchOracle>,
    probes: &mut Vec<Box<dyn Probe>>,
) -> Status
    requires { All (λ probe. IsPatient (hearing (told probe) (patience probe))) probes.old.items }
    ensures carried_out { IsCarriedOut
        (outside (shelved (H.files shelf.old) (H.asked shelf.old) (H.faults shelf.old)) (environment (reading (I.left input.old) (I.faults input.old)) (writing (O.written out.old) (O.faults out.old)) (way oracle.old)))
        (outside (shelved (H.files shelf.new) (H.asked shelf.new) (H.faults shelf.new)) (environment (reading (I.left input.new) (I.faults input.new)) (writing (O.written out.new) (O.faults out.new)) (way oracle.new)))
        (λ events. Fates (Becomes (λ probe. object_at probe.ptr probe.vtable) (λ probe. hearing (told probe) (patience probe)) events) probes.old.items probes.new.items)
        (map string_bytes words.now) (writing (N.written notes.old) (N.faults notes.old)) (writing (N.written notes.new) (N.faults notes.new)) result }
    ensures notes { CountAfter (names_output result) (N.faults notes.old) (N.faults notes.new) }
{
    counted_programs_pass_no_limit();
    match perform(alloc, words, shelf, input, out, oracle, probes) {
        Ok(performed) => report(alloc, performed, notes),
        Err(_) => Status::Memory,
    }
}
