//! `run`: a text is compiled, and its image run.

ghost use Rattle.std.specs.Prelude.{ℕ, ◌≡◌, ◌≤◌, List, All, IfErr, IfOk, IsTrue};
ghost use Rattle.mv_command.specs.Commands.{Runs};
ghost use Rattle.mv_command.specs.Items.{Ascend};
ghost use Rattle.mv_bindings.specs.declared.binding.Event.{Event};
ghost use Rattle.mv_machine.specs.Actions.{fits_rows};
ghost use Rattle.mv_machine.specs.Snapshots.{Logs};
ghost use Rattle.mv_notes.specs.Lines.{asked_lines};
ghost use Rattle.mv_probe.specs.Fates.{Fates};
ghost use Rattle.mv_probe.specs.Hearing.{hearing, object_at, Becomes, IsPatient};
ghost use Rattle.mv_refine.specs.Environment.{environment, reading, writing};
ghost use Rattle.mv_top.specs.Outcomes.{Carries, Performs};
ghost use Rattle.mv_top.specs.Outside.{outside, shelved};
ghost use Rattle.mv_top.specs.Running.{IsCause, IsPrepared, RunComes, status_of_build, status_of_stop};

use crate::files::status_of_shelf;
use mv_actions::{ActionsError, actions_of};
use mv_bindings::action::Action;
use mv_command::{Item, RunOptions};
use mv_front::Refusal;
use mv_image::Image;
use mv_io::{Shelf, Sink, Source};
use mv_machine::Stopped;
use mv_notes::{Performed, Status, lines_of_run};
use mv_num::list::List;
use mv_probe::{FetchOracle, Probe};
use mv_refine::{BuildError, Built, Execution, build, execute};
use std::alloc::{AllocError, Global};

/// A program with its image, and what the operator does at its polls.
#[derive(Drop)]
pub(crate) struct Prepared {
    pub(crate) built: Built,
    pub(crate) actions: Vec<Action>,
}

// The program of a text with its image, and the actions that items are. After all refusals of the text comes that of the first item that is no
// action of the program.
fn prepare(alloc: Global, text: &[u8], items: &List<Item>) -> Result<Prepared, BuildError>
    requires { Ascend 0 items.now }
    ensures ok { IfOk result (λ p. IsPrepared text.now items.now p) }
    ensures fit { IfOk result (λ p. All (λ action. IsTrue (fits_rows p.built.image.switches action)) p.actions.items) }
    ensures err { IfErr result (λ e. IsCause text.now items.now e) }
{
    let built = build(alloc, text)?;
    match actions_of(alloc, &built.program, items) {
        Ok(actions) => Ok(Prepared { built, actions }),
        Err(ActionsError::Refused(item)) => {
            Err(BuildError::Refused(Refusal::counted(15, 0, item)))
        }
        Err(ActionsError::Memory(error)) => Err(BuildError::Memory(error)),
    }
}

// The status of a run that has stopped.
fn status_of_stop(stopped: Stopped) -> Status
    ensures { result ≡ status_of_stop stopped }
{
    match stopped {
        Stopped::Ended(status) => Status::Ended(status),
        Stopped::Trapped(code) => Status::Trapped(code),
        Stopped::Steps => Status::Steps,
        Stopped::InputFault => Status::InputFault,
        Stopped::OutputFault => Status::OutputFault,
        Stopped::Fault(address, cause) => Status::MachineFault(address, cause),
        Stopped::Memory => Status::Memory,
    }
}

/// The status of a text that has no image.
pub(crate) fn status_of_build(error: BuildError) -> Status
    ensures { result ≡ status_of_build error }
{
    match error {
        BuildError::Refused(refusal) => Status::Refused(refusal),
        BuildError::Memory(_) => Status::Memory,
    }
}

/// What a run came to, with the lines that it is asked for.
pub(crate) fn finished(
    alloc: Global,
    options: &RunOptions,
    image: &Image,
    execution: &Execution,
) -> Result<Performed, AllocError>
    ensures status { IfOk result (λ performed. performed.status ≡ status_of_stop execution.now.report.stopped) }
    ensures lines { IfOk result (λ performed. (log : List Event) → Logs execution.now.report.log log → performed.lines.items ≡ asked_lines options.now image.now execution.now.machine log execution.now.report) }
{
    let Execution { machine, report } = execution;
    let lines = lines_of_run(alloc, options, image, machine, report)?;
    let status = status_of_stop(report.stopped);
    Ok(Performed { status, lines })
}

// Runs what was prepared of a text, and makes the lines that are asked for. An error is want of memory for these lines.
fn run_prepared<I: Source, O: Sink>(
    alloc: Global,
    prepared: &Prepared,
    options: &RunOptions,
    input: &mut I,
    out: &mut O,
    oracle: &mut Box<dyn FetchOracle>,
    probes: &mut Vec<Box<dyn Probe>>,
) -> Result<Performed, AllocError>
    requires patient { All (λ probe. IsPatient (hearing (told probe) (patience probe))) probes.old.items }
    requires fit { All (λ action. IsTrue (fits_rows prepared.now.built.image.switches action)) prepared.now.actions.items }
    ensures ran { (text : List ℕ) → IsPrepared text options.now.items prepared.now → Performs (RunComes
        (environment (reading (I.left input.old) (I.faults input.old)) (writing (O.written out.old) (O.faults out.old)) (way oracle.old))
        (environment (reading (I.left input.new) (I.faults input.new)) (writing (O.written out.new) (O.faults out.new)) (way oracle.new))
        (λ events. Fates (Becomes (λ probe. object_at probe.ptr probe.vtable) (λ probe. hearing (told probe) (patience probe)) events) probes.old.items probes.new.items)
        options.now text) result }
    ensures later { O.faults out.old ≤ O.faults out.new }
{
    let Prepared { built, actions } = prepared;
    let actions = actions.as_slice();
    match execute(
        alloc,
        built,
        options.log,
        options.stats,
        options.steps,
        input,
        out,
        oracle,
        probes,
        actions,
    ) {
        Ok(execution) => finished(alloc, options, &built.image, &execution),
        Err(_) => Ok(Performed::alone(alloc, Status::Memory)),
    }
}

/// Compiles a text and runs it. An error is want of memory for the lines that are asked for.
pub(crate) fn run_text<I: Source, O: Sink>(
    alloc: Global,
    text: &[u8],
    options: &RunOptions,
    input: &mut I,
    out: &mut O,
    oracle: &mut Box<dyn FetchOracle>,
    probes: &mut Vec<Box<dyn Probe>>,
) -> Result<Performed, AllocError>
    requires patient { All (λ probe. IsPatient (hearing (told probe) (patience probe))) probes.old.items }
    requires ascend { Ascend 0 options.now.items }
    ensures ran { Performs (RunComes
        (environment (reading (I.left input.old) (I.faults input.old)) (writing (O.written out.old) (O.faults out.old)) (way oracle.old))
        (environment (reading (I.left input.new) (I.faults input.new)) (writing (O.written out.new) (O.faults out.new)) (way oracle.new))
        (λ events. Fates (Becomes (λ probe. object_at probe.ptr probe.vtable) (λ probe. hearing (told probe) (patience probe)) events) probes.old.items probes.new.items)
        options.now text.now) result }
    ensures later { O.faults out.old ≤ O.faults out.new }
{
    match prepare(alloc, text, &options.items) {
        Ok(prepared) => run_prepared(alloc, &prepared, options, input, out, oracle, probes),
        Err(error) => Ok(Performed::alone(alloc, status_of_build(error))),
    }
}

/// Loads a file and runs it. An error is want of memory for the lines that are asked for.
pub(crate) fn run_file<H: Shelf, I: Source, O: Sink>(
    alloc: Global,
    file: &str,
    options: &RunOptions,
    shelf: &mut H,
    input: &mut I,
    out: &mut O,
    oracle: &mut Box<dyn FetchOracle>,
    probes: &mut Vec<Box<dyn Probe>>,
) -> Result<Performed, AllocError>
    requires patient { All (λ probe. IsPatient (hearing (told probe) (patience probe))) probes.old.items }
    requires ascend { Ascend 0 options.now.items }
    ensures { Performs (Carries
        (outside (shelved (H.files shelf.old) (H.asked shelf.old) (H.faults shelf.old)) (environment (reading (I.left input.old) (I.faults input.old)) (writing (O.written out.old) (O.faults out.old)) (way oracle.old)))
        (outside (shelved (H.files shelf.new) (H.asked shelf.new) (H.faults shelf.new)) (environment (reading (I.left input.new) (I.faults input.new)) (writing (O.written out.new) (O.faults out.new)) (way oracle.new)))
        (λ events. Fates (Becomes (λ probe. object_at probe.ptr probe.vtable) (λ probe. hearing (told probe) (patience probe)) events) probes.old.items probes.new.items)
        (Runs file.now options.now)) result }
{
    match shelf.load(alloc, file) {
        Ok(text) => run_text(alloc, text.as_slice(), options, input, out, oracle, probes),
        Err(error) => Ok(Performed::alone(alloc, status_of_shelf(error))),
    }
}
