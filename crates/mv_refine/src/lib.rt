//! Runs of images, which do what their programs mean.
//!
//! `run_image` starts a machine on an image and runs it. Its contract is *the run*, and trusts no image. `execute` does so with the image of
//! a `Built`. Its contract has two parts.
//!
//! - *The run* (`specs/Run.antt`): one run of that image by the machine's definition, on the bytes that were taken and whatever may come behind them, is what was done: its stop after the
//!   given number of instructions is the answer (`Steps` where it goes on), the output grew by what it wrote, it took what
//!   was taken, each probe was told its log and left exactly where that used up its patience, the report has exactly that log,
//!   where it was asked for and there was memory for it, how many instructions were executed and, where it was asked for, their departure, and the machine
//!   handed back is in its state. A device that failed is asked nothing more: its count of faults is one more, and no
//!   count rises but that of the device which the answer names. The oracle picked for each instruction that was executed, by its way, and its place
//!   went on by as many picks. Before a read or a write that failed it is a state after fewer instructions, and the
//!   oracle picked once more.
//! - *What the program means* with the actions on the same bytes (`specs/Meant.antt`), where the image does what its program means, the
//!   same actions fit both, and the source tells bytes or tells nothing: after `Ended` and `Trapped` the meaning at the number of
//!   instructions as its bound has that end, all its output was written and all that it takes was taken. After `Steps`,
//!   `InputFault` and `OutputFault` it is a part of that output, and no more was taken; after `Steps` no bound for which
//!   there was time has an end. A device fails only where the meaning asks for more: on what was taken before a failed
//!   read and any one byte more, it takes that one too, and its output is longer than what was written before a failed
//!   write. `Fault` and `Memory` never come. Where no count of faults rose and there was time for a bound at which the
//!   meaning has ended, the answer is that end.
//!
//! An error is want of memory before the first instruction, with all as before.
//!
//! `cut_runs_law` is of runs that a failing device cut off: a run that has taken some answers of its input stands the same on
//! these answers and one more, which is then still to come; or it has taken that one too, which is where it had come to the
//! end of its input before. So where its next instruction is a read, that takes the one more, if no earlier one has. And
//! where its next instruction is a write, one byte more is written behind it.
#![tactic(auto)]

ghost use Rattle.std.specs.Prelude.{◌≡◌, ◌≤◌, false, None, All, IfOk, IsTrue};
ghost use Rattle.mv_bindings.specs.Acts.{IsOfWord};
ghost use Rattle.mv_io.specs.Outside.{CountAfter};
ghost use Rattle.mv_machine.specs.Actions.{fits_rows};
ghost use Rattle.mv_machine.specs.Snapshots.{is_input_fault, is_output_fault};
ghost use Rattle.mv_probe.specs.Fates.{Fates};
ghost use Rattle.mv_probe.specs.Hearing.{hearing, object_at, Becomes, IsPatient};
ghost use Rattle.mv_refine.specs.Environment.{environment, reading, writing};
ghost use Rattle.mv_refine.specs.Execution.{Executes, RunsImage};

mod execution;
mod faults;

pub use execution::Execution;
pub use faults::cut_runs_law;
use mv_bindings::action::Action;
pub use mv_build::{BuildError, Built, build};
use mv_image::Image;
use mv_io::{Sink, Source};
use mv_machine::Machine;
use mv_probe::{FetchOracle, Probe};
use std::alloc::{AllocError, Global};

/// Runs an image for at most so many instructions. A poll takes the next of the actions, and each probe is told each changed binding; where the log
/// is wanted, the report has it, unless memory lacked for it; else it has none. Where places are wanted, it has the departure of the run; else none.
/// An error is want of memory for the machine, before the first instruction.
pub fn run_image<I: Source, O: Sink>(
    alloc: Global,
    image: &Image,
    logs: bool,
    places: bool,
    steps: u64,
    source: &mut I,
    sink: &mut O,
    oracle: &mut Box<dyn FetchOracle>,
    probes: &mut Vec<Box<dyn Probe>>,
    actions: &[Action],
) -> Result<Execution, AllocError>
    requires patient { All (λ probe. IsPatient (hearing (told probe) (patience probe))) probes.old.items }
    requires fit { All (λ action. IsTrue (fits_rows image.now.switches action)) actions.now }
    ensures runs { RunsImage image.now actions.now places steps
        (environment (reading (I.left source.old) (I.faults source.old)) (writing (O.written sink.old) (O.faults sink.old)) (way oracle.old))
        (environment (reading (I.left source.new) (I.faults source.new)) (writing (O.written sink.new) (O.faults sink.new)) (way oracle.new))
        (λ events. Fates (Becomes (λ probe. object_at probe.ptr probe.vtable) (λ probe. hearing (told probe) (patience probe)) events) probes.old.items probes.new.items)
        result }
    ensures later { O.faults sink.old ≤ O.faults sink.new }
    ensures reading { IfOk result (λ e. CountAfter (is_input_fault e.report.stopped) (I.faults source.old) (I.faults source.new)) }
    ensures writing { IfOk result (λ e. CountAfter (is_output_fault e.report.stopped) (O.faults sink.old) (O.faults sink.new)) }
    ensures unwanted { logs ≡ false → IfOk result (λ e. e.report.log ≡ None) }
{
    let mut machine = Machine::start(alloc, image)?;
    let report = machine.run(
        alloc, logs, places, steps, source, sink, oracle, probes, actions,
    );
    Ok(Execution { machine, report })
}

/// Runs the image of a program for at most so many instructions. A poll takes the next of the actions, and each probe is told each changed binding;
/// where the log is wanted, the report has it, unless memory lacked for it; else it has none. Where places are wanted, it has the departure of the
/// run; else none. An error is want of memory for the machine, before the first instruction.
pub fn execute<I: Source, O: Sink>(
    alloc: Global,
    built: &Built,
    logs: bool,
    places: bool,
    steps: u64,
    source: &mut I,
    sink: &mut O,
    oracle: &mut Box<dyn FetchOracle>,
    probes: &mut Vec<Box<dyn Probe>>,
    actions: &[Action],
) -> Result<Execution, AllocError>
    requires patient { All (λ probe. IsPatient (hearing (told probe) (patience probe))) probes.old.items }
    requires fit { All (λ action. IsTrue (fits_rows built.now.image.switches action)) actions.now }
    ensures executes { Executes built.now actions.now places steps
        (environment (reading (I.left source.old) (I.faults source.old)) (writing (O.written sink.old) (O.faults sink.old)) (way oracle.old))
        (environment (reading (I.left source.new) (I.faults source.new)) (writing (O.written sink.new) (O.faults sink.new)) (way oracle.new))
        (λ events. Fates (Becomes (λ probe. object_at probe.ptr probe.vtable) (λ probe. hearing (told probe) (patience probe)) events) probes.old.items probes.new.items)
        result }
    ensures later { O.faults sink.old ≤ O.faults sink.new }
    ensures reading { IfOk result (λ e. CountAfter (is_input_fault e.report.stopped) (I.faults source.old) (I.faults source.new)) }
    ensures writing { IfOk result (λ e. CountAfter (is_output_fault e.report.stopped) (O.faults sink.old) (O.faults sink.new)) }
    ensures unwanted { logs ≡ false → IfOk result (λ e. e.report.log ≡ None) }
{
    are_of_words(actions);
    run_image(
        alloc,
        &built.image,
        logs,
        places,
        steps,
        source,
        sink,
        oracle,
        probes,
        actions,
    )
}

/// The values of actions have 32 bits. The walk changes nothing; it is for the clause.
fn are_of_words(actions: &[Action])
    ensures { All IsOfWord actions.now }
{
    for action in actions {
        is_of_word(action);
    }
}

/// The value of an action has 32 bits.
fn is_of_word(action: &Action)
    ensures { IsOfWord action.now }
{
    if let Action::Flip { value, .. } = action {
        let _read = *value;
    }
}
