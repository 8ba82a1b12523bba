//! `gen`: a program is made of a number, and its text written, or it is run.

ghost use Rattle.std.specs.Prelude.{ℕ, ◌≡◌, ◌≤◌, ◌||◌, All, IfOk, IsTrue, Option, string_bytes};
ghost use Rattle.mv_gen.specs.Generated.{generated};
ghost use Rattle.mv_io.specs.Outside.{CountAfter};
ghost use Rattle.mv_probe.specs.Fates.{Fates};
ghost use Rattle.mv_probe.specs.Hearing.{hearing, object_at, Becomes, IsPatient};
ghost use Rattle.mv_refine.specs.Environment.{environment, writing, Reading};
ghost use Rattle.mv_top.specs.Generating.{is_cut_short, is_summed_up, summary, GenDoes, RunsPlainly, RunsText, Sums};

use crate::files::write_text;
use crate::run::run_text;
use mv_command::options::DEFAULT_STEPS;
use mv_command::{Oracle, RunOptions};
use mv_eval::writing::write_all;
use mv_gen::{functions_of, generate};
use mv_gen_accepted::generated_texts_are_accepted;
use mv_io::{Failed, Sink, Source};
use mv_notes::Status;
use mv_num::list::List;
use mv_probe::{FetchOracle, Probe};
use std::alloc::{AllocError, Global};

/// A source without bytes, which never fails.
#[derive(Clone, Copy, Drop)]
struct NoInput;

impl Source for NoInput {
    ghost use Rattle.std.specs.Prelude.{Some, []};

    ghost left = { λ _. Some [] };

    ghost faults = { λ _. 0 };

    fn read_byte(&mut self) -> Result<Option<u8>, Failed> {
        Ok(None)
    }
}

// Whether a run is summed up.
fn is_summed_up(status: Status) -> bool
    ensures { result ≡ is_summed_up status }
{
    matches!(
        status,
        Status::Ended(_) | Status::Trapped(_) | Status::Steps
    )
}

// The summary of a run of the text that is generated of a number.
fn summary(alloc: Global, number: u32, text: &[u8], status: Status) -> Result<String, AllocError>
    requires { text.now ≡ generated number }
    ensures { IfOk result (λ line. string_bytes line ≡ summary number status) }
{
    let bytes = text.len();
    let functions = functions_of(number);
    format!(in alloc; "gen {number} bytes {bytes} functions {functions} {status}\n")
}

// Writes what is due behind the output of a run, and gives the status that then stands.
fn sum_up<O: Sink>(alloc: Global, number: u32, text: &[u8], ran: Status, out: &mut O) -> Status
    requires { text.now ≡ generated number }
    ensures sums { IsTrue (is_summed_up ran || is_cut_short ran) →
        Sums number (writing (O.written out.old) (O.faults out.old)) (writing (O.written out.new) (O.faults out.new)) ran result }
    ensures later { O.faults out.old ≤ O.faults out.new }
    ensures count { (before : ℕ) → CountAfter (is_cut_short ran) before (O.faults out.old) → CountAfter (is_cut_short result) before (O.faults out.new) }
{
    if !is_summed_up(ran) {
        return ran;
    }
    let Ok(line) = summary(alloc, number, text, ran) else {
        return Status::Memory;
    };
    match write_all(out, line.as_str().as_bytes()) {
        Ok(()) => ran,
        Err(_) => Status::OutputFault,
    }
}

// Runs a text without input, to the default limit and without an operator.
fn run_plainly<O: Sink>(
    alloc: Global,
    text: &[u8],
    out: &mut O,
    oracle: &mut Box<dyn FetchOracle>,
    probes: &mut Vec<Box<dyn Probe>>,
) -> Status
    requires { All (λ probe. IsPatient (hearing (told probe) (patience probe))) probes.old.items }
    ensures ran { (input : Reading) → RunsPlainly
        (environment input (writing (O.written out.old) (O.faults out.old)) (way oracle.old))
        (environment input (writing (O.written out.new) (O.faults out.new)) (way oracle.new))
        (λ events. Fates (Becomes (λ probe. object_at probe.ptr probe.vtable) (λ probe. hearing (told probe) (patience probe)) events) probes.old.items probes.new.items)
        text.now result }
    ensures later { O.faults out.old ≤ O.faults out.new }
    ensures count { CountAfter (is_cut_short result) (O.faults out.old) (O.faults out.new) }
{
    let options = RunOptions {
        steps: DEFAULT_STEPS,
        items: List::new(alloc),
        oracle: Oracle::Oldest,
        bindings: false,
        words: false,
        log: false,
        stats: false,
    };
    match run_text(alloc, text, &options, &mut NoInput, out, oracle, probes) {
        Ok(performed) => performed.status,
        Err(_) => Status::Memory,
    }
}

// Runs the text that is generated of a number, and writes the summary.
fn run_generated<O: Sink>(
    alloc: Global,
    number: u32,
    text: &[u8],
    out: &mut O,
    oracle: &mut Box<dyn FetchOracle>,
    probes: &mut Vec<Box<dyn Probe>>,
) -> Status
    requires patient { All (λ probe. IsPatient (hearing (told probe) (patience probe))) probes.old.items }
    requires text { text.now ≡ generated number }
    ensures does { (input : Reading) → RunsText
        (environment input (writing (O.written out.old) (O.faults out.old)) (way oracle.old))
        (environment input (writing (O.written out.new) (O.faults out.new)) (way oracle.new))
        (λ events. Fates (Becomes (λ probe. object_at probe.ptr probe.vtable) (λ probe. hearing (told probe) (patience probe)) events) probes.old.items probes.new.items)
        number result }
    ensures count { CountAfter (is_cut_short result) (O.faults out.old) (O.faults out.new) }
{
    generated_texts_are_accepted();
    let ran = run_plainly(alloc, text, out, oracle, probes);
    sum_up(alloc, number, text, ran, out)
}

/// Makes the program of a number, and writes its text or runs it.
pub(crate) fn generate_program<O: Sink>(
    alloc: Global,
    number: u32,
    source: bool,
    out: &mut O,
    oracle: &mut Box<dyn FetchOracle>,
    probes: &mut Vec<Box<dyn Probe>>,
) -> Status
    requires { All (λ probe. IsPatient (hearing (told probe) (patience probe))) probes.old.items }
    ensures does { (input : Reading) → GenDoes
        (environment input (writing (O.written out.old) (O.faults out.old)) (way oracle.old))
        (environment input (writing (O.written out.new) (O.faults out.new)) (way oracle.new))
        (λ events. Fates (Becomes (λ probe. object_at probe.ptr probe.vtable) (λ probe. hearing (told probe) (patience probe)) events) probes.old.items probes.new.items)
        number source result }
    ensures count { CountAfter (is_cut_short result) (O.faults out.old) (O.faults out.new) }
{
    match generate(alloc, number) {
        Ok(text) if source => write_text(text.as_slice(), out),
        Ok(text) => run_generated(alloc, number, text.as_slice(), out, oracle, probes),
        Err(_) => Status::Memory,
    }
}
