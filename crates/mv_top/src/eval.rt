//! `eval`: what a text means is evaluated.

ghost use Rattle.std.specs.Prelude.{◌≡◌, Option};
ghost use Rattle.mv_eval.specs.Evaluations.{is_input_error, is_output_error};
ghost use Rattle.mv_io.specs.Outside.{CountAfter};
ghost use Rattle.mv_io.specs.Shelves.{AsksFor};
ghost use Rattle.mv_probe.specs.Ways.{Way};
ghost use Rattle.mv_refine.specs.Environment.{environment, reading, writing};
ghost use Rattle.mv_notes.specs.Lines.{names_input, names_output, names_shelf};
ghost use Rattle.mv_top.specs.Evaluating.{EvalDoes, EvaluatesFile, status_of_error, status_of_evaluation};
ghost use Rattle.mv_top.specs.Outside.{outside, shelved};

use crate::files::status_of_shelf;
use mv_eval::error::EvalError;
use mv_eval::eval;
use mv_front::{FrontError, front};
use mv_io::{Shelf, Sink, Source};
use mv_meaning::meant::End;
use mv_notes::Status;
use std::alloc::Global;

// The status of an evaluation.
fn status_of(evaluation: Result<End, EvalError>) -> Status
    ensures status { result ≡ status_of_evaluation evaluation }
    ensures input { names_input result ≡ is_input_error evaluation }
    ensures output { names_output result ≡ is_output_error evaluation }
{
    match evaluation {
        Ok(End::Exit(status)) => Status::Ended(status),
        Ok(End::Trap(code)) => Status::Trapped(code),
        Ok(End::More) => Status::Steps,
        Err(EvalError::Input) => Status::InputFault,
        Err(EvalError::Output) => Status::OutputFault,
        Err(EvalError::Memory(_)) => Status::Memory,
    }
}

// The status of a text that is no program.
fn status_of_refusal(error: FrontError) -> Status
    ensures { result ≡ status_of_error error }
{
    match error {
        FrontError::Refused(refusal) => Status::Refused(refusal),
        FrontError::Memory(_) => Status::Memory,
    }
}

// Evaluates a text at a bound.
fn eval_text<I: Source, O: Sink>(
    alloc: Global,
    text: &[u8],
    bound: u32,
    input: &mut I,
    out: &mut O,
) -> Status
    ensures does { (way : Option Way) → EvalDoes (environment (reading (I.left input.old) (I.faults input.old)) (writing (O.written out.old) (O.faults out.old)) way)
        (environment (reading (I.left input.new) (I.faults input.new)) (writing (O.written out.new) (O.faults out.new)) way) bound text.now result }
    ensures reading { CountAfter (names_input result) (I.faults input.old) (I.faults input.new) }
    ensures writing { CountAfter (names_output result) (O.faults out.old) (O.faults out.new) }
{
    match front(alloc, text) {
        Ok(program) => status_of(eval(alloc, &program, bound, input, out)),
        Err(error) => status_of_refusal(error),
    }
}

/// Loads a file, and evaluates it at a bound.
pub(crate) fn eval_file<H: Shelf, I: Source, O: Sink>(
    alloc: Global,
    file: &str,
    bound: u32,
    shelf: &mut H,
    input: &mut I,
    out: &mut O,
) -> Status
    ensures comes { (way : Option Way) → EvaluatesFile
        (outside (shelved (H.files shelf.old) (H.asked shelf.old) (H.faults shelf.old)) (environment (reading (I.left input.old) (I.faults input.old)) (writing (O.written out.old) (O.faults out.old)) way))
        (outside (shelved (H.files shelf.new) (H.asked shelf.new) (H.faults shelf.new)) (environment (reading (I.left input.new) (I.faults input.new)) (writing (O.written out.new) (O.faults out.new)) way))
        file.now bound result }
    ensures files { H.files shelf.new ≡ H.files shelf.old }
    ensures asks { AsksFor (H.asked shelf.old) (H.asked shelf.new) file.now }
    ensures count { CountAfter (names_shelf result) (H.faults shelf.old) (H.faults shelf.new) }
    ensures reading { CountAfter (names_input result) (I.faults input.old) (I.faults input.new) }
    ensures writing { CountAfter (names_output result) (O.faults out.old) (O.faults out.new) }
{
    match shelf.load(alloc, file) {
        Ok(text) => eval_text(alloc, text.as_slice(), bound, input, out),
        Err(error) => status_of_shelf(error),
    }
}
