//! Evaluation of a program on an input: what it means, over a source and a sink.
//!
//! - `eval`: it takes the first 16,777,216 bytes that the source gives, or all of it; the answer is the end of the
//!   program's meaning on them at the bound, without an operator; and exactly the output of that meaning was written.
//!   Where a read failed, or memory was refused, no more than so many bytes were taken and nothing written; where a write
//!   failed, a part of the output was written. A read or a write failed only where the count of that object rose, by
//!   one, and no other count did: after a fault nothing is read or written. The condition is that the program has fewer than 2^32 functions and pointer switches.
//! - `writing::write_all`: all bytes were written, or less where a write failed.
//! - Tested through the programs of `mv_test_top`.
#![tactic(auto)]

ghost use Rattle.mv_io.specs.Outside.{Rose, CountAfter};
ghost use Rattle.std.specs.Prelude.{◌+◌, ◌≤◌, ◌<◌, ◌^◌, length};
ghost use Rattle.mv_eval.specs.Evaluations.{Evaluates, is_input_error, is_output_error};
ghost use Rattle.mv_eval.specs.Grown.{Grew};

pub mod error;
mod reading;
pub mod writing;

use crate::error::EvalError;
use crate::reading::read_input;
use crate::writing::write_all;
use mv_ast::program::Program;
use mv_interpret::program::evaluate;
use mv_io::{Sink, Source};
use mv_meaning::meant::End;
use std::alloc::Global;

/// Reads up to 16,777,216 bytes of the input, evaluates the program on them at a bound, without an operator, and writes what it writes. The end is the
/// program's, or `More` where the bound is used up before it.
pub fn eval<I: Source, O: Sink>(
    alloc: Global,
    program: &Program,
    bound: u32,
    input: &mut I,
    out: &mut O,
) -> Result<End, EvalError>
    requires { length program.now.functions + length program.now.pointers < 2 ^ 32 }
    ensures evaluates { Evaluates program.now bound (I.left input.old) (I.left input.new)
        (λ bytes. Grew (O.written out.old) (O.written out.new) bytes) (Rose (I.faults input.old) (I.faults input.new)) (Rose (O.faults out.old) (O.faults out.new)) result }
    ensures reading { CountAfter (is_input_error result) (I.faults input.old) (I.faults input.new) }
    ensures writing { CountAfter (is_output_error result) (O.faults out.old) (O.faults out.new) }
{
    let bytes = read_input(alloc, input)?;
    let meant = match evaluate(alloc, program, bytes.as_slice(), &[], bound) {
        Ok(meant) => meant,
        Err(e) => return Err(EvalError::Memory(e)),
    };
    match write_all(out, meant.output.as_slice()) {
        Ok(()) => Ok(meant.end),
        Err(_) => Err(EvalError::Output),
    }
}
