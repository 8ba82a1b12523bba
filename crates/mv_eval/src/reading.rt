//! Reading the input of an evaluation.

ghost use Rattle.std.specs.Prelude.{◌≤◌};
ghost use Rattle.mv_io.specs.Outside.{Rose, CountAfter};
ghost use Rattle.mv_eval.specs.Evaluations.{ReadsInput, is_input_error};

use crate::error::EvalError;
use mv_io::Source;
use mv_num::list::List;
use std::alloc::{AllocError, Global};

/// How many bytes are read at most.
const MOST: usize = 16_777_216;

/// The first 16,777,216 bytes of the input, or all of it where there are fewer.
pub fn read_input<S: Source>(alloc: Global, source: &mut S) -> Result<List<u8>, EvalError>
    ensures reads { ReadsInput (S.left source.old) (S.left source.new) (Rose (S.faults source.old) (S.faults source.new)) result }
    ensures later { S.faults source.old ≤ S.faults source.new }
    ensures count { CountAfter (is_input_error result) (S.faults source.old) (S.faults source.new) }
{
    let mut bytes = List::new(alloc);
    'reading: while bytes.len() < MOST {
        let byte = match source.read_byte() {
            Ok(Some(byte)) => byte,
            Ok(None) => return Ok(bytes),
            Err(_) => return Err(EvalError::Input),
        };
        if bytes.push(byte).is_err() {
            return Err(EvalError::Memory(AllocError));
        }
    }
    Ok(bytes)
}
