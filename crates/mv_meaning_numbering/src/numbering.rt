// Which lists of numbers are numberings.

ghost use Rattle.std.specs.Prelude.{◌≢◌, AllPairs, IfOk, IsTrue};
ghost use Rattle.std.specs.Bool.{Decides};
ghost use Rattle.mv_meaning_numbering.specs.Numberings.{IsNumbering};
ghost use Rattle.mv_source_forms.specs.Typing.{IsTyped};
ghost use Rattle.mv_meaning_numbering.specs.Laws.{MeansItself};

use mv_ast::program::Program;
use std::alloc::{AllocError, Global};
use std::collections::BTreeSet;

// Whether no number stands twice.
fn are_different(alloc: Global, numbers: &[u32]) -> Result<bool, AllocError>
    ensures { IfOk result (λ answer. Decides answer (AllPairs (λ m n. m ≢ n) numbers.now)) }
{
    let mut seen = BTreeSet::new(alloc);
    for number in numbers {
        if !seen.insert(*number)? {
            return Ok(false);
        }
    }
    Ok(true)
}

/// Whether a list of numbers is a numbering of the functions of a program, in their order: as many numbers as there are
/// functions, each above 0, no two the same. In time of the order of n log n. Where it is one, a well-typed program means under
/// it what it means.
pub fn is_numbering(alloc: Global, program: &Program, numbers: &[u32]) -> Result<bool, AllocError>
    ensures decides { IfOk result (λ answer. Decides answer (IsNumbering program.now numbers.now)) }
    ensures serves { IfOk result (λ answer. IsTrue answer → IsTyped program.now → MeansItself program.now numbers.now) }
{
    if numbers.len() != program.functions.len() || numbers.contains(&0) {
        return Ok(false);
    }
    are_different(alloc, numbers)
}
