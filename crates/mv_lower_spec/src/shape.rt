//! What the lowering of a program promises: its meaning, and the form of the code, which is whole and well formed, reads nothing that
//! the function doesn't read, and has sizes that are bounded by those of the source.
//!
//! What is proved of the code of a well-formed program's functions stands in `specs/Shape/Law.antt`, and what a function reads in `specs/Shape/Reads.antt`.
//!
//! - `lowered_forms_are_right`: the functions of a well-formed program are lowered to bodies that are whole and well
//!   formed, with trees of depth at most 4 and one call statement for each call, which read only the scalars and arrays
//!   that the function reads (`specs/Shape/Reads.antt`). The frame is bounded by the declared words and 8 for each level of
//!   depth, and the code by 6 statements and 9 tree nodes for each node of the source, with `allowance + 2 * tree nodes ≤
//!   40 * nodes + 7`: each form of statement is allowed the words that its code takes at most (`specs/Shape/Allowances.antt`).
//! - `lowering_is_right`: each well-formed program is lowered so that `IsLowering` holds (`specs/Shape/Lowering.antt`), which the code that
//!   lowers cites: the program's meaning and each function's, at every bound and under every numbering, at a cost of at
//!   most 20 + 100 × work, and the form of each body.
//! - Laws alone, without a test.

ghost use Rattle.mv_lower_spec.specs.Shape.Lowering.{LoweringIsRight};
ghost use Rattle.mv_lower_spec.specs.Shape.Law.{LoweredAreShallow, LoweredAreSmall, LoweredAreWellFormed, LoweredAreWhole, LoweredCallAsOften, LoweredReadNoMore};

use crate::programs::{functions_are_right, programs_are_right};

/// The code of the functions of a well-formed program has the form that the passes behind it ask for. The call does nothing: its contract is the law.
///
/// `shallow`: no tree is deeper than 4. `whole`: each temporary other than a parameter is written before it is read.
/// `well_formed`: what the body names is there, and its jumps have targets. `calls`: there is one call statement for each call. `reads`: no global is read
/// but those that the function reads. `small`: temporaries, array elements, statements and tree nodes are bounded.
pub fn lowered_forms_are_right()
    ensures shallow { LoweredAreShallow }
    ensures whole { LoweredAreWhole }
    ensures well_formed { LoweredAreWellFormed }
    ensures calls { LoweredCallAsOften }
    ensures reads { LoweredReadNoMore }
    ensures small { LoweredAreSmall }
{}

/// The lowering of a well-formed program keeps its promises. The call does nothing: its contract is the law.
pub fn lowering_is_right()
    ensures { LoweringIsRight }
{
    functions_are_right();
    programs_are_right();
    lowered_forms_are_right();
}
