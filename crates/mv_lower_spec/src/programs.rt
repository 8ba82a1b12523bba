//! That lowered functions and programs mean what the source means.
//!
//! A well-formed program (`IsWellFormed` of `mv_source_forms`) is lowered function by function (`mv_lower_spec`). Two laws, each the contract of a function that does nothing,
//! say what its bodies do: `functions_are_right` of a call at a bound, `programs_are_right` of a whole run.
//!
//! - `functions_are_right`: a lowered function of a well-formed program does what the source's does, with all that it
//!   calls: at each bound, under each numbering, in each world, and whatever its temporaries and arrays hold when it
//!   begins, the same result, output, input taken, globals, bindings, log and trap, at a cost of at most 20 + 100 × work.
//!   The condition is that no call through a pointer goes to a function that doesn't fit.
//! - `programs_are_right`: a lowered program means what the program means: in each hart, under each numbering, on each
//!   input, with all that polls take and that fits there, at each bound, at a cost of at most 20 + 100 × work. It has no
//!   condition on calls, since a well-typed program makes none that doesn't fit.
//! - Laws alone, without a test.

ghost use Rattle.mv_lower_spec.specs.Programs.Laws.{FunctionsAreRight, ProgramsAreRight};

use mv_meaning_numbering::numbering_law;

/// A lowered function does what the source's does, with all functions that it calls: at each bound, under each numbering of the
/// functions, in each world, and whatever its temporaries and arrays hold when it begins, a call has the same output, input taken, bindings, log, globals,
/// trap and result, at a cost of at most 20 and 100 for one of work (C11 6.5.2.2). Of a call that goes, through a pointer, to no function that fits
/// nothing is said; a well-typed program makes none.
pub fn functions_are_right()
    ensures { FunctionsAreRight }
{}

/// A lowered program does what the program means: under each numbering of its functions, on each input, with all actions of the operator that fit, and at each
/// bound it has the same output, bytes taken, end, bindings and log, at a cost of at most 20 and 100 for one of work (C11 5.1.2.3).
pub fn programs_are_right()
    ensures { ProgramsAreRight }
{
    numbering_law();
}
