//! The lowering of programs to intermediate code.
//!
//! - `lower_bodies`: of a program whose numbers of temporaries and blocks fit 32 bits (`IsSmall`) the body of each
//!   function, exactly as `mv_lower_spec` defines it (clause `exact`). Where the program is well formed (`IsWellFormed`),
//!   the bodies beside it are its lowering (`IsLowering`, clause `lowering`): under each numbering and at each bound the
//!   code means what the program means, at a cost of at most 20 + 100 × work, and each body has the form that the passes
//!   ask for (`mv_lower_spec::shape`). That the numbers of a well-formed program fit follows from the limits on programs.
//! - By its form its time is the size of the code times the depth of an expression, which the parser bounds by 255. Only
//!   tested: a `switch` of 6,000 arms (`mv_test_top`).
#![tactic(auto)]

ghost use Rattle.std.specs.Prelude.{◌≡◌, IfOk, map};
ghost use Rattle.mv_lower_spec.specs.Functions.{lower_function};
ghost use Rattle.mv_lower_spec.specs.Shape.Lowering.{IsLowering};
ghost use Rattle.mv_source_forms.specs.WellFormed.{IsWellFormed};
ghost use Rattle.mv_lower.specs.Programs.{IsSmall};

mod code;
mod declaration;
mod function;
mod names;
mod statement;
mod switch;

use crate::function::lower_function;
use mv_ast::program::Program;
use mv_ir::body::Body;
use mv_lower_spec::shape::lowering_is_right;
use mv_num::list::List;
use std::alloc::{AllocError, Global};

/// The bodies of a program's functions, in their order.
///
/// Expressions are lowered left to right, each from the first free temporary on, to statements and a tree of depth at most 4; the side
/// effects and traps of operands keep their order (C11 5.1.2.3, with the order of evaluation that the profile fixes). Statements are lowered
/// to blocks, loops and jumps out of them, and a `switch` to tests in front of its arms.
///
/// `exact`: they are the bodies that are defined, so each has rooms for the globals that its code names, where the program's data has
/// them, and marks the attributed functions that its code calls.
///
/// `lowering`: under each numbering of functions, at each bound, on each input and with all actions that fit, the code means what a
/// well-formed program means. The cost is at most 20 and 100 for one of the program's work; the same holds of each function, callees included.
pub fn lower_bodies(alloc: Global, program: &Program) -> Result<List<Body>, AllocError>
    requires { IsSmall program.now }
    ensures exact { IfOk result (λ bodies. bodies ≡ map (lower_function program.now) program.now.functions) }
    ensures lowering { IsWellFormed program.now → IfOk result (λ bodies. IsLowering program.now (record { program = program.now; bodies = bodies })) }
{
    lowering_is_right();
    let mut bodies = List::new(alloc);
    for function in program.functions.as_slice() {
        let body = lower_function(alloc, program, function)?;
        bodies.push(body)?;
    }
    Ok(bodies)
}
