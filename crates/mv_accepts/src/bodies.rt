//! The bodies of functions that keep the rules are well formed, beside being well typed.
//!
//! What is found of a body by the rules of statements is what the layers above ask for (`specs/Bodies/Formed.antt`, `specs/Bodies/Declared.antt`).
//!
//! - `good_bodies_are_well_formed`: such a body names what the program has (`stmt_is_well_formed`), its jumps have
//!   targets, the arms of each `switch` are labelled as they should be, and known functions are called with their
//!   arguments, where the names before it mean what the program has (`AreShaped`: scalars, arrays, switches, attributed
//!   functions). `good_bodies_name_declared_locals`: it names a local only where it is declared.
//!   `good_parameters_are_shaped`: parameters keep `AreShaped`. `good_definitions_are_well_formed`: all of it together
//!   for the definition of a function, its parameters and then its body, where the scope before it names no local and
//!   says what the program has.

ghost use Rattle.mv_accepts.specs.Bodies.Declared.{BodyNamesDeclared};
ghost use Rattle.mv_accepts.specs.Bodies.Definitions.{DefinitionHasParameters, DefinitionIsFormed};
ghost use Rattle.mv_accepts.specs.Bodies.Formed.{BodyIsFormed, ParametersAreShaped};

use crate::expressions::good_expressions_are_typed;
use crate::statements::{good_bodies_are_typed, good_parameters_fit};

/// The statements of a body that keeps the rules (C11 6.8) name what the program has and call known functions with their arguments, each
/// jump has its target, and the arms of each `switch` have labels. The call does nothing: its contract is the law.
pub fn good_bodies_are_well_formed()
    ensures { BodyIsFormed }
{
    good_expressions_are_typed();
}

/// What the names of a scope mean, beside their types, is so behind the parameters of a function that is defined (C11 6.9.1). The call does
/// nothing: its contract is the law.
pub fn good_parameters_are_shaped()
    ensures { ParametersAreShaped }
{}

/// A body that keeps the rules names a local only where it is declared (C11 6.2.1). The call does nothing: its contract is the law.
pub fn good_bodies_name_declared_locals()
    ensures { BodyNamesDeclared }
{}

/// The definition of a function that keeps the rules (C11 6.9.1) is well typed and well formed but for its list of switches, in each program
/// that has what the scope before it says. The call does nothing: its contract is the law.
pub fn good_definitions_are_well_formed()
    ensures parameters { DefinitionHasParameters }
    ensures formed { DefinitionIsFormed }
{
    good_bodies_are_typed();
    good_parameters_fit();
    good_bodies_are_well_formed();
    good_bodies_name_declared_locals();
    good_parameters_are_shaped();
}
