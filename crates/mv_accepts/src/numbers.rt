//! The numbers that a unit's names have before its first declaration is judged are those that they have in its program.
//!
//! Laws on a unit that `unit_judgement` finds good, and its program.
//!
//! - `functions_have_their_numbers`, `objects_have_their_numbers`: the functions, attributed functions, objects, switches and
//!   pointer switches that the unit's outline has are those of the program, with the same numbers, and each function is defined.

ghost use Rattle.mv_accepts.specs.Numbers.Numbers.{AttributedAreCounted, FunctionsAreDefined, ItemsAreForeknown, PointersAreCounted, SwitchesAreCounted};

use crate::statements::{good_bodies_are_typed, good_parameters_fit};

/// Each function that a unit defines by its outline is defined by its declarations, if they keep the rules, and has the number and the
/// attribute that are known of its name. The call does nothing: its contract is the law.
pub fn functions_have_their_numbers()
    ensures known { ItemsAreForeknown }
    ensures defined { FunctionsAreDefined }
    ensures attributed { AttributedAreCounted }
{}

/// The objects of a unit whose declarations keep the rules are those that are known from its outline, its switches those of them that any
/// declaration marks and that are no pointers, and its pointer switches are pointers. The call does nothing: its contract is the law.
pub fn objects_have_their_numbers()
    ensures switches { SwitchesAreCounted }
    ensures pointers { PointersAreCounted }
{
    good_bodies_are_typed();
    good_parameters_fit();
}
