//! The globals and the switches of a unit that keeps the rules are well formed.
//!
//! Laws on a unit that `unit_judgement` finds good, and its program.
//!
//! - `good_globals_are_formed`: globals have words, and are given no more values than that, of their types; switches are
//!   scalars of integer types with different values. `good_first_values_are_typed`: first values of function pointers are
//!   null or functions of the type.

ghost use Rattle.mv_accepts.specs.Globals.Globals.{GlobalsAreFormed};
ghost use Rattle.mv_accepts.specs.Globals.FirstValues.{FirstValuesAreTyped, FirstValuesAreKept, GlobalsHaveFirstValues};

use crate::expressions::{constants_come_to_their_values, good_expressions_are_typed};

/// Each global of a unit that keeps the rules has a word (C11 6.7.6.2), and is given no more values than it has words, and values of its
/// type (C11 6.7.9); the switches are scalar globals of integer types, with different values of these. The call does nothing: its
/// contract is the law.
pub fn good_globals_are_formed()
    ensures { GlobalsAreFormed }
{}

/// The words that a global is given are first values of its type in each program that has what the scope of its declaration says: of a
/// function pointer the addresses of functions of its type, and null (C11 6.6). So they stay behind each declarator at file scope, and
/// those of the objects at the end are those of the program's globals. The call does nothing: its contract is the law.
pub fn good_first_values_are_typed()
    ensures words { FirstValuesAreTyped }
    ensures objects { FirstValuesAreKept }
    ensures globals { GlobalsHaveFirstValues }
{
    constants_come_to_their_values();
    good_expressions_are_typed();
}
