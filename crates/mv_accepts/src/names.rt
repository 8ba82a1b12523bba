//! What the names of a unit's file scope mean, through its declarations.
//!
//! Each declaration that keeps the rules leads from sound contents to sound ones (`specs/Names/Declared.antt`, `specs/Names/Laws.antt`).
//!
//! Laws on a unit that `unit_judgement` finds good, and its program.
//!
//! - `good_declarations_are_sound`, `good_units_are_sound`: through the declarations, what a name of file scope means is
//!   what the contents so far have, and stays so; and each function was defined where the names meant that.

ghost use Rattle.mv_accepts.specs.Names.Laws.{FileScopeIsSound, ItemIsSound};

use crate::numbers::functions_have_their_numbers;
use crate::statements::{good_bodies_are_typed, good_parameters_fit};

/// A declaration at file scope that keeps the rules (C11 6.9) leads from sound contents to sound ones that have what those before them had.
/// The call does nothing: its contract is the law.
pub fn good_declarations_are_sound()
    ensures { ItemIsSound }
{
    good_bodies_are_typed();
    good_parameters_fit();
}

/// What the declarations of a unit come to is sound where they keep the rules, and each function was defined in sound contents. The call
/// does nothing: its contract is the law.
pub fn good_units_are_sound()
    ensures { FileScopeIsSound }
{
    good_bodies_are_typed();
    good_parameters_fit();
    functions_have_their_numbers();
}
