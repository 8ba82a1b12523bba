//! What the text of a unit tells of its program.
//!
//! Laws on a unit that breaks no rule, and its program.
//!
//! - `switches_are_those_of_the_text`: the switches of each attributed function are those global switches whose names stand
//!   in the function's body and mean nothing that is declared in it, by the tree of the unit alone (`specs/Texts.antt`).
//! - `excesses_are_told`: the least limit that the program exceeds, with the count that exceeds it, is found in the counts
//!   that the text tells alone (`specs/Told.antt`).
#![tactic(auto)]

ghost use Rattle.mv_accepts_texts.specs.Switches.{SwitchesAreThoseOfTheText};
ghost use Rattle.mv_accepts_texts.specs.Told.{ExcessesAreTold};

use mv_accepts::numbers::functions_have_their_numbers;

/// The switches of an attributed function are those whose names stand in its body, other than behind `&`, and mean nothing that is declared
/// in the function; another function has none. The call does nothing: its contract is the law.
pub fn switches_are_those_of_the_text()
    ensures { SwitchesAreThoseOfTheText }
{
    functions_have_their_numbers();
}

/// No count of a program decides which limit it exceeds, and by how much, that the text of its unit doesn't tell. The call does nothing: its
/// contract is the law.
pub fn excesses_are_told()
    ensures { ExcessesAreTold }
{
    functions_have_their_numbers();
}
