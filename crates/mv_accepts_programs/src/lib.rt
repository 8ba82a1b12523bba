//! The program of a unit that keeps the rules, and is within the limits, is what the layers above ask for.
//!
//! - `programs_of_texts_are_well_formed`: the program of a text, as `mv_front`'s contract says it (`IsProgram`), is well
//!   formed and well typed; so it is lowered by `lower`. Nothing else is asked of the text.
//! - Below it, `programs_of_small_units_are_well_formed`: the same of the program of each unit that breaks no rule, of
//!   which no limit is reported, and that has at most 4,194,304 nodes; `checked_programs_are_well_formed`: and of each
//!   such program of at most 16,777,216 nodes. `own_switches_are_named`: a function whose switches are those that its
//!   statements name names no other.
//!
//! Beside this and above it, in modules with their own specifications and headers, laws alone:
//!
//! - `identifiers`: the names of a unit are identifiers, and its domains and enumerations have members (`units_of_texts_are_written`).
//! - `facts`: programs that the front end accepts have what the tables of an image need to know (`programs_of_texts_have_table_facts`).
#![tactic(auto)]

ghost use Rattle.mv_accepts_programs.specs.Checked.{CheckedAreWellFormed, ProgramsOfTextsAreWellFormed, SmallUnitsAreWellFormed};
ghost use Rattle.mv_accepts_programs.specs.OwnSwitches.{OwnSwitchesAreNamed};

pub mod facts;
pub mod identifiers;

use mv_accepts::bodies::good_definitions_are_well_formed;
use mv_accepts::globals::{good_first_values_are_typed, good_globals_are_formed};
use mv_accepts::limits::{
    main_is_typed, main_is_unmarked, programs_of_small_units_are_small, units_of_texts_are_small,
    unreported_programs_are_within_limits,
};
use mv_accepts::names::good_units_are_sound;
use mv_accepts::numbers::{functions_have_their_numbers, objects_have_their_numbers};
use mv_accepts::statements::{good_bodies_are_typed, good_parameters_fit};

/// Where the switches of a function are listed as those that its statements name, each switch that an expression in it names is one of
/// them. The call does nothing: its contract is the law.
pub fn own_switches_are_named()
    ensures { OwnSwitchesAreNamed }
{}

/// The program of a unit whose declarations keep the rules (C11 6.9) is well typed and well formed, where no limit is reported and its
/// nodes are few enough. The call does nothing: its contract is the law.
pub fn checked_programs_are_well_formed()
    ensures { CheckedAreWellFormed }
{
    good_parameters_fit();
    good_bodies_are_typed();
    good_definitions_are_well_formed();
    own_switches_are_named();
    functions_have_their_numbers();
    objects_have_their_numbers();
    good_units_are_sound();
    good_globals_are_formed();
    good_first_values_are_typed();
    main_is_typed();
    main_is_unmarked();
    unreported_programs_are_within_limits();
}

/// So is the program of such a unit that has few enough nodes itself. The call does nothing: its contract is the law.
pub fn programs_of_small_units_are_well_formed()
    ensures { SmallUnitsAreWellFormed }
{
    checked_programs_are_well_formed();
    programs_of_small_units_are_small();
}

/// So is the program of each text that the front end accepts: its unit has no more nodes than the text has bytes, of which there are at
/// most 1,048,576. The call does nothing: its contract is the law.
pub fn programs_of_texts_are_well_formed()
    ensures { ProgramsOfTextsAreWellFormed }
{
    programs_of_small_units_are_well_formed();
    units_of_texts_are_small();
}
