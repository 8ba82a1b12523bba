//! Programs that the front end accepts have what the tables of an image need to know of them.
//!
//! - `programs_of_texts_have_table_facts`: the program of each text that the front end accepts has these facts.
//!   `names_are_identifiers`: such names are identifiers as the image format has them.

ghost use Rattle.mv_accepts_programs.specs.Facts.Laws.{NamesAreIdentifiers, ProgramsHaveTableFacts};

use crate::identifiers::units_of_texts_are_written;
use crate::programs_of_texts_are_well_formed;
use mv_accepts::globals::good_globals_are_formed;
use mv_accepts::statements::{good_bodies_are_typed, good_parameters_fit};

/// In the program of each text that the front end accepts the switches are different scalar globals of integer types, with 1 to 16
/// different values of these; each attributed function has at most six of them, in order, and 1 to 64 assignments; and all of these have
/// names that are identifiers. The call does nothing: its contract is the law.
pub fn programs_of_texts_have_table_facts()
    ensures { ProgramsHaveTableFacts }
{
    good_bodies_are_typed();
    good_parameters_fit();
    good_globals_are_formed();
    programs_of_texts_are_well_formed();
    units_of_texts_are_written();
}

/// A name in a source is an identifier of the format of images. The call does nothing: its contract is the law.
pub fn names_are_identifiers()
    ensures { NamesAreIdentifiers }
{}
