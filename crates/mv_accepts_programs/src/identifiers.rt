//! The names of a unit are identifiers, and its domains and enumerations have members.
//!
//! - `units_of_texts_are_written`: in the unit that a source reads as each declared name is such an identifier, and each
//!   written domain and enumeration has a member.

ghost use Rattle.mv_accepts_programs.specs.Identifiers.Written.{UnitsOfTextsAreWritten};

/// In the unit that a source reads as, each declared name is an identifier that is no keyword (C11 6.4.1, 6.4.2.1), each domain that is
/// written has a value, and each enumerator list an enumerator (C11 6.7.2.2). The call does nothing: its contract is the law.
pub fn units_of_texts_are_written()
    ensures { UnitsOfTextsAreWritten }
{}
