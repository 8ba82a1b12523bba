//! Checked programs are within the limits that the layers above ask for.
//!
//! Laws on a unit that `unit_judgement` finds good, and its program; and one on the unit of a text.
//!
//! - `unreported_programs_are_within_limits`; `programs_of_small_units_are_small`: a program has at most four times as
//!   many nodes as its unit; `main_is_typed`: `main` has no parameters and gives an integer; `main_is_unmarked`: no
//!   declaration gives it the attribute.
//! - `units_of_texts_are_small`: the unit that a source reads as (`mv_parse_reading`'s `ReadsAs`) has at most as many nodes as
//!   the source has bytes: by the grammar each node has a token of its own, and by the lexer's reading a string's
//!   characters are fewer than its bytes.

ghost use Rattle.mv_accepts.specs.Limits.Limits.{WithinLimits};
ghost use Rattle.mv_accepts.specs.Limits.Main.{MainIsTyped, MainIsUnmarked};
ghost use Rattle.mv_accepts.specs.Limits.Nodes.{UnitsAreSmall};
ghost use Rattle.mv_accepts.specs.Limits.Sizes.{UnitsOfTextsAreSmall};

/// A program of which no limit is reported, and whose nodes are few enough, is within all limits. The call does nothing: its contract is
/// the law.
pub fn unreported_programs_are_within_limits()
    ensures { WithinLimits }
{}

/// The program of a unit that keeps the rules has at most four times as many nodes as the unit. The call does nothing: its contract is the
/// law.
pub fn programs_of_small_units_are_small()
    ensures { UnitsAreSmall }
{}

/// The `main` of a unit that keeps the rules has no parameters and gives an integer (C11 5.1.2.2.1), where the program has what names mean
/// at the end of the unit. The call does nothing: its contract is the law.
pub fn main_is_typed()
    ensures { MainIsTyped }
{}

/// No declaration of `main` in a unit that keeps the rules has the attribute. The call does nothing: its contract is the law.
pub fn main_is_unmarked()
    ensures { MainIsUnmarked }
{}

/// The unit that a source reads as has at most as many nodes as the source has bytes: each node has a token of its own, and the characters
/// of a string are within its spelling. The call does nothing: its contract is the law.
pub fn units_of_texts_are_small()
    ensures { UnitsOfTextsAreSmall }
{}
