//! What a source reads as.
//!
//! - `one_unit`: one source reads as one translation unit at most: its tokens by `mv_lexer`'s reading, and these as a
//!   unit by the grammar. A crate of one law.
#![tactic(auto)]

ghost use Rattle.std.specs.Prelude.{◌≡◌, ℕ, List};
ghost use Rattle.mv_syntax.specs.declared.unit.Unit as unit;
ghost use Rattle.mv_parse_reading.specs.Texts.{ReadsAs};

/// One source has one unit.
pub fn one_unit()
    ensures { (text : List ℕ) (u v : unit.Unit) → ReadsAs text u → ReadsAs text v → u ≡ v }
{}
