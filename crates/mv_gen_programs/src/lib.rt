//! That each generated text is a program.
//!
//! - `generated_texts_are_programs`: for each number there is a program that the text of `mv_gen` for it reads as, breaks
//!   no rule and exceeds no limit.
//! - A crate of one law, without a test.
#![tactic(auto)]

ghost use Rattle.mv_gen_programs.specs.Programs.{TextsArePrograms};

/// The text that is generated for a number is a program: it reads as a unit, is nested little enough, breaks no rule, and exceeds no limit of a
/// program. The call does nothing: its contract is the law.
pub fn generated_texts_are_programs()
    ensures { TextsArePrograms }
{}
