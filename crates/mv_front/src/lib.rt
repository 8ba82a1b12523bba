//! The front end: the program of a source, or why the source is refused.
//!
//! - `front`: the program of a source, or its one refusal. `specs/Verdicts.antt` says over the text alone what each
//!   answer means: the text reads as a unit, no token of it is nested deeper than 255 levels, the unit breaks no rule and
//!   is that program, and the program exceeds no limit; or one of the eight causes of the refusals 1 to 7, with its
//!   place, rule or count. Each answer has its cause, and each cause its answer.
//! - `one_verdict`: a text is at most one program, has at most one refusal, and never both.
//! - `mv_test_top` has a text for each refusal, and the places.
#![tactic(auto)]

ghost use Rattle.std.specs.Prelude.{◌≡◌, ℕ, IfErr, IfOk, List};
ghost use Rattle.mv_ast.specs.declared.program.Program.{Program};
ghost use Rattle.mv_front.specs.Verdicts as spec;
ghost use Rattle.mv_front.specs.declared.refusal.Refusal.{Refusal};

mod refusal;

use mv_ast::program::Program;
use mv_lexer::lex;
use mv_parser::parse;
use mv_syntax::unit::Unit;
use mv_types::check::check;
pub use refusal::{FrontError, Refusal};
use std::alloc::Global;

/// The program of a source, or its one refusal.
///
/// The codes are tested in this order: 3 for a source above 1,048,576 bytes; at the first lexeme that is refused 1 where it is no token, 2 where the
/// profile leaves it out and 3 where it is a name above 63 characters; 5 for the nesting; 4 for the grammar; 6 for the rules; 7 for the limits.
pub fn front(alloc: Global, text: &[u8]) -> Result<Program, FrontError>
    // Each answer has its cause.
    ensures accepted { IfOk result (λ p. spec.IsProgram text.now p) }
    ensures refused { IfErr result (λ e. spec.IsCause text.now e) }
    // And each cause has its answer, unless memory is wanting.
    ensures all_programs { (p : Program) → spec.IsProgram text.now p → spec.HasProgram result p }
    ensures all_refusals { (r : Refusal) → spec.IsRefused text.now r → spec.HasRefusal result r }
{
    verdict(alloc, text)
}

// The program of a source, or its refusal.
fn verdict(alloc: Global, text: &[u8]) -> Result<Program, FrontError>
    ensures ok { IfOk result (λ p. spec.IsProgram text.now p) }
    ensures err { IfErr result (λ e. spec.IsCause text.now e) }
{
    let unit = unit_of(alloc, text)?;
    Ok(check(alloc, &unit)?)
}

// The unit that a source reads as.
fn unit_of(alloc: Global, text: &[u8]) -> Result<Unit, FrontError>
    ensures ok { IfOk result (λ u. spec.IsUnit text.now u) }
    ensures err { IfErr result (λ e. spec.IsCause text.now e) }
{
    let tokens = lex(alloc, text)?;
    Ok(parse(alloc, text, &tokens)?)
}

/// A source is one program, or is refused for one cause, and never both.
pub fn one_verdict()
    ensures one_program { (text : List ℕ) (p q : Program) → spec.IsProgram text p → spec.IsProgram text q → p ≡ q }
    ensures one_refusal { (text : List ℕ) (r s : Refusal) → spec.IsRefused text r → spec.IsRefused text s → r ≡ s }
    ensures not_both { (text : List ℕ) (p : Program) (r : Refusal) → spec.IsProgram text p → spec.IsRefused text r → ⊥ }
{}
