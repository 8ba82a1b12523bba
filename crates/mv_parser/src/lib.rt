//! The parser: reads the tokens of a source as a translation unit (C11 6.9).
//!
//! It reads by recursion, so tokens that are nested too deep are refused before the grammar is
//! looked at.
//!
//! - `parse`: for the tokens of a text, a unit exactly where the text reads as one and no level is above 255, and then
//!   that one; else the first token that is nested too deep, where there is one; else the place where the tokens break
//!   off: those before it begin a unit, in this text with some more after it, and those up to and with the one there, or
//!   all of them at the end, begin none. Each answer has its cause, and each cause its answer.
//! - 68 short texts that just miss a production, with the places where they break off, units with each production, and 25
//!   nestings about the limit (`mv_test_top`), worked out by hand, show that the definitions are meant so. The level
//!   bounds how deep the tokens are nested; that the stack is enough is no clause. Neither proved nor tested: the errors'
//!   words.
#![tactic(auto)]

ghost use Rattle.std.specs.Prelude.{◌≡◌, IfOk, IfErr};
ghost use Rattle.mv_syntax.specs.declared.place.Place.{Place};
ghost use Rattle.mv_syntax.specs.declared.unit.Unit as unit;
ghost use Rattle.mv_lexer.specs.Reading.{AreTokens};
ghost use Rattle.mv_parse_grammar.specs.Reading as grammar;
ghost use Rattle.mv_parse_reading.specs.Texts.{ReadsAs};
ghost use Rattle.mv_parser.specs.Verdict as spec;

pub mod error;
mod items;
mod verdict;

use crate::error::ParseError;
use mv_syntax::token::Tokens;
use mv_syntax::unit::Unit;
use std::alloc::Global;

/// The translation unit that the tokens of a text are, or why they are refused.
///
/// `Nesting` comes before all else. `Syntax` has the place where the tokens break off, as of the
/// first token that doesn't belong there, or of the end.
pub fn parse(alloc: Global, text: &[u8], tokens: &Tokens) -> Result<Unit, ParseError>
    requires { AreTokens text.now tokens.now.items tokens.now.end }
    // Each answer has its cause.
    ensures ok { IfOk result (λ u. spec.IsAccepted text.now tokens.now u) }
    ensures err { IfErr result (λ e. spec.IsCause text.now tokens.now e) }
    // And each cause has its answer, unless memory is wanting.
    ensures all_units { (u : unit.Unit) → ReadsAs text.now u → spec.IsShallow tokens.now → spec.HasUnit result u }
    ensures all_nestings { (place : Place) → spec.IsTooDeep tokens.now place → spec.HasNesting result place }
    ensures all_breaks { (place : Place) → spec.IsShallow tokens.now → grammar.BreaksAt text.now tokens.now place → spec.HasSyntax result place }
{
    verdict::judge(alloc, text, tokens)
}
