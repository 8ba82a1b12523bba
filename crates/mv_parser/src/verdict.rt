//! What tokens are answered with, whether they are a text's or not.
ghost use Rattle.std.specs.Prelude.{◌≡◌};
ghost use Rattle.mv_parse_grammar.specs.Reading.{place_left};
ghost use Rattle.mv_parser.specs.Verdict as spec;

use crate::error::ParseError;
use crate::items::items;
use mv_parse_nesting::first_too_deep;
use mv_parse_nodes::fault::Fault;
use mv_syntax::place::Place;
use mv_syntax::token::{Token, Tokens};
use mv_syntax::unit::Unit;
use std::alloc::{AllocError, Global};

/// The unit that tokens are, where they are not nested too deep.
pub fn judge(alloc: Global, text: &[u8], tokens: &Tokens) -> Result<Unit, ParseError>
    ensures { spec.IsJudged text.now tokens.now result }
{
    let items = tokens.items.as_slice();
    match first_too_deep(alloc, items) {
        Ok(None) => unit(alloc, text, tokens),
        Ok(Some(place)) => Err(ParseError::Nesting(place)),
        Err(e) => Err(ParseError::Memory(e)),
    }
}

// The same without a limit on the level.
fn unit(alloc: Global, text: &[u8], tokens: &Tokens) -> Result<Unit, ParseError>
    ensures { spec.IsRead text.now tokens.now result }
{
    let given = tokens.items.as_slice();
    match items(alloc, text, given) {
        Ok(items) => Ok(Unit {
            items,
            end: tokens.end,
        }),
        Err(Fault::Memory) => Err(ParseError::Memory(AllocError)),
        Err(Fault::Syntax(left)) => Err(ParseError::Syntax(place_left(given, left, tokens.end))),
    }
}

// The place where so many tokens are left, which is the end where none is.
fn place_left(tokens: &[Token], left: usize, end: Place) -> Place
    ensures { result ≡ place_left tokens.now left end }
{
    if left == 0 || left > tokens.len() {
        return end;
    }
    tokens[tokens.len() - left].place
}
