//! How deep the tokens of a source are nested: a bound on what a reader by recursion must remember.
//!
//! - `first_too_deep`: the place of the first token at which the level is above 255, and `None` exactly where no level
//!   is. The level is the sum of the counters of what is open, by `specs/Nesting.antt`; the code keeps them in a stack with
//!   their sum, in one pass.
//! - A table of 23 rows, worked out by hand, shows the definition.
#![tactic(auto)]

ghost use Rattle.std.specs.Prelude.{◌≡◌, ◌≤◌, [], ◌∷◌, All, IfOk, MatchOption};
ghost use Rattle.mv_parse_nesting.specs.Nesting as spec;

mod stack;

use crate::stack::Stack;
use mv_syntax::keywords::{ELSE, WHILE};
use mv_syntax::place::Place;
use mv_syntax::token::{Piece, Token};
use std::alloc::{AllocError, Global};

/// The greatest level that is read.
const DEEPEST: u32 = 255;

/// The place of the first token at which the level is above 255, and `None` where no level is.
pub fn first_too_deep(alloc: Global, tokens: &[Token]) -> Result<Option<Place>, AllocError>
    ensures { IfOk result (λ found. MatchOption found (All (λ level. level ≤ 255) (spec.levels tokens.now)) (spec.IsFirstAbove 255 (spec.levels tokens.now) tokens.now)) }
{
    let mut stack = Stack::new(alloc);
    let mut rest = tokens;
    while let Some((token, after)) = front(rest) {
        stack.take(token, goes_on(after))?;
        if stack.level() > DEEPEST {
            return Ok(Some(token.place));
        }
        rest = after;
    }
    Ok(None)
}

// The first token, and those after it.
fn front(tokens: &[Token]) -> Option<(&Token, &[Token])>
    ensures { MatchOption result (tokens.now ≡ []) (λ x. tokens.now ≡ x.0.now ∷ x.1.now) }
{
    match tokens {
        [token, rest @ ..] => Some((token, rest)),
        [] => None,
    }
}

// Whether `else` or `while` comes next.
fn goes_on(tokens: &[Token]) -> bool
    ensures { result ≡ spec.goes_on tokens.now }
{
    match tokens {
        [token, ..] => match token.what {
            Piece::Keyword(word) => word == ELSE || word == WHILE,
            _ => false,
        },
        [] => false,
    }
}
