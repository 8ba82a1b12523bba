//! What stands in parentheses behind `if`, `while`, `do`, `for` and `switch` (C11 6.8.4, 6.8.5).
ghost use Rattle.std.specs.Prelude.{◌≡◌, ◌<◌, ℕ, length, IfOk};
ghost use Rattle.mv_parse_grammar.specs.Terminals.{terminals};
ghost use Rattle.mv_parse_grammar.specs.ExpressionReader.{read};
ghost use Rattle.mv_parse_grammar.specs.StatementReader as model;
ghost use Rattle.mv_parse_nodes.specs.Gives.{Gives};

use crate::lines;
use crate::local::local;
use mv_ast::marks::{CLOSE_PARENTHESIS, OPEN_PARENTHESIS, SEMICOLON};
use mv_num::boxed::Boxed;
use mv_parse_expressions::expression::assign;
use mv_parse_nodes::fault::Fault;
use mv_parse_nodes::tokens::{expect_mark, next_mark, next_specifier, place_of};
use mv_syntax::token::Token;
use mv_syntax::unit::{Line, Node};
use std::alloc::Global;

/// An expression in parentheses.
pub fn condition<'a>(
    alloc: Global,
    text: &[u8],
    tokens: &'a [Token],
) -> Result<(Boxed<Node>, &'a [Token]), Fault>
    ensures reads { (n : ℕ) → Gives (λ x. (x.0, terminals text.now x.1.now)) result (model.condition (read n) (terminals text.now tokens.now)) }
    ensures shorter { IfOk result (λ x. length x.1.now < length tokens.now) }
{
    let (_, rest) = expect_mark(tokens, OPEN_PARENTHESIS)?;
    let (test, rest) = assign(alloc, text, rest)?;
    let (_, rest) = expect_mark(rest, CLOSE_PARENTHESIS)?;
    Ok((test, rest))
}

/// An expression and the punctuator behind it, or the punctuator alone.
pub fn value<'a>(
    alloc: Global,
    text: &[u8],
    tokens: &'a [Token],
    mark: u8,
) -> Result<(Option<Boxed<Node>>, &'a [Token]), Fault>
    ensures reads { (n : ℕ) → Gives (λ x. (x.0, terminals text.now x.1.now)) result (model.value mark (read n) (terminals text.now tokens.now)) }
    ensures shorter { IfOk result (λ x. length x.1.now < length tokens.now) }
{
    if let Some((_, rest)) = next_mark(tokens, mark) {
        return Ok((None, rest));
    }
    let (value, rest) = assign(alloc, text, tokens)?;
    let (_, rest) = expect_mark(rest, mark)?;
    Ok((Some(value), rest))
}

/// What a `for` begins with, up to its first semicolon.
pub fn first_clause<'a>(
    alloc: Global,
    text: &[u8],
    tokens: &'a [Token],
) -> Result<(Option<Boxed<Line>>, &'a [Token]), Fault>
    ensures reads { (n : ℕ) → Gives (λ x. (x.0, terminals text.now x.1.now)) result (model.first_clause (read n) (model.locals n) (terminals text.now tokens.now)) }
    ensures shorter { IfOk result (λ x. length x.1.now < length tokens.now) }
{
    if let Some(_) = next_specifier(tokens) {
        let (line, rest) = local(alloc, text, tokens)?;
        return Ok((Some(line), rest));
    }
    let place = place_of(tokens);
    let (value, rest) = value(alloc, text, tokens, SEMICOLON)?;
    let line = lines::first_expression(alloc, place, value)?;
    Ok((line, rest))
}
