//! The statements that hold no other: labels, jumps and expressions (C11 6.8.1, 6.8.3, 6.8.6).
ghost use Rattle.std.specs.Prelude.{◌≡◌, ◌<◌, ℕ, List, length, IfOk};
ghost use Rattle.mv_parse_grammar.specs.Terminals.{terminals};
ghost use Rattle.mv_parse_grammar.specs.ExpressionReader.{read};
ghost use Rattle.mv_parse_grammar.specs.StatementReader as model;
ghost use Rattle.mv_parse_nodes.specs.Gives.{Gives};
ghost use Rattle.mv_parse_statements.specs.Forms as forms;

use crate::clauses::value;
use crate::lines;
use mv_ast::marks::{COLON, SEMICOLON};
use mv_num::boxed::Boxed;
use mv_parse_expressions::expression::conditional;
use mv_parse_nodes::fault::Fault;
use mv_parse_nodes::tokens::{expect_mark, next_keyword, place_of};
use mv_syntax::keywords::{BREAK, CASE, CONTINUE, DEFAULT, RETURN};
use mv_syntax::place::Place;
use mv_syntax::token::Token;
use mv_syntax::unit::Line;
use std::alloc::Global;

/// A statement that holds no other.
pub fn leaf<'a>(
    alloc: Global,
    text: &[u8],
    tokens: &'a [Token],
) -> Result<(Boxed<Line>, &'a [Token]), Fault>
    ensures reads { (n : ℕ) → Gives (λ x. (x.0, terminals text.now x.1.now)) result (forms.leaf (read n) (terminals text.now tokens.now)) }
    ensures shorter { IfOk result (λ x. length x.1.now < length tokens.now) }
{
    if let Some((first, rest)) = next_keyword(tokens, CASE) {
        return case_rest(alloc, text, first.place, rest);
    }
    if let Some((first, rest)) = next_keyword(tokens, DEFAULT) {
        return ended(lines::default_label(alloc, first.place)?, COLON, rest);
    }
    if let Some((first, rest)) = next_keyword(tokens, BREAK) {
        return ended(lines::break_statement(alloc, first.place)?, SEMICOLON, rest);
    }
    if let Some((first, rest)) = next_keyword(tokens, CONTINUE) {
        return ended(
            lines::continue_statement(alloc, first.place)?,
            SEMICOLON,
            rest,
        );
    }
    if let Some((first, rest)) = next_keyword(tokens, RETURN) {
        return return_rest(alloc, text, first.place, rest);
    }
    expression_statement(alloc, text, tokens)
}

// What stands behind `case`.
fn case_rest<'a>(
    alloc: Global,
    text: &[u8],
    place: Place,
    tokens: &'a [Token],
) -> Result<(Boxed<Line>, &'a [Token]), Fault>
    ensures reads { (n : ℕ) → Gives (λ x. (x.0, terminals text.now x.1.now)) result (model.case_rest (read n) place (terminals text.now tokens.now)) }
    ensures shorter { IfOk result (λ x. length x.1.now < length tokens.now) }
{
    let (value, rest) = conditional(alloc, text, tokens)?;
    let (_, rest) = expect_mark(rest, COLON)?;
    let line = lines::case_label(alloc, place, value)?;
    Ok((line, rest))
}

// A statement, before the punctuator that ends it.
fn ended<'a>(
    line: Boxed<Line>,
    mark: u8,
    tokens: &'a [Token],
) -> Result<(Boxed<Line>, &'a [Token]), Fault>
    ensures reads { (text : List ℕ) → Gives (λ x. (x.0, terminals text x.1.now)) result (forms.ended mark line (terminals text tokens.now)) }
    ensures shorter { IfOk result (λ x. length x.1.now < length tokens.now) }
{
    let (_, rest) = expect_mark(tokens, mark)?;
    Ok((line, rest))
}

// What stands behind `return`.
fn return_rest<'a>(
    alloc: Global,
    text: &[u8],
    place: Place,
    tokens: &'a [Token],
) -> Result<(Boxed<Line>, &'a [Token]), Fault>
    ensures reads { (n : ℕ) → Gives (λ x. (x.0, terminals text.now x.1.now)) result (model.return_rest (read n) place (terminals text.now tokens.now)) }
    ensures shorter { IfOk result (λ x. length x.1.now < length tokens.now) }
{
    let (value, rest) = value(alloc, text, tokens, SEMICOLON)?;
    let line = lines::return_statement(alloc, place, value)?;
    Ok((line, rest))
}

// An expression or nothing, and a semicolon.
fn expression_statement<'a>(
    alloc: Global,
    text: &[u8],
    tokens: &'a [Token],
) -> Result<(Boxed<Line>, &'a [Token]), Fault>
    ensures reads { (n : ℕ) → Gives (λ x. (x.0, terminals text.now x.1.now)) result (model.simple (read n) (terminals text.now tokens.now)) }
    ensures shorter { IfOk result (λ x. length x.1.now < length tokens.now) }
{
    let place = place_of(tokens);
    let (value, rest) = value(alloc, text, tokens, SEMICOLON)?;
    let line = lines::expression(alloc, place, value)?;
    Ok((line, rest))
}
