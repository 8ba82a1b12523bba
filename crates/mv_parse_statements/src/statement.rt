//! Statements, and the blocks that hold them.
ghost use Rattle.std.specs.Prelude.{◌≡◌, ◌<◌, ℕ, length, IfOk};
ghost use Rattle.mv_parse_grammar.specs.Terminals.{terminals};
ghost use Rattle.mv_parse_grammar.specs.ExpressionReader.{read};
ghost use Rattle.mv_parse_grammar.specs.StatementReader as model;
ghost use Rattle.mv_parse_nodes.specs.Gives.{Gives};

use crate::clauses::{condition, first_clause, value};
use crate::leaves::leaf;
use crate::lines;
use crate::local::local;
use mv_ast::marks::{CLOSE_BRACE, CLOSE_PARENTHESIS, OPEN_BRACE, OPEN_PARENTHESIS, SEMICOLON};
use mv_num::boxed::Boxed;
use mv_num::list::List;
use mv_parse_nodes::fault::Fault;
use mv_parse_nodes::nodes;
use mv_parse_nodes::tokens::{
    expect_keyword, expect_mark, next_inside, next_keyword, next_mark, next_specifier,
};
use mv_syntax::keywords::{DO, ELSE, FOR, IF, SWITCH, WHILE};
use mv_syntax::place::Place;
use mv_syntax::token::Token;
use mv_syntax::unit::Line;
use std::alloc::Global;

/// A block.
pub fn block<'a>(
    alloc: Global,
    text: &[u8],
    tokens: &'a [Token],
) -> Result<(Boxed<Line>, &'a [Token]), Fault>
    ensures reads { (n : ℕ) → Gives (λ x. (x.0, terminals text.now x.1.now)) result (model.block n (model.locals n) (model.statements n) (terminals text.now tokens.now)) }
    ensures shorter { IfOk result (λ x. length x.1.now < length tokens.now) }
{
    let (open, rest) = expect_mark(tokens, OPEN_BRACE)?;
    block_rest(alloc, text, open.place, rest)
}

/// A statement.
#[cycle(statement)]
pub fn statement<'a>(
    alloc: Global,
    text: &[u8],
    tokens: &'a [Token],
) -> Result<(Boxed<Line>, &'a [Token]), Fault>
    ensures reads { (n : ℕ) → Gives (λ x. (x.0, terminals text.now x.1.now)) result (model.statements n (terminals text.now tokens.now)) }
    ensures shorter { IfOk result (λ x. length x.1.now < length tokens.now) }
{
    if let Some((first, rest)) = next_mark(tokens, OPEN_BRACE) {
        return block_rest(alloc, text, first.place, rest);
    }
    if let Some((first, rest)) = next_keyword(tokens, IF) {
        return if_rest(alloc, text, first.place, rest);
    }
    if let Some((first, rest)) = next_keyword(tokens, WHILE) {
        return while_rest(alloc, text, first.place, rest);
    }
    if let Some((first, rest)) = next_keyword(tokens, DO) {
        return do_rest(alloc, text, first.place, rest);
    }
    if let Some((first, rest)) = next_keyword(tokens, FOR) {
        return for_rest(alloc, text, first.place, rest);
    }
    if let Some((first, rest)) = next_keyword(tokens, SWITCH) {
        return switch_rest(alloc, text, first.place, rest);
    }
    leaf(alloc, text, tokens)
}

// What stands behind the `{` of a block.
#[cycle(statement)]
fn block_rest<'a>(
    alloc: Global,
    text: &[u8],
    place: Place,
    tokens: &'a [Token],
) -> Result<(Boxed<Line>, &'a [Token]), Fault>
    ensures reads { (n : ℕ) → Gives (λ x. (x.0, terminals text.now x.1.now)) result (model.block_rest n (model.locals n) (model.statements n) place (terminals text.now tokens.now)) }
    ensures shorter { IfOk result (λ x. length x.1.now < length tokens.now) }
{
    let mut lines = List::new(alloc);
    let mut rest = tokens;
    while let Some(_) = next_inside(rest) {
        let (line, after) = block_item(alloc, text, rest)?;
        nodes::append(&mut lines, line)?;
        rest = after;
    }
    let (_, rest) = expect_mark(rest, CLOSE_BRACE)?;
    let line = lines::block(alloc, place, lines)?;
    Ok((line, rest))
}

// A statement or a declaration.
#[cycle(statement)]
fn block_item<'a>(
    alloc: Global,
    text: &[u8],
    tokens: &'a [Token],
) -> Result<(Boxed<Line>, &'a [Token]), Fault>
    ensures reads { (n : ℕ) → Gives (λ x. (x.0, terminals text.now x.1.now)) result (model.block_item (model.locals n) (model.statements n) (terminals text.now tokens.now)) }
    ensures shorter { IfOk result (λ x. length x.1.now < length tokens.now) }
{
    if let Some(_) = next_specifier(tokens) {
        return local(alloc, text, tokens);
    }
    statement(alloc, text, tokens)
}

// What stands behind `if`.
#[cycle(statement)]
fn if_rest<'a>(
    alloc: Global,
    text: &[u8],
    place: Place,
    tokens: &'a [Token],
) -> Result<(Boxed<Line>, &'a [Token]), Fault>
    ensures reads { (n : ℕ) → Gives (λ x. (x.0, terminals text.now x.1.now)) result (model.if_rest (read n) (model.statements n) place (terminals text.now tokens.now)) }
    ensures shorter { IfOk result (λ x. length x.1.now < length tokens.now) }
{
    let (test, rest) = condition(alloc, text, tokens)?;
    let (first, rest) = statement(alloc, text, rest)?;
    let Some((_, after)) = next_keyword(rest, ELSE) else {
        let line = lines::if_statement(alloc, place, test, first, None)?;
        return Ok((line, rest));
    };
    let (second, rest) = statement(alloc, text, after)?;
    let line = lines::if_statement(alloc, place, test, first, Some(second))?;
    Ok((line, rest))
}

// What stands behind `while`.
#[cycle(statement)]
fn while_rest<'a>(
    alloc: Global,
    text: &[u8],
    place: Place,
    tokens: &'a [Token],
) -> Result<(Boxed<Line>, &'a [Token]), Fault>
    ensures reads { (n : ℕ) → Gives (λ x. (x.0, terminals text.now x.1.now)) result (model.while_rest (read n) (model.statements n) place (terminals text.now tokens.now)) }
    ensures shorter { IfOk result (λ x. length x.1.now < length tokens.now) }
{
    let (test, rest) = condition(alloc, text, tokens)?;
    let (body, rest) = statement(alloc, text, rest)?;
    let line = lines::while_statement(alloc, place, test, body)?;
    Ok((line, rest))
}

// What stands behind `do`.
#[cycle(statement)]
fn do_rest<'a>(
    alloc: Global,
    text: &[u8],
    place: Place,
    tokens: &'a [Token],
) -> Result<(Boxed<Line>, &'a [Token]), Fault>
    ensures reads { (n : ℕ) → Gives (λ x. (x.0, terminals text.now x.1.now)) result (model.do_rest (read n) (model.statements n) place (terminals text.now tokens.now)) }
    ensures shorter { IfOk result (λ x. length x.1.now < length tokens.now) }
{
    let (body, rest) = statement(alloc, text, tokens)?;
    let (_, rest) = expect_keyword(rest, WHILE)?;
    let (test, rest) = condition(alloc, text, rest)?;
    let (_, rest) = expect_mark(rest, SEMICOLON)?;
    let line = lines::do_statement(alloc, place, body, test)?;
    Ok((line, rest))
}

// What stands behind `for`.
#[cycle(statement)]
fn for_rest<'a>(
    alloc: Global,
    text: &[u8],
    place: Place,
    tokens: &'a [Token],
) -> Result<(Boxed<Line>, &'a [Token]), Fault>
    ensures reads { (n : ℕ) → Gives (λ x. (x.0, terminals text.now x.1.now)) result (model.for_rest (read n) (model.locals n) (model.statements n) place (terminals text.now tokens.now)) }
    ensures shorter { IfOk result (λ x. length x.1.now < length tokens.now) }
{
    let (_, rest) = expect_mark(tokens, OPEN_PARENTHESIS)?;
    let (first, rest) = first_clause(alloc, text, rest)?;
    let (test, rest) = value(alloc, text, rest, SEMICOLON)?;
    let (step, rest) = value(alloc, text, rest, CLOSE_PARENTHESIS)?;
    let (body, rest) = statement(alloc, text, rest)?;
    let line = lines::for_statement(alloc, place, first, test, step, body)?;
    Ok((line, rest))
}

// What stands behind `switch`.
#[cycle(statement)]
fn switch_rest<'a>(
    alloc: Global,
    text: &[u8],
    place: Place,
    tokens: &'a [Token],
) -> Result<(Boxed<Line>, &'a [Token]), Fault>
    ensures reads { (n : ℕ) → Gives (λ x. (x.0, terminals text.now x.1.now)) result (model.switch_rest (read n) (model.statements n) place (terminals text.now tokens.now)) }
    ensures shorter { IfOk result (λ x. length x.1.now < length tokens.now) }
{
    let (tested, rest) = condition(alloc, text, tokens)?;
    let (body, rest) = statement(alloc, text, rest)?;
    let line = lines::switch_statement(alloc, place, tested, body)?;
    Ok((line, rest))
}
