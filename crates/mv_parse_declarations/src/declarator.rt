//! Declarators (C11 6.7.6), with their attributes and their initial values.
ghost use Rattle.std.specs.Prelude.{◌<◌, ◌≤◌, ℕ, length, IfOk};
ghost use Rattle.mv_ast.specs.Marks as marks;
ghost use Rattle.mv_parse_grammar.specs.Terminals.{terminal, terminals, is_mark};
ghost use Rattle.mv_parse_grammar.specs.Reader.{optional, comma_list};
ghost use Rattle.mv_parse_grammar.specs.ExpressionReader.{read};
ghost use Rattle.mv_parse_grammar.specs.DeclarationReader as model;
ghost use Rattle.mv_parse_nodes.specs.Gives.{Gives};

use crate::attributes::attribute;
use crate::initial::init;
use crate::nodes;
use crate::parameters::{constant, parameter_list};
use mv_ast::marks::{
    ASSIGN, CLOSE_BRACKET, CLOSE_PARENTHESIS, COMMA, OPEN_BRACKET, OPEN_PARENTHESIS, STAR,
};
use mv_num::boxed::Boxed;
use mv_num::list::List;
use mv_parse_expressions::expression::conditional;
use mv_parse_nodes::fault::Fault;
use mv_parse_nodes::nodes::append;
use mv_parse_nodes::tokens::{
    expect_mark, expect_name, next_keyword, next_mark, next_name, text_of,
};
use mv_syntax::keywords::ATTRIBUTE;
use mv_syntax::token::Token;
use mv_syntax::unit::{Declarator, Node, Shape};
use std::alloc::Global;

/// The declarators of a declaration, each with its initial value.
pub fn declared_list<'a>(
    alloc: Global,
    text: &[u8],
    tokens: &'a [Token],
) -> Result<(List<Declarator>, &'a [Token]), Fault>
    ensures reads { (n : ℕ) → Gives (λ x. (x.0, terminals text.now x.1.now)) result (comma_list n (model.declared n (read n) (model.params n)) (terminals text.now tokens.now)) }
    ensures shorter { IfOk result (λ x. length x.1.now < length tokens.now) }
{
    let mut names = List::new(alloc);
    let (first, mut rest) = declared(alloc, text, tokens)?;
    append(&mut names, first)?;
    while let Some((_, after)) = next_mark(rest, COMMA) {
        let (next, after) = declared(alloc, text, after)?;
        append(&mut names, next)?;
        rest = after;
    }
    Ok((names, rest))
}

/// A declarator, and its initial value where it has one.
pub fn declared<'a>(
    alloc: Global,
    text: &[u8],
    tokens: &'a [Token],
) -> Result<(Boxed<Declarator>, &'a [Token]), Fault>
    ensures reads { (n : ℕ) → Gives (λ x. (x.0, terminals text.now x.1.now)) result (model.declared n (read n) (model.params n) (terminals text.now tokens.now)) }
    ensures shorter { IfOk result (λ x. length x.1.now < length tokens.now) }
{
    let (declarator, rest) = declarator(alloc, text, tokens)?;
    with_init(alloc, text, declarator, rest)
}

/// What may stand behind a declarator: its initial value.
pub fn with_init<'a>(
    alloc: Global,
    text: &[u8],
    declarator: Boxed<Declarator>,
    tokens: &'a [Token],
) -> Result<(Boxed<Declarator>, &'a [Token]), Fault>
    ensures reads { (n : ℕ) → Gives (λ x. (x.0, terminals text.now x.1.now)) result (model.with_init n (read n) declarator (terminals text.now tokens.now)) }
    ensures shorter { IfOk result (λ x. length x.1.now ≤ length tokens.now) }
{
    let Some(_) = next_mark(tokens, ASSIGN) else {
        return Ok((declarator, tokens));
    };
    let (value, rest) = init(alloc, text, tokens)?;
    let declarator = nodes::initialised(alloc, declarator, value)?;
    Ok((declarator, rest))
}

/// A declarator with its attributes.
pub fn declarator<'a>(
    alloc: Global,
    text: &[u8],
    tokens: &'a [Token],
) -> Result<(Boxed<Declarator>, &'a [Token]), Fault>
    ensures reads { (n : ℕ) → Gives (λ x. (x.0, terminals text.now x.1.now)) result (model.declarator n (read n) (model.params n) (terminals text.now tokens.now)) }
    ensures shorter { IfOk result (λ x. length x.1.now < length tokens.now) }
{
    let (mut declarator, mut rest) = direct(alloc, text, tokens)?;
    while let Some(_) = next_keyword(rest, ATTRIBUTE) {
        let (mark, after) = attribute(alloc, text, rest)?;
        declarator = nodes::attributed(alloc, declarator, mark)?;
        rest = after;
    }
    Ok((declarator, rest))
}

fn direct<'a>(
    alloc: Global,
    text: &[u8],
    tokens: &'a [Token],
) -> Result<(Boxed<Declarator>, &'a [Token]), Fault>
    ensures reads { (n : ℕ) → Gives (λ x. (x.0, terminals text.now x.1.now)) result (model.direct (read n) (model.params n) (terminals text.now tokens.now)) }
    ensures shorter { IfOk result (λ x. length x.1.now < length tokens.now) }
{
    if let Some((name, rest)) = next_name(tokens) {
        return after_name(alloc, text, name, rest);
    }
    pointer(alloc, text, tokens)
}

fn after_name<'a>(
    alloc: Global,
    text: &[u8],
    name: &Token,
    tokens: &'a [Token],
) -> Result<(Boxed<Declarator>, &'a [Token]), Fault>
    ensures reads { (n : ℕ) → Gives (λ x. (x.0, terminals text.now x.1.now)) result (model.after_name (read n) (model.params n) (terminal text.now name.now) (terminals text.now tokens.now)) }
    ensures shorter { IfOk result (λ x. length x.1.now ≤ length tokens.now) }
{
    let spelling = Some(text_of(alloc, text, name)?);
    if let Some(_) = next_mark(tokens, OPEN_PARENTHESIS) {
        let (params, rest) = parameter_list(alloc, text, tokens)?;
        let shape = Shape::Function(params);
        let declarator = nodes::declarator(alloc, name.place, spelling, shape)?;
        return Ok((declarator, rest));
    }
    let (extent, rest) = extent_if_any(alloc, text, tokens)?;
    let shape = nodes::array_shape(extent);
    let declarator = nodes::declarator(alloc, name.place, spelling, shape)?;
    Ok((declarator, rest))
}

// A pointer to functions, or an array of such pointers.
fn pointer<'a>(
    alloc: Global,
    text: &[u8],
    tokens: &'a [Token],
) -> Result<(Boxed<Declarator>, &'a [Token]), Fault>
    ensures reads { (n : ℕ) → Gives (λ x. (x.0, terminals text.now x.1.now)) result (model.pointer (read n) (model.params n) (terminals text.now tokens.now)) }
    ensures shorter { IfOk result (λ x. length x.1.now < length tokens.now) }
{
    let (open, rest) = expect_mark(tokens, OPEN_PARENTHESIS)?;
    let (_, rest) = expect_mark(rest, STAR)?;
    let (fixed, rest) = constant(rest);
    let (name, rest) = expect_name(rest)?;
    let spelling = Some(text_of(alloc, text, name)?);
    let (extent, rest) = extent_if_any(alloc, text, rest)?;
    let (_, rest) = expect_mark(rest, CLOSE_PARENTHESIS)?;
    let (params, rest) = parameter_list(alloc, text, rest)?;
    let shape = nodes::pointer_shape(fixed, extent, params);
    let declarator = nodes::declarator(alloc, open.place, spelling, shape)?;
    Ok((declarator, rest))
}

fn extent_if_any<'a>(
    alloc: Global,
    text: &[u8],
    tokens: &'a [Token],
) -> Result<(Option<Option<Boxed<Node>>>, &'a [Token]), Fault>
    ensures reads { (n : ℕ) → Gives (λ x. (x.0, terminals text.now x.1.now)) result (optional (is_mark marks.open_bracket) (model.extent (read n)) (terminals text.now tokens.now)) }
    ensures shorter { IfOk result (λ x. length x.1.now ≤ length tokens.now) }
{
    let Some(_) = next_mark(tokens, OPEN_BRACKET) else {
        return Ok((None, tokens));
    };
    let (extent, rest) = extent(alloc, text, tokens)?;
    Ok((Some(extent), rest))
}

// The number of an array's elements in its brackets, which may be left out.
fn extent<'a>(
    alloc: Global,
    text: &[u8],
    tokens: &'a [Token],
) -> Result<(Option<Boxed<Node>>, &'a [Token]), Fault>
    ensures reads { (n : ℕ) → Gives (λ x. (x.0, terminals text.now x.1.now)) result (model.extent (read n) (terminals text.now tokens.now)) }
    ensures shorter { IfOk result (λ x. length x.1.now < length tokens.now) }
{
    let (_, rest) = expect_mark(tokens, OPEN_BRACKET)?;
    if let Some((_, rest)) = next_mark(rest, CLOSE_BRACKET) {
        return Ok((None, rest));
    }
    let (count, rest) = conditional(alloc, text, rest)?;
    let (_, rest) = expect_mark(rest, CLOSE_BRACKET)?;
    Ok((Some(count), rest))
}
