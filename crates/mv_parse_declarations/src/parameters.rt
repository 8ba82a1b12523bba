//! The parameters of a function (C11 6.7.6.3).
ghost use Rattle.std.specs.Prelude.{◌≡◌, ◌<◌, ◌≤◌, ℕ, List, [], Ok, length, IfOk, if◌then◌else◌};
ghost use Rattle.mv_parse_grammar.specs.Terminals.{terminals, is_name};
ghost use Rattle.mv_parse_grammar.specs.Reader.{give, go_on, token, optional, comma_list};
ghost use Rattle.mv_parse_grammar.specs.Declarations as grammar;
ghost use Rattle.mv_parse_grammar.specs.ExpressionReader.{read};
ghost use Rattle.mv_parse_grammar.specs.DeclarationReader as model;
ghost use Rattle.mv_parse_nodes.specs.Gives.{Gives};

use crate::nodes;
use crate::specifiers::specs;
use mv_ast::marks::{CLOSE_PARENTHESIS, COMMA, OPEN_PARENTHESIS, STAR};
use mv_num::boxed::Boxed;
use mv_num::list::List;
use mv_num::text::Text;
use mv_parse_nodes::fault::Fault;
use mv_parse_nodes::nodes::append;
use mv_parse_nodes::tokens::{
    expect_mark, next_keyword, next_mark, next_name, next_specifier, text_of,
};
use mv_syntax::keywords::{CONST, VOID};
use mv_syntax::token::Token;
use mv_syntax::unit::{Param, Shape, Specs};
use std::alloc::Global;

/// The parameters between the parentheses, which may be none.
#[cycle(parameters)]
pub fn params<'a>(
    alloc: Global,
    text: &[u8],
    tokens: &'a [Token],
) -> Result<(List<Param>, &'a [Token]), Fault>
    ensures reads { (n : ℕ) → Gives (λ x. (x.0, terminals text.now x.1.now)) result (model.params n (terminals text.now tokens.now)) }
    ensures shorter { IfOk result (λ x. length x.1.now ≤ length tokens.now) }
{
    let Some(_) = next_specifier(tokens) else {
        return Ok((List::new(alloc), tokens));
    };
    let (params, rest) = some_params(alloc, text, tokens)?;
    Ok((without_void(alloc, params), rest))
}

#[cycle(parameters)]
fn some_params<'a>(
    alloc: Global,
    text: &[u8],
    tokens: &'a [Token],
) -> Result<(List<Param>, &'a [Token]), Fault>
    ensures reads { (n : ℕ) → Gives (λ x. (x.0, terminals text.now x.1.now)) result (comma_list n (model.parameter n (read n) (model.params n)) (terminals text.now tokens.now)) }
    ensures shorter { IfOk result (λ x. length x.1.now < length tokens.now) }
{
    let mut params = List::new(alloc);
    let (first, mut rest) = parameter(alloc, text, tokens)?;
    append(&mut params, first)?;
    while let Some((_, after)) = next_mark(rest, COMMA) {
        let (next, after) = parameter(alloc, text, after)?;
        append(&mut params, next)?;
        rest = after;
    }
    Ok((params, rest))
}

#[cycle(parameters)]
fn parameter<'a>(
    alloc: Global,
    text: &[u8],
    tokens: &'a [Token],
) -> Result<(Boxed<Param>, &'a [Token]), Fault>
    ensures reads { (n : ℕ) → Gives (λ x. (x.0, terminals text.now x.1.now)) result (model.parameter n (read n) (model.params n) (terminals text.now tokens.now)) }
    ensures shorter { IfOk result (λ x. length x.1.now < length tokens.now) }
{
    let (specs, rest) = specs(alloc, text, tokens)?;
    parameter_name(alloc, text, specs, rest)
}

// What stands behind a parameter's specifiers.
#[cycle(parameters)]
fn parameter_name<'a>(
    alloc: Global,
    text: &[u8],
    specs: Specs,
    tokens: &'a [Token],
) -> Result<(Boxed<Param>, &'a [Token]), Fault>
    ensures reads { (n : ℕ) → Gives (λ x. (x.0, terminals text.now x.1.now)) result (model.parameter_name (model.params n) specs (terminals text.now tokens.now)) }
    ensures shorter { IfOk result (λ x. length x.1.now ≤ length tokens.now) }
{
    if let Some((name, rest)) = next_name(tokens) {
        let spelling = Some(text_of(alloc, text, name)?);
        let param = nodes::param(alloc, specs, name.place, spelling, Shape::Plain)?;
        return Ok((param, rest));
    }
    let Some((open, rest)) = next_mark(tokens, OPEN_PARENTHESIS) else {
        let place = specs.place;
        let param = nodes::param(alloc, specs, place, None, Shape::Plain)?;
        return Ok((param, tokens));
    };
    let (_, rest) = expect_mark(rest, STAR)?;
    let (fixed, rest) = constant(rest);
    let (name, rest) = name_if_any(alloc, text, rest)?;
    let (_, rest) = expect_mark(rest, CLOSE_PARENTHESIS)?;
    let (params, rest) = parameter_list(alloc, text, rest)?;
    let shape = Shape::Pointer(fixed, params);
    let param = nodes::param(alloc, specs, open.place, name, shape)?;
    Ok((param, rest))
}

/// Parameters with their parentheses.
#[cycle(parameters)]
pub fn parameter_list<'a>(
    alloc: Global,
    text: &[u8],
    tokens: &'a [Token],
) -> Result<(List<Param>, &'a [Token]), Fault>
    ensures reads { (n : ℕ) → Gives (λ x. (x.0, terminals text.now x.1.now)) result (model.parameter_list (model.params n) (terminals text.now tokens.now)) }
    ensures shorter { IfOk result (λ x. length x.1.now < length tokens.now) }
{
    let (_, rest) = expect_mark(tokens, OPEN_PARENTHESIS)?;
    let (params, rest) = params(alloc, text, rest)?;
    let (_, rest) = expect_mark(rest, CLOSE_PARENTHESIS)?;
    Ok((params, rest))
}

/// Whether `const` comes next, and what is behind it.
pub fn constant(tokens: &[Token]) -> (bool, &[Token])
    ensures reads { (text : List ℕ) → Gives (λ x. (x.0, terminals text x.1.now)) (Ok result) (model.constant (terminals text tokens.now)) }
    ensures shorter { length result.1.now ≤ length tokens.now }
{
    match next_keyword(tokens, CONST) {
        Some((_, rest)) => (true, rest),
        None => (false, tokens),
    }
}

fn name_if_any<'a>(
    alloc: Global,
    text: &[u8],
    tokens: &'a [Token],
) -> Result<(Option<Text>, &'a [Token]), Fault>
    ensures reads { Gives (λ x. (x.0, terminals text.now x.1.now)) result (go_on (λ name. give (grammar.spelling_of name)) (optional is_name (token is_name) (terminals text.now tokens.now))) }
    ensures shorter { IfOk result (λ x. length x.1.now ≤ length tokens.now) }
{
    let Some((name, rest)) = next_name(tokens) else {
        return Ok((None, tokens));
    };
    let spelling = text_of(alloc, text, name)?;
    Ok((Some(spelling), rest))
}

// A single `void` says that there are no parameters.
fn without_void(alloc: Global, params: List<Param>) -> List<Param>
    ensures { result ≡ grammar.without_void params }
{
    if is_void_alone(params.as_slice()) {
        List::new(alloc)
    } else {
        params
    }
}

fn is_void_alone(params: &[Param]) -> bool
    ensures { (if result then [] else params.now) ≡ grammar.without_void params.now }
{
    match params {
        [param] => is_void_parameter(param),
        _ => false,
    }
}

fn is_void_parameter(param: &Param) -> bool
    ensures { result ≡ grammar.is_void_parameter param.now }
{
    is_void(&param.specs) && param.name.name.is_none() && is_plain(&param.name.shape)
}

fn is_plain(shape: &Shape) -> bool
    ensures { result ≡ grammar.is_plain shape.now }
{
    matches!(shape, Shape::Plain)
}

fn is_void(specs: &Specs) -> bool
    ensures { result ≡ grammar.is_void specs.now }
{
    specs.words.as_slice() == [VOID].as_slice()
        && !specs.hidden
        && !specs.fixed
        && specs.tags.len() == 0
        && specs.marks.len() == 0
}
