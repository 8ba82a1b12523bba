//! Expressions, from assignments down to names, numbers and parentheses.
ghost use Rattle.std.specs.Prelude.{◌≡◌, ◌<◌, ◌≤◌, ℕ, length, IfOk};
ghost use Rattle.mv_syntax.specs.declared.unit.What.TheVariants as what;
ghost use Rattle.mv_parse_grammar.specs.Terminals.{terminals};
ghost use Rattle.mv_parse_grammar.specs.Expressions.{Assign, Cond, Cast, Unary, piece_value};
ghost use Rattle.mv_parse_grammar.specs.ExpressionReader as model;
ghost use Rattle.mv_parse_nodes.specs.Gives.{Gives};

use crate::type_name::type_name;
use mv_ast::marks::{
    CLOSE_BRACKET, CLOSE_PARENTHESIS, COLON, COMMA, INCREMENT, OPEN_BRACKET, OPEN_PARENTHESIS,
    QUESTION,
};
use mv_num::boxed::Boxed;
use mv_num::kind::Kind;
use mv_num::list::List;
use mv_parse_nodes::fault::Fault;
use mv_parse_nodes::nodes;
use mv_parse_nodes::tokens::{
    expect_mark, expect_step, mark_of, next_cast, next_mark, next_name, next_number, next_rank,
    next_sign, next_step, place_of, text_of,
};
use mv_syntax::place::Place;
use mv_syntax::token::{Piece, Token};
use mv_syntax::unit::Node;
use std::alloc::Global;

/// The rank of what stands after an operand.
const AFTER_OPERAND: u8 = 0;

/// The rank of the operator on two operands that binds most loosely.
const LOOSEST: u8 = 10;

/// The rank of the assignments.
const ASSIGNS: u8 = 12;

/// An assignment, or what stands in its place.
#[cycle(expression)]
pub fn assign<'a>(
    alloc: Global,
    text: &[u8],
    tokens: &'a [Token],
) -> Result<(Boxed<Node>, &'a [Token]), Fault>
    ensures reads { (n : ℕ) → Gives (λ x. (x.0, terminals text.now x.1.now)) result (model.read n Assign (terminals text.now tokens.now)) }
    ensures shorter { IfOk result (λ x. length x.1.now < length tokens.now) }
{
    let place = place_of(tokens);
    let (left, rest) = conditional(alloc, text, tokens)?;
    let Some((operator, after)) = next_rank(rest, ASSIGNS) else {
        return Ok((left, rest));
    };
    let (right, after) = assign(alloc, text, after)?;
    let node = nodes::assign(alloc, place, mark_of(operator), left, right)?;
    Ok((node, after))
}

/// A conditional expression, or what stands in its place.
#[cycle(expression)]
pub fn conditional<'a>(
    alloc: Global,
    text: &[u8],
    tokens: &'a [Token],
) -> Result<(Boxed<Node>, &'a [Token]), Fault>
    ensures reads { (n : ℕ) → Gives (λ x. (x.0, terminals text.now x.1.now)) result (model.read n Cond (terminals text.now tokens.now)) }
    ensures shorter { IfOk result (λ x. length x.1.now < length tokens.now) }
{
    let place = place_of(tokens);
    let (test, rest) = binary(alloc, text, tokens, LOOSEST)?;
    let Some((_, after)) = next_mark(rest, QUESTION) else {
        return Ok((test, rest));
    };
    let (first, after) = assign(alloc, text, after)?;
    let (_, after) = expect_mark(after, COLON)?;
    let (second, after) = conditional(alloc, text, after)?;
    let node = nodes::choose(alloc, place, test, first, second)?;
    Ok((node, after))
}

// The operators of one rank and of those that bind tighter.
#[cycle(expression)]
fn binary<'a>(
    alloc: Global,
    text: &[u8],
    tokens: &'a [Token],
    rank: u8,
) -> Result<(Boxed<Node>, &'a [Token]), Fault>
    requires { rank ≤ 10 }
    ensures reads { (n : ℕ) → Gives (λ x. (x.0, terminals text.now x.1.now)) result (model.level n (model.read n) rank (terminals text.now tokens.now)) }
    ensures shorter { IfOk result (λ x. length x.1.now < length tokens.now) }
{
    if rank == 0 {
        return cast(alloc, text, tokens);
    }
    let place = place_of(tokens);
    let (mut left, mut rest) = binary(alloc, text, tokens, rank - 1)?;
    while let Some((operator, after)) = next_rank(rest, rank) {
        let (right, after) = binary(alloc, text, after, rank - 1)?;
        left = nodes::binary(alloc, place, mark_of(operator), left, right)?;
        rest = after;
    }
    Ok((left, rest))
}

#[cycle(expression)]
fn cast<'a>(
    alloc: Global,
    text: &[u8],
    tokens: &'a [Token],
) -> Result<(Boxed<Node>, &'a [Token]), Fault>
    ensures reads { (n : ℕ) → Gives (λ x. (x.0, terminals text.now x.1.now)) result (model.read n Cast (terminals text.now tokens.now)) }
    ensures shorter { IfOk result (λ x. length x.1.now < length tokens.now) }
{
    let Some((open, after)) = next_cast(tokens) else {
        return operand(alloc, text, tokens);
    };
    let (specs, rest) = type_name(alloc, text, after)?;
    let (_, rest) = expect_mark(rest, CLOSE_PARENTHESIS)?;
    let (inner, rest) = cast(alloc, text, rest)?;
    let node = nodes::cast(alloc, open.place, specs, inner)?;
    Ok((node, rest))
}

#[cycle(expression)]
fn unary<'a>(
    alloc: Global,
    text: &[u8],
    tokens: &'a [Token],
) -> Result<(Boxed<Node>, &'a [Token]), Fault>
    ensures reads { (n : ℕ) → Gives (λ x. (x.0, terminals text.now x.1.now)) result (model.read n Unary (terminals text.now tokens.now)) }
    ensures shorter { IfOk result (λ x. length x.1.now < length tokens.now) }
{
    operand(alloc, text, tokens)
}

// What stands where no cast does.
#[cycle(expression)]
fn operand<'a>(
    alloc: Global,
    text: &[u8],
    tokens: &'a [Token],
) -> Result<(Boxed<Node>, &'a [Token]), Fault>
    ensures reads { (n : ℕ) → Gives (λ x. (x.0, terminals text.now x.1.now)) result (model.unary n (model.read n) (terminals text.now tokens.now)) }
    ensures shorter { IfOk result (λ x. length x.1.now < length tokens.now) }
{
    if let Some((step, after)) = next_step(tokens) {
        let (inner, rest) = unary(alloc, text, after)?;
        let node = nodes::before(alloc, step.place, mark_of(step) == INCREMENT, inner)?;
        return Ok((node, rest));
    }
    if let Some((sign, after)) = next_sign(tokens) {
        let (inner, rest) = cast(alloc, text, after)?;
        let node = nodes::unary(alloc, sign.place, mark_of(sign), inner)?;
        return Ok((node, rest));
    }
    postfix(alloc, text, tokens)
}

#[cycle(expression)]
fn postfix<'a>(
    alloc: Global,
    text: &[u8],
    tokens: &'a [Token],
) -> Result<(Boxed<Node>, &'a [Token]), Fault>
    ensures reads { (n : ℕ) → Gives (λ x. (x.0, terminals text.now x.1.now)) result (model.postfix n (model.read n) (terminals text.now tokens.now)) }
    ensures shorter { IfOk result (λ x. length x.1.now < length tokens.now) }
{
    let place = place_of(tokens);
    let (mut left, mut rest) = primary(alloc, text, tokens)?;
    while let Some(_) = next_rank(rest, AFTER_OPERAND) {
        let (node, after) = suffix(alloc, text, place, left, rest)?;
        left = node;
        rest = after;
    }
    Ok((left, rest))
}

// What stands after an operand.
#[cycle(expression)]
fn suffix<'a>(
    alloc: Global,
    text: &[u8],
    place: Place,
    left: Boxed<Node>,
    tokens: &'a [Token],
) -> Result<(Boxed<Node>, &'a [Token]), Fault>
    ensures reads { (n : ℕ) → Gives (λ x. ((place, x.0), terminals text.now x.1.now)) result (model.suffix n (model.read n) (place, left) (terminals text.now tokens.now)) }
    ensures shorter { IfOk result (λ x. length x.1.now < length tokens.now) }
{
    if let Some((_, after)) = next_mark(tokens, OPEN_BRACKET) {
        let (index, after) = assign(alloc, text, after)?;
        let (_, after) = expect_mark(after, CLOSE_BRACKET)?;
        let node = nodes::index(alloc, place, left, index)?;
        return Ok((node, after));
    }
    if let Some((_, after)) = next_mark(tokens, OPEN_PARENTHESIS) {
        let (given, after) = arguments(alloc, text, after)?;
        let node = nodes::call(alloc, place, left, given)?;
        return Ok((node, after));
    }
    let (step, after) = expect_step(tokens)?;
    let node = nodes::after(alloc, place, mark_of(step) == INCREMENT, left)?;
    Ok((node, after))
}

#[cycle(expression)]
fn arguments<'a>(
    alloc: Global,
    text: &[u8],
    tokens: &'a [Token],
) -> Result<(List<Node>, &'a [Token]), Fault>
    ensures reads { (n : ℕ) → Gives (λ x. (x.0, terminals text.now x.1.now)) result (model.arguments n (model.read n) (terminals text.now tokens.now)) }
    ensures shorter { IfOk result (λ x. length x.1.now < length tokens.now) }
{
    let mut given = List::new(alloc);
    if let Some((_, after)) = next_mark(tokens, CLOSE_PARENTHESIS) {
        return Ok((given, after));
    }
    let (first, mut rest) = assign(alloc, text, tokens)?;
    nodes::append(&mut given, first)?;
    while let Some((_, after)) = next_mark(rest, COMMA) {
        let (next, after) = assign(alloc, text, after)?;
        nodes::append(&mut given, next)?;
        rest = after;
    }
    let (_, rest) = expect_mark(rest, CLOSE_PARENTHESIS)?;
    Ok((given, rest))
}

#[cycle(expression)]
fn primary<'a>(
    alloc: Global,
    text: &[u8],
    tokens: &'a [Token],
) -> Result<(Boxed<Node>, &'a [Token]), Fault>
    ensures reads { (n : ℕ) → Gives (λ x. (x.0, terminals text.now x.1.now)) result (model.primary (model.read n) (terminals text.now tokens.now)) }
    ensures shorter { IfOk result (λ x. length x.1.now < length tokens.now) }
{
    if let Some((token, after)) = next_name(tokens) {
        let node = nodes::name(alloc, token.place, text_of(alloc, text, token)?)?;
        return Ok((node, after));
    }
    if let Some((token, after)) = next_number(tokens) {
        let (value, kind) = value_of(token);
        let node = nodes::number(alloc, token.place, value, kind)?;
        return Ok((node, after));
    }
    let (_, after) = expect_mark(tokens, OPEN_PARENTHESIS)?;
    let (inner, after) = assign(alloc, text, after)?;
    let (_, after) = expect_mark(after, CLOSE_PARENTHESIS)?;
    Ok((inner, after))
}

// The value of a number or a character, and its type.
fn value_of(token: &Token) -> (u32, Kind)
    ensures { what.Number result.0 result.1 ≡ piece_value token.now.what }
{
    match token.what {
        Piece::Number(value, kind) => (value, kind),
        _ => (0, Kind::Int),
    }
}
