//! The one attribute, `__attribute__ ((multiverse))`.
ghost use Rattle.std.specs.Prelude.{◌<◌, ◌≤◌, ℕ, length, IfOk};
ghost use Rattle.mv_ast.specs.Marks as marks;
ghost use Rattle.mv_parse_grammar.specs.Terminals.{terminals, is_mark};
ghost use Rattle.mv_parse_grammar.specs.Expressions.{Cond};
ghost use Rattle.mv_parse_grammar.specs.Reader.{optional, comma_list};
ghost use Rattle.mv_parse_grammar.specs.ExpressionReader.{read};
ghost use Rattle.mv_parse_grammar.specs.DeclarationReader as model;
ghost use Rattle.mv_parse_nodes.specs.Gives.{Gives};

use mv_ast::marks::{CLOSE_PARENTHESIS, COMMA, OPEN_PARENTHESIS};
use mv_num::list::List;
use mv_parse_expressions::expression::conditional;
use mv_parse_nodes::fault::Fault;
use mv_parse_nodes::nodes::append;
use mv_parse_nodes::tokens::{expect_keyword, expect_mark, expect_multiverse, next_mark};
use mv_syntax::keywords::ATTRIBUTE;
use mv_syntax::token::Token;
use mv_syntax::unit::{Mark, Node};
use std::alloc::Global;

/// The attribute, with its values where it has a list of them.
pub fn attribute<'a>(
    alloc: Global,
    text: &[u8],
    tokens: &'a [Token],
) -> Result<(Mark, &'a [Token]), Fault>
    ensures reads { (n : ℕ) → Gives (λ x. (x.0, terminals text.now x.1.now)) result (model.attribute n (read n) (terminals text.now tokens.now)) }
    ensures shorter { IfOk result (λ x. length x.1.now < length tokens.now) }
{
    let (first, rest) = expect_keyword(tokens, ATTRIBUTE)?;
    let (_, outer) = expect_mark(rest, OPEN_PARENTHESIS)?;
    let (_, inner) = expect_mark(outer, OPEN_PARENTHESIS)?;
    let (_, rest) = expect_multiverse(text, inner)?;
    let (values, rest) = domain_if_any(alloc, text, rest)?;
    let (_, outer) = expect_mark(rest, CLOSE_PARENTHESIS)?;
    let (_, rest) = expect_mark(outer, CLOSE_PARENTHESIS)?;
    let place = first.place;
    Ok((Mark { place, values }, rest))
}

fn domain_if_any<'a>(
    alloc: Global,
    text: &[u8],
    tokens: &'a [Token],
) -> Result<(Option<List<Node>>, &'a [Token]), Fault>
    ensures reads { (n : ℕ) → Gives (λ x. (x.0, terminals text.now x.1.now)) result (optional (is_mark marks.open_parenthesis) (model.domain n (read n)) (terminals text.now tokens.now)) }
    ensures shorter { IfOk result (λ x. length x.1.now ≤ length tokens.now) }
{
    let Some(_) = next_mark(tokens, OPEN_PARENTHESIS) else {
        return Ok((None, tokens));
    };
    let (values, rest) = domain(alloc, text, tokens)?;
    Ok((Some(values), rest))
}

// The values of a switch, in parentheses.
fn domain<'a>(
    alloc: Global,
    text: &[u8],
    tokens: &'a [Token],
) -> Result<(List<Node>, &'a [Token]), Fault>
    ensures reads { (n : ℕ) → Gives (λ x. (x.0, terminals text.now x.1.now)) result (model.domain n (read n) (terminals text.now tokens.now)) }
    ensures shorter { IfOk result (λ x. length x.1.now < length tokens.now) }
{
    let (_, rest) = expect_mark(tokens, OPEN_PARENTHESIS)?;
    let (values, rest) = constants(alloc, text, rest)?;
    let (_, rest) = expect_mark(rest, CLOSE_PARENTHESIS)?;
    Ok((values, rest))
}

fn constants<'a>(
    alloc: Global,
    text: &[u8],
    tokens: &'a [Token],
) -> Result<(List<Node>, &'a [Token]), Fault>
    ensures reads { (n : ℕ) → Gives (λ x. (x.0, terminals text.now x.1.now)) result (comma_list n (read n Cond) (terminals text.now tokens.now)) }
    ensures shorter { IfOk result (λ x. length x.1.now < length tokens.now) }
{
    let mut values = List::new(alloc);
    let (first, mut rest) = conditional(alloc, text, tokens)?;
    append(&mut values, first)?;
    while let Some((_, after)) = next_mark(rest, COMMA) {
        let (next, after) = conditional(alloc, text, after)?;
        append(&mut values, next)?;
        rest = after;
    }
    Ok((values, rest))
}
