//! Enums (C11 6.7.2.2).
ghost use Rattle.std.specs.Prelude.{◌<◌, ◌≤◌, ℕ, length, IfOk};
ghost use Rattle.mv_parse_grammar.specs.Terminals.{terminal, terminals};
ghost use Rattle.mv_parse_grammar.specs.Reader.{braced_list};
ghost use Rattle.mv_parse_grammar.specs.ExpressionReader.{read};
ghost use Rattle.mv_parse_grammar.specs.DeclarationReader as model;
ghost use Rattle.mv_parse_nodes.specs.Gives.{Gives};

use crate::nodes;
use mv_ast::marks::{ASSIGN, CLOSE_BRACE, COMMA, OPEN_BRACE};
use mv_num::boxed::Boxed;
use mv_num::list::List;
use mv_parse_expressions::expression::conditional;
use mv_parse_nodes::fault::Fault;
use mv_parse_nodes::nodes::append;
use mv_parse_nodes::specifiers::tag_of;
use mv_parse_nodes::tokens::{
    expect_keyword, expect_mark, expect_name, next_mark, next_name, text_of,
};
use mv_syntax::keywords::ENUM;
use mv_syntax::token::Token;
use mv_syntax::unit::{EnumSpec, Member};
use std::alloc::Global;

/// An enum by its tag, by its enumerators, or by both.
pub fn enum_specifier<'a>(
    alloc: Global,
    text: &[u8],
    tokens: &'a [Token],
) -> Result<(EnumSpec, &'a [Token]), Fault>
    ensures reads { (n : ℕ) → Gives (λ x. (x.0, terminals text.now x.1.now)) result (model.enum n (read n) (terminals text.now tokens.now)) }
    ensures shorter { IfOk result (λ x. length x.1.now < length tokens.now) }
{
    let (_, rest) = expect_keyword(tokens, ENUM)?;
    if let Some((name, rest)) = next_name(rest) {
        return after_tag(alloc, text, name, rest);
    }
    let (members, rest) = enumerators(alloc, text, rest)?;
    let (tag, members) = (None, Some(members));
    Ok((EnumSpec { tag, members }, rest))
}

fn after_tag<'a>(
    alloc: Global,
    text: &[u8],
    name: &Token,
    tokens: &'a [Token],
) -> Result<(EnumSpec, &'a [Token]), Fault>
    ensures reads { (n : ℕ) → Gives (λ x. (x.0, terminals text.now x.1.now)) result (model.after_tag n (read n) (terminal text.now name.now) (terminals text.now tokens.now)) }
    ensures shorter { IfOk result (λ x. length x.1.now ≤ length tokens.now) }
{
    let Some(_) = next_mark(tokens, OPEN_BRACE) else {
        let tag = tag_of(alloc, text, name)?;
        return Ok((tag, tokens));
    };
    let tag = Some(text_of(alloc, text, name)?);
    let (members, rest) = enumerators(alloc, text, tokens)?;
    let members = Some(members);
    Ok((EnumSpec { tag, members }, rest))
}

// The enumerators in braces, with or without a comma behind the last.
fn enumerators<'a>(
    alloc: Global,
    text: &[u8],
    tokens: &'a [Token],
) -> Result<(List<Member>, &'a [Token]), Fault>
    ensures reads { (n : ℕ) → Gives (λ x. (x.0, terminals text.now x.1.now)) result (braced_list n (model.enumerator (read n)) (terminals text.now tokens.now)) }
    ensures shorter { IfOk result (λ x. length x.1.now < length tokens.now) }
{
    let mut members = List::new(alloc);
    let (_, rest) = expect_mark(tokens, OPEN_BRACE)?;
    let (first, mut rest) = enumerator(alloc, text, rest)?;
    append(&mut members, first)?;
    while let Some((_, after)) = next_mark(rest, COMMA) {
        if let Some((_, after)) = next_mark(after, CLOSE_BRACE) {
            return Ok((members, after));
        }
        let (next, after) = enumerator(alloc, text, after)?;
        append(&mut members, next)?;
        rest = after;
    }
    let (_, rest) = expect_mark(rest, CLOSE_BRACE)?;
    Ok((members, rest))
}

fn enumerator<'a>(
    alloc: Global,
    text: &[u8],
    tokens: &'a [Token],
) -> Result<(Boxed<Member>, &'a [Token]), Fault>
    ensures reads { (n : ℕ) → Gives (λ x. (x.0, terminals text.now x.1.now)) result (model.enumerator (read n) (terminals text.now tokens.now)) }
    ensures shorter { IfOk result (λ x. length x.1.now < length tokens.now) }
{
    let (name, rest) = expect_name(tokens)?;
    let Some((_, after)) = next_mark(rest, ASSIGN) else {
        let member = nodes::member(alloc, text, name, None)?;
        return Ok((member, rest));
    };
    let (value, after) = conditional(alloc, text, after)?;
    let member = nodes::member(alloc, text, name, Some(value))?;
    Ok((member, after))
}
