//! The specifiers of a declaration (C11 6.7.1 to 6.7.3).
ghost use Rattle.std.specs.Prelude.{◌<◌, ℕ, length, IfOk};
ghost use Rattle.mv_parse_grammar.specs.Terminals.{terminals};
ghost use Rattle.mv_parse_grammar.specs.ExpressionReader.{read};
ghost use Rattle.mv_parse_grammar.specs.DeclarationReader as model;
ghost use Rattle.mv_parse_nodes.specs.Gives.{Gives};

use crate::attributes::attribute;
use crate::enums::enum_specifier;
use mv_parse_nodes::fault::Fault;
use mv_parse_nodes::specifiers::{
    add_const, add_mark, add_static, add_tag, add_word, no_specs, put_at,
};
use mv_parse_nodes::tokens::{keyword_of, next_keyword, next_specifier, next_type_word, place_of};
use mv_syntax::keywords::{CONST, ENUM, STATIC};
use mv_syntax::token::Token;
use mv_syntax::unit::Specs;
use std::alloc::Global;

/// One or more specifiers, at the place of the first.
pub fn specs<'a>(
    alloc: Global,
    text: &[u8],
    tokens: &'a [Token],
) -> Result<(Specs, &'a [Token]), Fault>
    ensures reads { (n : ℕ) → Gives (λ x. (x.0, terminals text.now x.1.now)) result (model.specs n (read n) (terminals text.now tokens.now)) }
    ensures shorter { IfOk result (λ x. length x.1.now < length tokens.now) }
{
    let mut specs = no_specs(alloc);
    let mut rest = specifier(alloc, text, tokens, &mut specs)?;
    put_at(&mut specs, place_of(tokens));
    while let Some(_) = next_specifier(rest) {
        rest = specifier(alloc, text, rest, &mut specs)?;
    }
    Ok((specs, rest))
}

// Adds one specifier.
fn specifier<'a>(
    alloc: Global,
    text: &[u8],
    tokens: &'a [Token],
    specs: &mut Specs,
) -> Result<&'a [Token], Fault>
    ensures reads { (n : ℕ) → Gives (λ x. (specs.new, terminals text.now x.now)) result (model.specifier n (read n) specs.old (terminals text.now tokens.now)) }
    ensures shorter { IfOk result (λ x. length x.now < length tokens.now) }
{
    if let Some((_, rest)) = next_keyword(tokens, STATIC) {
        add_static(specs);
        return Ok(rest);
    }
    if let Some((_, rest)) = next_keyword(tokens, CONST) {
        add_const(specs);
        return Ok(rest);
    }
    if let Some((word, rest)) = next_type_word(tokens) {
        add_word(specs, keyword_of(word))?;
        return Ok(rest);
    }
    if let Some(_) = next_keyword(tokens, ENUM) {
        let (tag, rest) = enum_specifier(alloc, text, tokens)?;
        add_tag(specs, tag)?;
        return Ok(rest);
    }
    let (mark, rest) = attribute(alloc, text, tokens)?;
    add_mark(specs, mark)?;
    Ok(rest)
}
