//! The types of casts (C11 6.7.7).
ghost use Rattle.std.specs.Prelude.{◌≡◌, ◌<◌, ℕ, length, IfOk};
ghost use Rattle.mv_parse_grammar.specs.Terminals.{terminals};
ghost use Rattle.mv_parse_grammar.specs.ExpressionReader as model;
ghost use Rattle.mv_parse_nodes.specs.Gives.{Gives};

use mv_parse_nodes::fault::Fault;
use mv_parse_nodes::specifiers::{add_const, add_tag, add_word, no_specs, put_at, tag_of};
use mv_parse_nodes::tokens::{
    expect_keyword, expect_name, keyword_of, next_keyword, next_type_part, next_type_word, place_of,
};
use mv_syntax::keywords::{CONST, ENUM};
use mv_syntax::token::Token;
use mv_syntax::unit::Specs;
use std::alloc::Global;

/// A type as a cast has it, at the place of its first word.
pub fn type_name<'a>(
    alloc: Global,
    text: &[u8],
    tokens: &'a [Token],
) -> Result<(Specs, &'a [Token]), Fault>
    ensures reads { (n : ℕ) → Gives (λ x. (x.0, terminals text.now x.1.now)) result (model.type_name n (terminals text.now tokens.now)) }
    ensures shorter { IfOk result (λ x. length x.1.now < length tokens.now) }
{
    let mut specs = no_specs(alloc);
    let mut rest = type_part(alloc, text, tokens, &mut specs)?;
    put_at(&mut specs, place_of(tokens));
    while let Some(_) = next_type_part(rest) {
        rest = type_part(alloc, text, rest, &mut specs)?;
    }
    Ok((specs, rest))
}

// Adds one word of the type, or one enum.
fn type_part<'a>(
    alloc: Global,
    text: &[u8],
    tokens: &'a [Token],
    specs: &mut Specs,
) -> Result<&'a [Token], Fault>
    ensures reads { Gives (λ x. (specs.new, terminals text.now x.now)) result (model.type_part specs.old (terminals text.now tokens.now)) }
    ensures shorter { IfOk result (λ x. length x.now < length tokens.now) }
{
    if let Some((_, rest)) = next_keyword(tokens, CONST) {
        add_const(specs);
        return Ok(rest);
    }
    if let Some((word, rest)) = next_type_word(tokens) {
        add_word(specs, keyword_of(word))?;
        return Ok(rest);
    }
    let (_, rest) = expect_keyword(tokens, ENUM)?;
    let (name, rest) = expect_name(rest)?;
    let tag = tag_of(alloc, text, name)?;
    add_tag(specs, tag)?;
    Ok(rest)
}
