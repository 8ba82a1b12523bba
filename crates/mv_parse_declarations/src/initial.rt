//! Initial values (C11 6.7.9).
ghost use Rattle.std.specs.Prelude.{◌≡◌, ◌<◌, ◌++◌, ℕ, List, length, IfOk, OnOk};
ghost use Rattle.mv_parse_grammar.specs.Terminals.{terminals};
ghost use Rattle.mv_parse_grammar.specs.Expressions.{Assign};
ghost use Rattle.mv_parse_grammar.specs.Reader.{braced_list};
ghost use Rattle.mv_parse_grammar.specs.Declarations.{characters_of_piece};
ghost use Rattle.mv_parse_grammar.specs.ExpressionReader.{read};
ghost use Rattle.mv_parse_grammar.specs.DeclarationReader as model;
ghost use Rattle.mv_parse_nodes.specs.Gives.{Gives};

use crate::nodes;
use mv_ast::marks::{ASSIGN, CLOSE_BRACE, COMMA, OPEN_BRACE};
use mv_num::boxed::Boxed;
use mv_num::list::List;
use mv_parse_expressions::expression::assign;
use mv_parse_nodes::fault::Fault;
use mv_parse_nodes::nodes::append;
use mv_parse_nodes::tokens::{expect_mark, expect_string, next_mark, next_string};
use mv_syntax::token::{Piece, Token};
use mv_syntax::unit::{Initial, Node};
use std::alloc::{AllocError, Global};

/// `=`, and a value, a list of values, or strings.
pub fn init<'a>(
    alloc: Global,
    text: &[u8],
    tokens: &'a [Token],
) -> Result<(Boxed<Initial>, &'a [Token]), Fault>
    ensures reads { (n : ℕ) → Gives (λ x. (x.0, terminals text.now x.1.now)) result (model.init n (read n) (terminals text.now tokens.now)) }
    ensures shorter { IfOk result (λ x. length x.1.now < length tokens.now) }
{
    let (_, rest) = expect_mark(tokens, ASSIGN)?;
    if let Some(_) = next_mark(rest, OPEN_BRACE) {
        let (values, rest) = values(alloc, text, rest)?;
        let initial = nodes::values(alloc, values)?;
        return Ok((initial, rest));
    }
    if let Some(_) = next_string(rest) {
        let (characters, rest) = characters(alloc, rest)?;
        let initial = nodes::characters(alloc, characters)?;
        return Ok((initial, rest));
    }
    let (value, rest) = assign(alloc, text, rest)?;
    let initial = nodes::value(alloc, value)?;
    Ok((initial, rest))
}

// The values in braces, with or without a comma behind the last.
fn values<'a>(
    alloc: Global,
    text: &[u8],
    tokens: &'a [Token],
) -> Result<(List<Node>, &'a [Token]), Fault>
    ensures reads { (n : ℕ) → Gives (λ x. (x.0, terminals text.now x.1.now)) result (braced_list n (read n Assign) (terminals text.now tokens.now)) }
    ensures shorter { IfOk result (λ x. length x.1.now < length tokens.now) }
{
    let mut values = List::new(alloc);
    let (_, rest) = expect_mark(tokens, OPEN_BRACE)?;
    let (first, mut rest) = assign(alloc, text, rest)?;
    append(&mut values, first)?;
    while let Some((_, after)) = next_mark(rest, COMMA) {
        if let Some((_, after)) = next_mark(after, CLOSE_BRACE) {
            return Ok((values, after));
        }
        let (next, after) = assign(alloc, text, after)?;
        append(&mut values, next)?;
        rest = after;
    }
    let (_, rest) = expect_mark(rest, CLOSE_BRACE)?;
    Ok((values, rest))
}

// Adjacent strings are one (C11 5.1.1.2).
fn characters<'a>(alloc: Global, tokens: &'a [Token]) -> Result<(List<u8>, &'a [Token]), Fault>
    ensures reads { (text : List ℕ) (n : ℕ) → Gives (λ x. (x.0, terminals text x.1.now)) result (model.characters n (terminals text tokens.now)) }
    ensures shorter { IfOk result (λ x. length x.1.now < length tokens.now) }
{
    let mut characters = List::new(alloc);
    let (first, mut rest) = expect_string(tokens)?;
    add_characters(&mut characters, first)?;
    while let Some((next, after)) = next_string(rest) {
        add_characters(&mut characters, next)?;
        rest = after;
    }
    Ok((characters, rest))
}

fn add_characters(characters: &mut List<u8>, token: &Token) -> Result<(), AllocError>
    ensures { OnOk result (characters.new ≡ characters.old ++ characters_of_piece token.now.what) }
{
    if let Piece::Chars(more) = &token.what {
        for character in more.as_slice() {
            characters.push(*character)?;
        }
    }
    Ok(())
}
