//! The items of a unit: declarations and definitions of functions (C11 6.9).
ghost use Rattle.std.specs.Prelude.{◌≡◌, ◌<◌, ◌≤◌, ℕ, [], ◌∷◌, Some, None, length, IfOk};
ghost use Rattle.mv_parse_grammar.specs.Terminals.{terminals};
ghost use Rattle.mv_parse_grammar.specs.ExpressionReader.{read};
ghost use Rattle.mv_parse_grammar.specs.DeclarationReader.{params};
ghost use Rattle.mv_parse_grammar.specs.StatementReader as statement;
ghost use Rattle.mv_parse_grammar.specs.UnitReader as model;
ghost use Rattle.mv_parse_grammar.specs.Units.{item_of};
ghost use Rattle.mv_parse_nodes.specs.Gives.{Gives};
ghost use Rattle.mv_parser.specs.Items as forms;

use mv_ast::marks::{COMMA, OPEN_BRACE, SEMICOLON};
use mv_num::boxed::Boxed;
use mv_num::list::List;
use mv_parse_declarations::declarator::{declarator, declared, with_init};
use mv_parse_declarations::specifiers::specs;
use mv_parse_nodes::fault::Fault;
use mv_parse_nodes::nodes;
use mv_parse_nodes::tokens::{expect_mark, next_any, next_mark};
use mv_parse_statements::statement::block;
use mv_syntax::token::Token;
use mv_syntax::unit::{Declarator, Item, Line, Specs};
use std::alloc::{AllocError, Global};

/// Items up to the end.
pub fn items(alloc: Global, text: &[u8], tokens: &[Token]) -> Result<List<Item>, Fault>
    ensures { (n : ℕ) → Gives (λ items. (items, [])) result (model.unit n (terminals text.now tokens.now)) }
{
    let mut items = List::new(alloc);
    let mut rest = tokens;
    while let Some(_) = next_any(rest) {
        let (item, after) = item(alloc, text, rest)?;
        nodes::append(&mut items, item)?;
        rest = after;
    }
    Ok(items)
}

// A declaration, or the definition of a function.
fn item<'a>(
    alloc: Global,
    text: &[u8],
    tokens: &'a [Token],
) -> Result<(Boxed<Item>, &'a [Token]), Fault>
    ensures reads { (n : ℕ) → Gives (λ x. (x.0, terminals text.now x.1.now)) result (model.items n (terminals text.now tokens.now)) }
    ensures shorter { IfOk result (λ x. length x.1.now < length tokens.now) }
{
    let (specs, rest) = specs(alloc, text, tokens)?;
    if let Some((_, after)) = next_mark(rest, SEMICOLON) {
        let item = declaration(alloc, specs, List::new(alloc))?;
        return Ok((item, after));
    }
    let (first, rest) = declarator(alloc, text, rest)?;
    after_declarator(alloc, text, specs, first, rest)
}

// What stands behind the first declarator.
fn after_declarator<'a>(
    alloc: Global,
    text: &[u8],
    specs: Specs,
    first: Boxed<Declarator>,
    tokens: &'a [Token],
) -> Result<(Boxed<Item>, &'a [Token]), Fault>
    ensures reads { (n : ℕ) → Gives (λ x. (x.0, terminals text.now x.1.now)) result (model.after_declarator n (read n) (params n) (statement.block n (statement.locals n) (statement.statements n)) specs first (terminals text.now tokens.now)) }
    ensures shorter { IfOk result (λ x. length x.1.now < length tokens.now) }
{
    if let Some(_) = next_mark(tokens, OPEN_BRACE) {
        let (body, rest) = block(alloc, text, tokens)?;
        let item = definition(alloc, specs, first, body)?;
        return Ok((item, rest));
    }
    let (names, rest) = declared_from(alloc, text, first, tokens)?;
    let (_, rest) = expect_mark(rest, SEMICOLON)?;
    let item = declaration(alloc, specs, names)?;
    Ok((item, rest))
}

// The declared names, of which the first declarator was read.
fn declared_from<'a>(
    alloc: Global,
    text: &[u8],
    first: Boxed<Declarator>,
    tokens: &'a [Token],
) -> Result<(List<Declarator>, &'a [Token]), Fault>
    ensures reads { (n : ℕ) → Gives (λ x. (x.0, terminals text.now x.1.now)) result (forms.declared_from n first (terminals text.now tokens.now)) }
    ensures shorter { IfOk result (λ x. length x.1.now ≤ length tokens.now) }
{
    let (initialised, mut rest) = with_init(alloc, text, first, tokens)?;
    let mut names = List::new(alloc);
    nodes::append(&mut names, initialised)?;
    while let Some((_, after)) = next_mark(rest, COMMA) {
        let (next, after) = declared(alloc, text, after)?;
        nodes::append(&mut names, next)?;
        rest = after;
    }
    Ok((names, rest))
}

// A declaration.
fn declaration(
    alloc: Global,
    specs: Specs,
    names: List<Declarator>,
) -> Result<Boxed<Item>, AllocError>
    ensures { IfOk result (λ item. item ≡ item_of specs names None) }
{
    let body = None;
    Boxed::new(alloc, Item { specs, names, body })
}

// The definition of a function.
fn definition(
    alloc: Global,
    specs: Specs,
    name: Boxed<Declarator>,
    body: Boxed<Line>,
) -> Result<Boxed<Item>, AllocError>
    ensures { IfOk result (λ item. item ≡ item_of specs (name ∷ []) (Some body)) }
{
    let mut names = List::new(alloc);
    nodes::append(&mut names, name)?;
    let body = Some(body.into_inner());
    Boxed::new(alloc, Item { specs, names, body })
}
