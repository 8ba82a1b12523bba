//! Declarations in a block (C11 6.7).
ghost use Rattle.std.specs.Prelude.{◌≡◌, ◌<◌, ℕ, length, IfOk};
ghost use Rattle.mv_parse_grammar.specs.Terminals.{terminals};
ghost use Rattle.mv_parse_grammar.specs.StatementReader as model;
ghost use Rattle.mv_parse_nodes.specs.Gives.{Gives};

use crate::lines;
use mv_ast::marks::SEMICOLON;
use mv_num::boxed::Boxed;
use mv_parse_declarations::declarator::declared_list;
use mv_parse_declarations::specifiers::specs;
use mv_parse_nodes::fault::Fault;
use mv_parse_nodes::tokens::expect_mark;
use mv_syntax::token::Token;
use mv_syntax::unit::Line;
use std::alloc::Global;

/// A declaration that declares at least one name.
pub fn local<'a>(
    alloc: Global,
    text: &[u8],
    tokens: &'a [Token],
) -> Result<(Boxed<Line>, &'a [Token]), Fault>
    ensures reads { (n : ℕ) → Gives (λ x. (x.0, terminals text.now x.1.now)) result (model.locals n (terminals text.now tokens.now)) }
    ensures shorter { IfOk result (λ x. length x.1.now < length tokens.now) }
{
    let (specs, rest) = specs(alloc, text, tokens)?;
    let (names, rest) = declared_list(alloc, text, rest)?;
    let (_, rest) = expect_mark(rest, SEMICOLON)?;
    let line = lines::declaration(alloc, specs, names)?;
    Ok((line, rest))
}
