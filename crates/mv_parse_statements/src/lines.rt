//! The nodes of statements. A node is boxed where it is made, so that a function that gives it up
//! has one call to drop it.
ghost use Rattle.std.specs.Prelude.{◌≡◌, None, IfOk};
ghost use Rattle.mv_parse_grammar.specs.Declarations.{place_of_specs};
ghost use Rattle.mv_parse_grammar.specs.Statements.{line_at, express};
ghost use Rattle.mv_syntax.specs.declared.unit.Act.TheVariants as act;

use mv_num::boxed::Boxed;
use mv_num::list::List;
use mv_parse_nodes::nodes::unboxed;
use mv_syntax::place::Place;
use mv_syntax::unit::{Act, Declarator, Line, Node, Specs};
use std::alloc::{AllocError, Global};

/// A block.
pub fn block(alloc: Global, place: Place, lines: List<Line>) -> Result<Boxed<Line>, AllocError>
    ensures { IfOk result (λ line. line ≡ line_at place (act.Block lines)) }
{
    let what = Act::Block(lines);
    Boxed::new(alloc, Line { place, what })
}

/// A declaration, at the place of its specifiers.
pub fn declaration(
    alloc: Global,
    specs: Specs,
    names: List<Declarator>,
) -> Result<Boxed<Line>, AllocError>
    ensures { IfOk result (λ line. line ≡ line_at (place_of_specs specs) (act.Declare specs names)) }
{
    let place = specs.place;
    let what = Act::Declare(specs, names);
    Boxed::new(alloc, Line { place, what })
}

/// An expression and its semicolon, or the semicolon alone.
pub fn expression(
    alloc: Global,
    place: Place,
    value: Option<Boxed<Node>>,
) -> Result<Boxed<Line>, AllocError>
    ensures { IfOk result (λ line. line ≡ line_at place (act.Express value)) }
{
    let what = Act::Express(unboxed(value));
    Boxed::new(alloc, Line { place, what })
}

/// What a `for` begins with: the same, and nothing for the semicolon alone.
pub fn first_expression(
    alloc: Global,
    place: Place,
    value: Option<Boxed<Node>>,
) -> Result<Option<Boxed<Line>>, AllocError>
    ensures { IfOk result (λ line. line ≡ express place value) }
{
    match value {
        Some(value) => {
            let line = expression(alloc, place, Some(value))?;
            Ok(Some(line))
        }
        None => Ok(None),
    }
}

/// `if`, with what stands behind its `else`.
pub fn if_statement(
    alloc: Global,
    place: Place,
    test: Boxed<Node>,
    first: Boxed<Line>,
    second: Option<Boxed<Line>>,
) -> Result<Boxed<Line>, AllocError>
    ensures { IfOk result (λ line. line ≡ line_at place (act.If test first second)) }
{
    let what = Act::If(test.into_inner(), first, second);
    Boxed::new(alloc, Line { place, what })
}

/// `while`
pub fn while_statement(
    alloc: Global,
    place: Place,
    test: Boxed<Node>,
    body: Boxed<Line>,
) -> Result<Boxed<Line>, AllocError>
    ensures { IfOk result (λ line. line ≡ line_at place (act.While test body)) }
{
    let what = Act::While(test.into_inner(), body);
    Boxed::new(alloc, Line { place, what })
}

/// `do`
pub fn do_statement(
    alloc: Global,
    place: Place,
    body: Boxed<Line>,
    test: Boxed<Node>,
) -> Result<Boxed<Line>, AllocError>
    ensures { IfOk result (λ line. line ≡ line_at place (act.Do body test)) }
{
    let what = Act::Do(body, test.into_inner());
    Boxed::new(alloc, Line { place, what })
}

/// `for`
pub fn for_statement(
    alloc: Global,
    place: Place,
    first: Option<Boxed<Line>>,
    test: Option<Boxed<Node>>,
    step: Option<Boxed<Node>>,
    body: Boxed<Line>,
) -> Result<Boxed<Line>, AllocError>
    ensures { IfOk result (λ line. line ≡ line_at place (act.For first test step body)) }
{
    let what = Act::For(first, unboxed(test), unboxed(step), body);
    Boxed::new(alloc, Line { place, what })
}

/// `switch`
pub fn switch_statement(
    alloc: Global,
    place: Place,
    tested: Boxed<Node>,
    body: Boxed<Line>,
) -> Result<Boxed<Line>, AllocError>
    ensures { IfOk result (λ line. line ≡ line_at place (act.Switch tested body)) }
{
    let what = Act::Switch(tested.into_inner(), body);
    Boxed::new(alloc, Line { place, what })
}

/// `case`
pub fn case_label(
    alloc: Global,
    place: Place,
    value: Boxed<Node>,
) -> Result<Boxed<Line>, AllocError>
    ensures { IfOk result (λ line. line ≡ line_at place (act.Case value)) }
{
    let what = Act::Case(value.into_inner());
    Boxed::new(alloc, Line { place, what })
}

/// `default`
pub fn default_label(alloc: Global, place: Place) -> Result<Boxed<Line>, AllocError>
    ensures { IfOk result (λ line. line ≡ line_at place act.Default) }
{
    let what = Act::Default;
    Boxed::new(alloc, Line { place, what })
}

/// `break`
pub fn break_statement(alloc: Global, place: Place) -> Result<Boxed<Line>, AllocError>
    ensures { IfOk result (λ line. line ≡ line_at place act.Break) }
{
    let what = Act::Break;
    Boxed::new(alloc, Line { place, what })
}

/// `continue`
pub fn continue_statement(alloc: Global, place: Place) -> Result<Boxed<Line>, AllocError>
    ensures { IfOk result (λ line. line ≡ line_at place act.Continue) }
{
    let what = Act::Continue;
    Boxed::new(alloc, Line { place, what })
}

/// `return`
pub fn return_statement(
    alloc: Global,
    place: Place,
    value: Option<Boxed<Node>>,
) -> Result<Boxed<Line>, AllocError>
    ensures { IfOk result (λ line. line ≡ line_at place (act.Return value)) }
{
    let what = Act::Return(unboxed(value));
    Boxed::new(alloc, Line { place, what })
}
