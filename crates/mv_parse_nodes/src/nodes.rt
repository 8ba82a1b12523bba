//! The nodes of expressions. A node is boxed where it is made, so that a function that gives it up
//! has one call to drop it.
ghost use Rattle.std.specs.Prelude.{◌≡◌, [], ◌∷◌, ◌++◌, IfOk, OnOk};
ghost use Rattle.mv_parse_grammar.specs.Expressions.{node_at};
ghost use Rattle.mv_syntax.specs.declared.unit.What.TheVariants as what;

use mv_num::boxed::Boxed;
use mv_num::kind::Kind;
use mv_num::list::List;
use mv_num::text::Text;
use mv_syntax::place::Place;
use mv_syntax::unit::{Node, Specs, What};
use std::alloc::{AllocError, Global};

/// A number or a character.
pub fn number(
    alloc: Global,
    place: Place,
    value: u32,
    kind: Kind,
) -> Result<Boxed<Node>, AllocError>
    ensures { IfOk result (λ node. node ≡ node_at place (what.Number value kind)) }
{
    let what = What::Number(value, kind);
    Boxed::new(alloc, Node { place, what })
}

/// A name.
pub fn name(alloc: Global, place: Place, name: Text) -> Result<Boxed<Node>, AllocError>
    ensures { IfOk result (λ node. node ≡ node_at place (what.Name name)) }
{
    let what = What::Name(name);
    Boxed::new(alloc, Node { place, what })
}

/// An operator on one operand.
pub fn unary(
    alloc: Global,
    place: Place,
    operator: u8,
    operand: Boxed<Node>,
) -> Result<Boxed<Node>, AllocError>
    ensures { IfOk result (λ node. node ≡ node_at place (what.Unary operator operand)) }
{
    let what = What::Unary(operator, operand);
    Boxed::new(alloc, Node { place, what })
}

/// An operator on two operands.
pub fn binary(
    alloc: Global,
    place: Place,
    operator: u8,
    left: Boxed<Node>,
    right: Boxed<Node>,
) -> Result<Boxed<Node>, AllocError>
    ensures { IfOk result (λ node. node ≡ node_at place (what.Binary operator left right)) }
{
    let what = What::Binary(operator, left, right);
    Boxed::new(alloc, Node { place, what })
}

/// `test ? first : second`.
pub fn choose(
    alloc: Global,
    place: Place,
    test: Boxed<Node>,
    first: Boxed<Node>,
    second: Boxed<Node>,
) -> Result<Boxed<Node>, AllocError>
    ensures { IfOk result (λ node. node ≡ node_at place (what.Choose test first second)) }
{
    let what = What::Choose(test, first, second);
    Boxed::new(alloc, Node { place, what })
}

/// An assignment.
pub fn assign(
    alloc: Global,
    place: Place,
    operator: u8,
    left: Boxed<Node>,
    right: Boxed<Node>,
) -> Result<Boxed<Node>, AllocError>
    ensures { IfOk result (λ node. node ≡ node_at place (what.Assign operator left right)) }
{
    let what = What::Assign(operator, left, right);
    Boxed::new(alloc, Node { place, what })
}

/// `++` or `--` before its operand.
pub fn before(
    alloc: Global,
    place: Place,
    up: bool,
    operand: Boxed<Node>,
) -> Result<Boxed<Node>, AllocError>
    ensures { IfOk result (λ node. node ≡ node_at place (what.Before up operand)) }
{
    let what = What::Before(up, operand);
    Boxed::new(alloc, Node { place, what })
}

/// `++` or `--` after its operand.
pub fn after(
    alloc: Global,
    place: Place,
    up: bool,
    operand: Boxed<Node>,
) -> Result<Boxed<Node>, AllocError>
    ensures { IfOk result (λ node. node ≡ node_at place (what.After up operand)) }
{
    let what = What::After(up, operand);
    Boxed::new(alloc, Node { place, what })
}

/// An element of an array.
pub fn index(
    alloc: Global,
    place: Place,
    base: Boxed<Node>,
    index: Boxed<Node>,
) -> Result<Boxed<Node>, AllocError>
    ensures { IfOk result (λ node. node ≡ node_at place (what.Index base index)) }
{
    let what = What::Index(base, index);
    Boxed::new(alloc, Node { place, what })
}

/// A call.
pub fn call(
    alloc: Global,
    place: Place,
    callee: Boxed<Node>,
    given: List<Node>,
) -> Result<Boxed<Node>, AllocError>
    ensures { IfOk result (λ node. node ≡ node_at place (what.Call callee given)) }
{
    let what = What::Call(callee, given);
    Boxed::new(alloc, Node { place, what })
}

/// A cast.
pub fn cast(
    alloc: Global,
    place: Place,
    specs: Specs,
    operand: Boxed<Node>,
) -> Result<Boxed<Node>, AllocError>
    ensures { IfOk result (λ node. node ≡ node_at place (what.Cast specs operand)) }
{
    let what = What::Cast(specs, operand);
    Boxed::new(alloc, Node { place, what })
}

/// Puts a boxed item at the end of a list.
pub fn append<T: Drop>(list: &mut List<T>, item: Boxed<T>) -> Result<(), AllocError>
    ensures { OnOk result (list.new ≡ list.old ++ item ∷ []) }
{
    list.push(item.into_inner())?;
    Ok(())
}

/// A node that may be there.
pub fn unboxed(node: Option<Boxed<Node>>) -> Option<Node>
    ensures { result ≡ node }
{
    match node {
        Some(node) => Some(node.into_inner()),
        None => None,
    }
}
