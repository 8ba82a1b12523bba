//! The nodes of declarations. A node is boxed where it is made, so that a function that gives it up
//! has one call to drop it.
ghost use Rattle.std.specs.Prelude.{◌≡◌, IfOk};
ghost use Rattle.mv_syntax.specs.declared.unit.Initial.TheVariants as initial;
ghost use Rattle.mv_parse_grammar.specs.Terminals.{terminal};
ghost use Rattle.mv_parse_grammar.specs.Declarations as grammar;

use mv_num::boxed::Boxed;
use mv_num::list::List;
use mv_num::text::Text;
use mv_parse_nodes::nodes::unboxed;
use mv_parse_nodes::tokens::text_of;
use mv_syntax::place::Place;
use mv_syntax::token::Token;
use mv_syntax::unit::{Declarator, Initial, Mark, Member, Node, Param, Shape, Specs};
use std::alloc::{AllocError, Global};

/// An enumerator, of this name.
pub fn member(
    alloc: Global,
    text: &[u8],
    name: &Token,
    value: Option<Boxed<Node>>,
) -> Result<Boxed<Member>, AllocError>
    ensures { IfOk result (λ member. member ≡ grammar.member_of (terminal text.now name.now) value) }
{
    let place = name.place;
    let name = text_of(alloc, text, name)?;
    let value = unboxed(value);
    Boxed::new(alloc, Member { place, name, value })
}

/// A declarator without attributes and initial value.
pub fn declarator(
    alloc: Global,
    place: Place,
    name: Option<Text>,
    shape: Shape,
) -> Result<Boxed<Declarator>, AllocError>
    ensures { IfOk result (λ declarator. declarator ≡ grammar.declarator_of place name shape) }
{
    let declarator = bare(alloc, place, name, shape);
    Boxed::new(alloc, declarator)
}

fn bare(alloc: Global, place: Place, name: Option<Text>, shape: Shape) -> Declarator
    ensures { result ≡ grammar.declarator_of place name shape }
{
    Declarator {
        place,
        name,
        shape,
        marks: List::new(alloc),
        initial: None,
    }
}

/// A declarator with one more attribute.
pub fn attributed(
    alloc: Global,
    declarator: Boxed<Declarator>,
    mark: Mark,
) -> Result<Boxed<Declarator>, AllocError>
    ensures { IfOk result (λ new. new ≡ grammar.attributed declarator mark) }
{
    let mut declarator = declarator.into_inner();
    if let Err(failed) = declarator.marks.push(mark) {
        drop(declarator);
        return Err(failed.into());
    }
    Boxed::new(alloc, declarator)
}

/// A declarator with its initial value.
pub fn initialised(
    alloc: Global,
    declarator: Boxed<Declarator>,
    value: Boxed<Initial>,
) -> Result<Boxed<Declarator>, AllocError>
    ensures { IfOk result (λ new. new ≡ grammar.initialised declarator value) }
{
    let mut declarator = declarator.into_inner();
    drop(declarator.initial.replace(value.into_inner()));
    Boxed::new(alloc, declarator)
}

/// A parameter, with a name or without one.
pub fn param(
    alloc: Global,
    specs: Specs,
    place: Place,
    name: Option<Text>,
    shape: Shape,
) -> Result<Boxed<Param>, AllocError>
    ensures { IfOk result (λ param. param ≡ grammar.param_of specs (grammar.declarator_of place name shape)) }
{
    let name = bare(alloc, place, name, shape);
    Boxed::new(alloc, Param { specs, name })
}

/// What is declared where no parameters follow: an array if there is an extent, which may be empty.
pub fn array_shape(extent: Option<Option<Boxed<Node>>>) -> Shape
    ensures { result ≡ grammar.array_shape extent }
{
    match extent {
        None => Shape::Plain,
        Some(extent) => Shape::Array(unboxed(extent)),
    }
}

/// A pointer to functions with these parameters, or an array of such pointers.
pub fn pointer_shape(fixed: bool, extent: Option<Option<Boxed<Node>>>, params: List<Param>) -> Shape
    ensures { result ≡ grammar.pointer_shape fixed extent params }
{
    match extent {
        None => Shape::Pointer(fixed, params),
        Some(extent) => Shape::PointerArray(fixed, unboxed(extent), params),
    }
}

/// An initial value.
pub fn value(alloc: Global, value: Boxed<Node>) -> Result<Boxed<Initial>, AllocError>
    ensures { IfOk result (λ new. new ≡ initial.Value value) }
{
    Boxed::new(alloc, Initial::Value(value.into_inner()))
}

/// The initial values of an array.
pub fn values(alloc: Global, values: List<Node>) -> Result<Boxed<Initial>, AllocError>
    ensures { IfOk result (λ new. new ≡ initial.Values values) }
{
    Boxed::new(alloc, Initial::Values(values))
}

/// The characters of an array.
pub fn characters(alloc: Global, characters: List<u8>) -> Result<Boxed<Initial>, AllocError>
    ensures { IfOk result (λ new. new ≡ initial.Chars characters) }
{
    Boxed::new(alloc, Initial::Chars(characters))
}
