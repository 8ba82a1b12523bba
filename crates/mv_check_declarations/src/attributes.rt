// The attribute `multiverse`.

ghost use Rattle.std.specs.Prelude.{◌≡◌, codes, IfOk};
ghost use Rattle.mv_check_expressions.specs.Judged.{IsJudged};
ghost use Rattle.mv_syntax.specs.declared.unit.Shape.{out-Shape};
ghost use Rattle.mv_check_declarations.specs.Attributes.{with_value, domain, given_domain, is_constant_form, is_main, shape_holder, holder_of, holder_behind, holder_of_all, both_hold, nothing_holds, holds, held, switch_kind, attributes};

use crate::constants::is_value_of;
use crate::value_set::ValueSet;
use mv_check_expressions::constant::{Constant, needed};
use mv_check_expressions::error::RuleError;
use mv_check_expressions::rules;
use mv_check_scope::domain::Domain;
use mv_check_scope::scope::Scope;
use mv_num::kind::Kind;
use mv_num::list::List;
use mv_syntax::place::Place;
use mv_syntax::unit::{Declarator, Mark, Node, Shape};
use std::alloc::{AllocError, Global};

/// Where a declaration stands (C11 6.2.1): at file scope, in a block, or among the parameters of a function.
#[derive(Clone, Copy, PartialEq, Eq, Debug)]
pub enum Position {
    File,
    Block,
    Parameter,
}

/// An attribute, with the values of its domain if it has a list of them.
#[derive(Drop)]
pub struct Attribute {
    pub values: Option<Domain>,
}

/// Whether an attribute without values may stand at a place, and whether one with values may.
#[derive(Clone, Copy, PartialEq, Eq, Debug)]
pub struct Holder {
    pub plainly: bool,
    pub with_values: bool,
}

// A domain with a value more. Nothing is asked of it where there is no switch.
#[tactic(auto, unfolding(crate::specs::Attributes::with_value))]
fn with_value(
    place: Place,
    kind: Option<Kind>,
    mut values: ValueSet,
    constant: Constant,
) -> Result<ValueSet, RuleError>
    ensures { IsJudged (with_value place kind values constant) result }
{
    let is_new = values.add(constant.value)?;
    if let Some(kind) = kind {
        if !is_value_of(kind, constant) || !is_new {
            return Err(RuleError::Rule(place, rules::DOMAINS));
        }
    }
    Ok(values)
}

fn domain(
    alloc: Global,
    kind: Option<Kind>,
    scope: &Scope,
    nodes: &[Node],
) -> Result<List<u32>, RuleError>
    ensures { IsJudged (domain kind scope.now nodes.now) result }
{
    let mut values = ValueSet::new(alloc);
    for node in nodes {
        let constant = needed(alloc, scope, node)?;
        values = with_value(node.place, kind, values, constant)?;
    }
    Ok(values.to_list(alloc)?)
}

fn given_domain(
    alloc: Global,
    kind: Option<Kind>,
    scope: &Scope,
    values: &Option<List<Node>>,
) -> Result<Attribute, RuleError>
    ensures { IsJudged (given_domain kind scope.now values.now) result }
{
    match values {
        None => Ok(Attribute { values: None }),
        Some(nodes) => {
            let values = domain(alloc, kind, scope, nodes.as_slice())?;
            let values = Domain::of(alloc, values)?;
            Ok(Attribute {
                values: Some(values),
            })
        }
    }
}

/// The same attribute for one more declarator. Its values aren't copied.
pub fn shared(attribute: &Option<Attribute>) -> Result<Option<Attribute>, AllocError>
    ensures { IfOk result (λ same. same ≡ attribute.now) }
{
    match attribute {
        None => Ok(None),
        Some(Attribute { values: None }) => Ok(Some(Attribute { values: None })),
        Some(
            Attribute {
                values: Some(values),
            },
        ) => {
            let values = values.shared()?;
            Ok(Some(Attribute {
                values: Some(values),
            }))
        }
    }
}

/// No attribute may stand.
pub const NOTHING: Holder = Holder {
    plainly: false,
    with_values: false,
};

/// Whether a declarator of a shape declares a `const` object, behind specifiers that say `const` or don't. Of a pointer they say nothing.
pub fn is_constant(fixed: bool, shape: &Shape) -> bool
    ensures { result ≡ is_constant_form fixed (out-Shape shape.now) }
{
    match shape {
        Shape::Plain | Shape::Array(_) => fixed,
        Shape::Function(_) => false,
        Shape::Pointer(constant, _) | Shape::PointerArray(constant, _, _) => *constant,
    }
}

/// What attributes a declarator may have, of a `const` object or another.
pub fn holder_of(position: Position, fixed: bool, declarator: &Declarator) -> Holder
    ensures { result ≡ holder_of position fixed declarator.now }
{
    match position {
        Position::Block | Position::Parameter => NOTHING,
        Position::File => match &declarator.shape {
            Shape::Plain => Holder {
                plainly: !fixed,
                with_values: !fixed,
            },
            Shape::Function(_) => {
                let main = match &declarator.name {
                    None => false,
                    Some(name) => name.bytes() == b"main".as_slice(),
                };
                Holder {
                    plainly: !main,
                    with_values: false,
                }
            }
            Shape::Pointer(_, _) => Holder {
                plainly: !fixed,
                with_values: false,
            },
            Shape::Array(_) | Shape::PointerArray(_, _, _) => NOTHING,
        },
    }
}

// What attributes may stand among the specifiers of a declarator.
fn holder_behind(position: Position, fixed: bool, declarator: &Declarator) -> Holder
    ensures { result ≡ holder_behind position fixed declarator.now }
{
    holder_of(position, is_constant(fixed, &declarator.shape), declarator)
}

fn both_hold(g: Holder, h: Holder) -> Holder
    ensures { result ≡ both_hold g h }
{
    Holder {
        plainly: g.plainly && h.plainly,
        with_values: g.with_values && h.with_values,
    }
}

/// What attributes may stand among the specifiers of some declarators.
pub fn holder_of_all(position: Position, fixed: bool, declarators: &[Declarator]) -> Holder
    ensures { result ≡ holder_of_all position fixed declarators.now }
{
    match declarators {
        [] => NOTHING,
        [first, rest @ ..] => {
            let mut all = holder_behind(position, fixed, first);
            for declarator in rest {
                all = both_hold(all, holder_behind(position, fixed, declarator));
            }
            all
        }
    }
}

fn holds(holder: Holder, attribute: &Attribute) -> bool
    ensures { result ≡ holds holder attribute.now }
{
    match &attribute.values {
        Some(_) => holder.with_values,
        None => holder.plainly,
    }
}

#[tactic(auto, unfolding(crate::specs::Attributes::held))]
fn held(
    place: Place,
    holder: Holder,
    before: Option<Attribute>,
    attribute: Attribute,
) -> Result<Option<Attribute>, RuleError>
    ensures { IsJudged (held place holder before attribute) result }
{
    if before.is_some() || !holds(holder, &attribute) {
        return Err(RuleError::Rule(place, rules::ATTRIBUTES));
    }
    Ok(Some(attribute))
}

// The type of the switches that an attribute with values makes.
fn switch_kind(holder: Holder, kind: Option<Kind>) -> Option<Kind>
    ensures { result ≡ switch_kind holder kind }
{
    if holder.with_values { kind } else { None }
}

/// The attribute that some attributes are, behind one that may hold already.
pub fn attributes(
    alloc: Global,
    holder: Holder,
    kind: Option<Kind>,
    scope: &Scope,
    marks: &[Mark],
    before: Option<Attribute>,
) -> Result<Option<Attribute>, RuleError>
    ensures { IsJudged (attributes holder kind scope.now marks.now before) result }
{
    let kind = switch_kind(holder, kind);
    let mut now = before;
    for mark in marks {
        let attribute = given_domain(alloc, kind, scope, &mark.values)?;
        now = held(mark.place, holder, now, attribute)?;
    }
    Ok(now)
}
