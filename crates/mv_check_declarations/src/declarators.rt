// Declarators and parameters (C11 6.7.6).

ghost use Rattle.std.specs.Prelude.{◌≡◌, [], map};
ghost use Rattle.mv_check_expressions.specs.Judged.{IsJudged, Good};
ghost use Rattle.mv_check_declarations.specs.Turns.{IsBehind};
ghost use Rattle.mv_check_declarations.specs.Declarators.{numbered, function_type, size_of, is_taken_by, new_parameter, designated, parameter, parameter_declarator};

use crate::attributes::{NOTHING, Position, attributes};
use crate::enumerators::is_taken;
use crate::specifiers::{Specified, specifiers};
use mv_ast::program::{CType, Signature};
use mv_check_expressions::constant::{Constant, needed};
use mv_check_expressions::error::RuleError;
use mv_check_expressions::rules;
use mv_check_scope::convert::is_void;
use mv_check_scope::meaning::{Meaning, Storage, Variable};
use mv_check_scope::scope::Scope;
use mv_num::list::List;
use mv_num::text::Text;
use mv_syntax::place::Place;
use mv_syntax::unit::{Declarator, Node, Param, Shape};
use std::alloc::Global;

/// What a declarator designates (C11 6.7.6): a scalar or an array of a type, which may be `const`, with the size where it is written; or
/// a function, by the number of its signature.
#[derive(Clone, Copy, PartialEq, Eq, Debug)]
pub enum Entity {
    Scalar(CType, bool),
    Array(CType, bool, Option<Constant>),
    Function(u32),
}

// The number of a signature. There is no memory for a 2^32nd.
fn number_signature(
    alloc: Global,
    scope: &mut Scope,
    result_type: CType,
    params: List<CType>,
) -> Result<u32, RuleError>
    ensures { IsBehind (Good (numbered result_type params scope.old)) result scope.new }
{
    if scope.signatures.len() > 0xFFFF_FFFF {
        return Err(RuleError::Memory);
    }
    let signature = Signature {
        result: result_type,
        params,
    };
    let number = scope.signatures.number(alloc, signature)?;
    Ok(number)
}

fn size_of(alloc: Global, scope: &Scope, size: &Option<Node>) -> Result<Option<Constant>, RuleError>
    ensures { IsJudged (size_of scope.now size.now) result }
{
    match size {
        None => Ok(None),
        Some(node) => {
            let constant = needed(alloc, scope, node)?;
            Ok(Some(constant))
        }
    }
}

/// Whether the innermost block has a name, if there is one.
pub fn is_taken_by(scope: &Scope, name: &Option<Text>) -> bool
    ensures { result ≡ is_taken_by scope.now name.now }
{
    match name {
        None => false,
        Some(name) => is_taken(scope, name.bytes()),
    }
}

#[tactic(auto, unfolding(crate::specs::Declarators::new_parameter))]
fn new_parameter(
    alloc: Global,
    scope: &mut Scope,
    place: Place,
    name: &Option<Text>,
    entity: Entity,
) -> Result<CType, RuleError>
    ensures { IsBehind (new_parameter place name.now entity scope.old) result scope.new }
{
    if is_taken_by(scope, name) {
        return Err(RuleError::Rule(place, rules::REDECLARATIONS));
    }
    match entity {
        Entity::Array(_, _, _) | Entity::Function(_) => Err(RuleError::Rule(
            place,
            rules::DECLARATIONS,
        )),
        Entity::Scalar(ctype, fixed) => {
            if is_void(ctype) {
                return Err(RuleError::Rule(place, rules::VOID));
            }
            match name {
                None => Ok(ctype),
                Some(name) => {
                    let object = Variable {
                        storage: Storage::Local(0),
                        ctype,
                        fixed,
                        switch: None,
                    };
                    scope.declare(alloc, name.bytes(), Meaning::Object(object))?;
                    Ok(ctype)
                }
            }
        }
    }
}

/// What a declarator designates, by the type of its specifiers and whether `const` is one of them.
#[cycle(shapes)]
pub fn designated(
    alloc: Global,
    scope: &mut Scope,
    ctype: CType,
    fixed: bool,
    shape: &Shape,
) -> Result<Entity, RuleError>
    ensures { IsBehind (designated shape.now ctype fixed scope.old) result scope.new }
{
    match shape {
        Shape::Plain => Ok(Entity::Scalar(ctype, fixed)),
        Shape::Array(size) => {
            let size = size_of(alloc, scope, size)?;
            Ok(Entity::Array(ctype, fixed, size))
        }
        Shape::Function(params) => {
            let number = function_type(alloc, scope, ctype, params.as_slice())?;
            Ok(Entity::Function(number))
        }
        Shape::Pointer(constant, params) => {
            let number = function_type(alloc, scope, ctype, params.as_slice())?;
            Ok(Entity::Scalar(CType::Pointer(number), *constant))
        }
        Shape::PointerArray(constant, size, params) => {
            let size = size_of(alloc, scope, size)?;
            let number = function_type(alloc, scope, ctype, params.as_slice())?;
            Ok(Entity::Array(CType::Pointer(number), *constant, size))
        }
    }
}

#[cycle(shapes)]
fn function_type(
    alloc: Global,
    scope: &mut Scope,
    result_type: CType,
    params: &[Param],
) -> Result<u32, RuleError>
    ensures { IsBehind (function_type result_type (map parameter params.now) scope.old) result scope.new }
{
    scope.enter()?;
    let mut types = List::new(alloc);
    for param in params {
        let ctype = parameter(alloc, scope, param)?;
        types.push(ctype)?;
    }
    scope.leave();
    number_signature(alloc, scope, result_type, types)
}

#[cycle(shapes)]
fn parameter(alloc: Global, scope: &mut Scope, param: &Param) -> Result<CType, RuleError>
    ensures { IsBehind (parameter param.now scope.old) result scope.new }
{
    let base = specifiers(alloc, scope, Position::Parameter, &[], &param.specs)?;
    parameter_declarator(alloc, scope, base, &param.name)
}

#[cycle(shapes)]
fn parameter_declarator(
    alloc: Global,
    scope: &mut Scope,
    base: Specified,
    declarator: &Declarator,
) -> Result<CType, RuleError>
    ensures { IsBehind (parameter_declarator declarator.now base scope.old) result scope.new }
{
    let Specified {
        ctype,
        fixed,
        enumeration: _,
        attribute,
    } = base;
    let entity = designated(alloc, scope, ctype, fixed, &declarator.shape)?;
    let _ = attributes(
        alloc,
        NOTHING,
        None,
        scope,
        declarator.marks.as_slice(),
        attribute,
    )?;
    new_parameter(alloc, scope, declarator.place, &declarator.name, entity)
}
