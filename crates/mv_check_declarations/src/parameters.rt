// The parameters of a defined function (C11 6.9.1).

ghost use Rattle.mv_check_declarations.specs.Turns.{IsLeft};
ghost use Rattle.mv_check_declarations.specs.Parameters.{new_defined, parameter_judgement, parameters_judgement};

use crate::attributes::{NOTHING, Position, attributes};
use crate::declarators::{Entity, designated, is_taken_by};
use crate::specifiers::{Specified, specifiers};
use mv_ast::program::Local;
use mv_check_expressions::error::RuleError;
use mv_check_expressions::rules;
use mv_check_scope::convert::is_void;
use mv_check_scope::meaning::{Meaning, Storage, Variable};
use mv_check_scope::scope::Scope;
use mv_num::list::List;
use mv_num::text::Text;
use mv_syntax::place::Place;
use mv_syntax::unit::Param;
use std::alloc::Global;

// Declares a parameter as the next local. There is no memory for a 2^32nd.
#[tactic(auto, unfolding(crate::specs::Parameters::new_defined))]
fn new_defined(
    alloc: Global,
    scope: &mut Scope,
    place: Place,
    name: &Option<Text>,
    entity: Entity,
) -> Result<(), RuleError>
    ensures { IsLeft (new_defined place name.now entity scope.old) result scope.new }
{
    if is_taken_by(scope, name) {
        return Err(RuleError::Rule(place, rules::REDECLARATIONS));
    }
    match entity {
        Entity::Array(_, _, _) | Entity::Function(_) => Err(RuleError::Rule(
            place,
            rules::DECLARATIONS,
        )),
        Entity::Scalar(ctype, fixed) => {
            if is_void(ctype) {
                return Err(RuleError::Rule(place, rules::VOID));
            }
            match name {
                None => Err(RuleError::Rule(place, rules::DECLARATIONS)),
                Some(name) => {
                    if scope.locals.len() > 0xFFFF_FFFF {
                        return Err(RuleError::Memory);
                    }
                    let number = scope.add_local(Local { ctype, size: None })?;
                    let object = Variable {
                        storage: Storage::Local(number),
                        ctype,
                        fixed,
                        switch: None,
                    };
                    scope.declare(alloc, name.bytes(), Meaning::Object(object))?;
                    Ok(())
                }
            }
        }
    }
}

fn declare_parameter(alloc: Global, scope: &mut Scope, param: &Param) -> Result<(), RuleError>
    ensures { IsLeft (parameter_judgement param.now scope.old) result scope.new }
{
    let base = specifiers(alloc, scope, Position::Parameter, &[], &param.specs)?;
    let Specified {
        ctype,
        fixed,
        enumeration: _,
        attribute,
    } = base;
    let declarator = &param.name;
    let entity = designated(alloc, scope, ctype, fixed, &declarator.shape)?;
    let _ = attributes(
        alloc,
        NOTHING,
        None,
        scope,
        declarator.marks.as_slice(),
        attribute,
    )?;
    new_defined(alloc, scope, declarator.place, &declarator.name, entity)
}

/// Declares the parameters of a function that is defined, in the innermost block, which is that of its body.
pub fn declare_parameters(
    alloc: Global,
    scope: &mut Scope,
    params: &List<Param>,
) -> Result<(), RuleError>
    ensures { IsLeft (parameters_judgement scope.old params.now) result scope.new }
{
    for param in params.as_slice() {
        declare_parameter(alloc, scope, param)?;
    }
    Ok(())
}
