// Declarations in a block (C11 6.7, 6.8.2).

ghost use Rattle.std.specs.Prelude.{◌≡◌, ◌<◌, ◌^◌, IfOk, OnOk, length};
ghost use Rattle.mv_check_expressions.specs.Judged.{IsJudged};
ghost use Rattle.mv_check_declarations.specs.Turns.{IsBehind};
ghost use Rattle.mv_check_declarations.specs.Locals.{own_scope, rule_of, local_values, object, rule_of_function, by_entity, local, locals_judgement};

use crate::attributes::{NOTHING, Position, attributes};
use crate::declarators::{Entity, designated, is_taken_by};
use crate::enumerators::is_taken;
use crate::initials::{Converted, array_size, check_plain_values, initial_values};
use crate::objects::{Breaches, breaks_extents, is_unconverted, least, scalar, sized};
use crate::specifiers::{Specified, specifiers};
use crate::steps::with_last;
use mv_ast::program::{CType, Expr, Local, Stmt};
use mv_check_expressions::error::RuleError;
use mv_check_expressions::rules;
use mv_check_scope::convert::is_void;
use mv_check_scope::meaning::{Elements, Meaning, Storage, Variable};
use mv_check_scope::scope::Scope;
use mv_num::list::List;
use mv_num::results::both;
use mv_num::text::Text;
use mv_syntax::unit::{Declarator, Initial, Specs};
use std::alloc::{AllocError, Global};

// Declares the name of a local, which is the next one, unless the name is declared in this scope already.
#[tactic(auto, unfolding(crate::specs::Locals::own_scope))]
fn declare_name(
    alloc: Global,
    scope: &mut Scope,
    name: &Option<Text>,
    local: Local,
    meaning: Meaning,
) -> Result<(), AllocError>
    requires { length scope.old.locals < 2 ^ 32 }
    ensures { OnOk result (scope.new ≡ own_scope scope.old name.now local meaning) }
{
    match name {
        None => Ok(()),
        Some(name) => {
            if is_taken(scope, name.bytes()) {
                return Ok(());
            }
            let _ = scope.add_local(local)?;
            scope.declare(alloc, name.bytes(), meaning)
        }
    }
}

// The least rule that an object in a block breaks.
fn rule_of(
    name: &Option<Text>,
    taken: bool,
    local: Local,
    initial: &Option<Initial>,
    converted: &Converted,
) -> Option<u8>
    ensures { result ≡ rule_of name.now taken local initial.now converted.now }
{
    match name {
        None => Some(rules::DECLARATIONS),
        Some(_) => least(Breaches {
            redeclared: taken,
            unconverted: is_unconverted(local, initial, converted.all),
            void: is_void(local.ctype),
            extents: breaks_extents(false, local, initial, converted.values.len()),
            block: false,
        }),
    }
}

// The values of a local, which are judged before its declarator.
fn local_values(
    alloc: Global,
    declarator: &Declarator,
    taken: bool,
    local: Local,
    scope: &Scope,
) -> Result<List<Expr>, RuleError>
    ensures { IsJudged (local_values declarator.now taken local scope.now) result }
{
    let initial = &declarator.initial;
    let converted = initial_values(alloc, local.ctype, initial, scope)?;
    match rule_of(&declarator.name, taken, local, initial, &converted) {
        None => Ok(converted.values),
        Some(rule) => {
            drop(converted);
            Err(RuleError::Rule(declarator.place, rule))
        }
    }
}

// An object, which is the local with this number. Its name means it in its own initial value.
fn declare_object(
    alloc: Global,
    scope: &mut Scope,
    declarator: &Declarator,
    number: u32,
    local: Local,
    meaning: Meaning,
) -> Result<Stmt, RuleError>
    requires next { number ≡ length scope.old.locals }
    requires word { number < 2 ^ 32 }
    ensures { IsBehind (object declarator.now local meaning scope.old) result scope.new }
{
    let name = &declarator.name;
    let taken = is_taken_by(scope, name);
    declare_name(alloc, scope, name, local, meaning)?;
    let values = local_values(alloc, declarator, taken, local, scope)?;
    Ok(Stmt::Clear(number, values))
}

// The number of the next local. There is no memory for a 2^32nd.
fn next_number(scope: &Scope) -> Result<u32, AllocError>
    ensures number { IfOk result (λ number. number ≡ length scope.now.locals) }
{
    let number = scope.locals.len();
    if number > 0xFFFF_FFFF {
        Err(AllocError)
    } else {
        Ok(number as u32)
    }
}

#[tactic(auto, unfolding(crate::specs::Locals::rule_of_function))]
fn rule_of_function(scope: &Scope, name: &Option<Text>) -> u8
    ensures { result ≡ rule_of_function scope.now name.now }
{
    if is_taken_by(scope, name) {
        rules::REDECLARATIONS
    } else {
        rules::DECLARATIONS
    }
}

// Declares what a declarator designates: an arm for each entity.
fn by_entity(
    alloc: Global,
    scope: &mut Scope,
    declarator: &Declarator,
    entity: Entity,
) -> Result<Stmt, RuleError>
    ensures { IsBehind (by_entity declarator.now entity scope.old) result scope.new }
{
    let initial = &declarator.initial;
    match entity {
        Entity::Function(_) => {
            check_plain_values(alloc, initial, scope)?;
            let rule = rule_of_function(scope, &declarator.name);
            Err(RuleError::Rule(declarator.place, rule))
        }
        Entity::Scalar(ctype, fixed) => {
            let number = next_number(scope)?;
            let object = Variable {
                storage: Storage::Local(number),
                ctype,
                fixed,
                switch: None,
            };
            declare_object(
                alloc,
                scope,
                declarator,
                number,
                scalar(ctype),
                Meaning::Object(object),
            )
        }
        Entity::Array(ctype, fixed, size) => {
            let number = next_number(scope)?;
            let local = sized(ctype, array_size(size, initial)?);
            let elements = Elements {
                storage: Storage::Local(number),
                ctype,
                fixed,
            };
            declare_object(
                alloc,
                scope,
                declarator,
                number,
                local,
                Meaning::Array(elements),
            )
        }
    }
}

// A declarator in a block.
fn local(
    alloc: Global,
    scope: &mut Scope,
    ctype: CType,
    fixed: bool,
    declarator: &Declarator,
) -> Result<Stmt, RuleError>
    ensures { IsBehind (local ctype fixed declarator.now scope.old) result scope.new }
{
    let entity = designated(alloc, scope, ctype, fixed, &declarator.shape)?;
    let _ = attributes(
        alloc,
        NOTHING,
        None,
        scope,
        declarator.marks.as_slice(),
        None,
    )?;
    by_entity(alloc, scope, declarator, entity)
}

/// A declaration in a block: the statements that clear its locals and give them their values.
pub fn declare_locals(
    alloc: Global,
    scope: &mut Scope,
    specs: &Specs,
    names: &List<Declarator>,
) -> Result<List<Stmt>, RuleError>
    ensures { IsBehind (locals_judgement scope.old specs.now names.now) result scope.new }
{
    let Specified {
        ctype,
        fixed,
        enumeration: _,
        attribute: _,
    } = specifiers(alloc, scope, Position::Block, names.as_slice(), specs)?;
    let mut done = List::new(alloc);
    for name in names.as_slice() {
        let (before, stmt) = both(done, local(alloc, scope, ctype, fixed, name))?;
        done = with_last(before, stmt)?;
    }
    Ok(done)
}
