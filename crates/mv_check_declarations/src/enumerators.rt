// The enumerators of an enum (C11 6.7.2.2).

ghost use Rattle.std.specs.Prelude.{◌≡◌};
ghost use Rattle.mv_check_expressions.specs.Judged.{IsJudged};
ghost use Rattle.mv_check_declarations.specs.Turns.{IsBehind};
ghost use Rattle.mv_check_declarations.specs.Enumerators.{is_taken, given_value, new_enumerator, enumerators};

use crate::constants::{int_of, next_int};
use mv_check_expressions::constant::needed;
use mv_check_expressions::error::RuleError;
use mv_check_expressions::rules;
use mv_check_scope::meaning::Meaning;
use mv_check_scope::scope::Scope;
use mv_num::list::List;
use mv_syntax::place::Place;
use mv_syntax::unit::{Member, Node};
use std::alloc::Global;

/// Whether the innermost block has a name.
pub fn is_taken(scope: &Scope, name: &[u8]) -> bool
    ensures { result ≡ is_taken scope.now name.now }
{
    scope.names.find_here(name).is_some()
}

fn given_value(
    alloc: Global,
    scope: &Scope,
    following: Option<u32>,
    value: &Option<Node>,
) -> Result<Option<u32>, RuleError>
    ensures { IsJudged (given_value scope.now following value.now) result }
{
    match value {
        None => Ok(following),
        Some(node) => {
            let constant = needed(alloc, scope, node)?;
            Ok(int_of(constant))
        }
    }
}

#[tactic(auto, unfolding(crate::specs::Enumerators::new_enumerator))]
fn new_enumerator(
    alloc: Global,
    scope: &mut Scope,
    place: Place,
    name: &[u8],
    value: Option<u32>,
) -> Result<u32, RuleError>
    ensures { IsBehind (new_enumerator place name.now scope.old value) result scope.new }
{
    if is_taken(scope, name) {
        return Err(RuleError::Rule(place, rules::REDECLARATIONS));
    }
    match value {
        None => Err(RuleError::Rule(place, rules::ENUMERATORS)),
        Some(value) => {
            scope.declare(alloc, name, Meaning::Enumerator(value))?;
            Ok(value)
        }
    }
}

/// Declares enumerators, and gives their values.
pub fn enumerators(
    alloc: Global,
    scope: &mut Scope,
    members: &[Member],
) -> Result<List<u32>, RuleError>
    ensures { IsBehind (enumerators members.now scope.old) result scope.new }
{
    let mut values = List::new(alloc);
    let mut following = Some(0);
    for member in members {
        let given = given_value(alloc, scope, following, &member.value)?;
        let value = new_enumerator(alloc, scope, member.place, member.name.bytes(), given)?;
        following = next_int(value);
        values.push(value)?;
    }
    Ok(values)
}
