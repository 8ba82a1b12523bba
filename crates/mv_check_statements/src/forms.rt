// The forms of a statement: what a statement is, given what its parts are, and the rules that it breaks.

ghost use Rattle.std.specs.Prelude.{◌≡◌, ◌++◌};
ghost use Rattle.mv_check_expressions.specs.Judged.{IsJudged, Good, and_then};
ghost use Rattle.mv_check_expressions.specs.Judgements.{value_judgement, effect_judgement};
ghost use Rattle.mv_check_expressions.specs.NeededConstants.{constant_judgement};
ghost use Rattle.mv_check_declarations.specs.Locals.{locals_judgement};
ghost use Rattle.mv_check_declarations.specs.Turns.{IsBehind};
ghost use Rattle.mv_check_statements.specs.SwitchBodies.{case_label, default_label};
ghost use Rattle.mv_check_statements.specs.Statements.{misplaced_declaration, misplaced_case, break_judgement, continue_judgement, returned, return_judgement, switched, optional, expression_judgement};

use crate::arms::Arms;
use crate::around::Around;
use mv_ast::program::{CType, Expr, Stmt};
use mv_check_declarations::locals::declare_locals;
use mv_check_expressions::constant::needed;
use mv_check_expressions::error::RuleError;
use mv_check_expressions::judge::{effect, value};
use mv_check_expressions::rules;
use mv_check_scope::constant::converts;
use mv_check_scope::convert::{converted_to, is_integer, is_void, promoted};
use mv_check_scope::scope::Scope;
use mv_num::list::List;
use mv_num::results::both;
use mv_syntax::place::Place;
use mv_syntax::unit::{Declarator, Node, Specs};
use std::alloc::Global;

/// A declaration where none may stand.
pub fn misplaced_declaration(
    alloc: Global,
    scope: &mut Scope,
    place: Place,
    specs: &Specs,
    names: &List<Declarator>,
) -> Result<Stmt, RuleError>
    ensures { IsBehind (misplaced_declaration place specs.now names.now scope.old) result scope.new }
{
    drop(declare_locals(alloc, scope, specs, names)?);
    Err(RuleError::Rule(place, rules::LABELS))
}

/// A `case` outside the block of a `switch`.
pub fn misplaced_case(
    alloc: Global,
    scope: &Scope,
    place: Place,
    constant: &Node,
) -> Result<Stmt, RuleError>
    ensures { IsBehind (misplaced_case place constant.now scope.now) result scope.now }
{
    let _ = needed(alloc, scope, constant)?;
    Err(RuleError::Rule(place, rules::LABELS))
}

/// `break` (C11 6.8.6.3), which must have a loop or a `switch` around it.
pub fn break_statement(place: Place, around: Around, scope: &Scope) -> Result<Stmt, RuleError>
    ensures { IsBehind (break_judgement place around scope.now) result scope.now }
{
    if around.breaks {
        Ok(Stmt::Break)
    } else {
        Err(RuleError::Rule(place, rules::JUMPS))
    }
}

/// `continue` (C11 6.8.6.2), which must have a loop around it.
pub fn continue_statement(place: Place, around: Around, scope: &Scope) -> Result<Stmt, RuleError>
    ensures { IsBehind (continue_judgement place around scope.now) result scope.now }
{
    if around.continues {
        Ok(Stmt::Continue)
    } else {
        Err(RuleError::Rule(place, rules::JUMPS))
    }
}

// A value that is returned.
#[tactic(auto, unfolding(crate::specs::Statements::returned))]
fn returned(alloc: Global, place: Place, to: CType, e: Expr) -> Result<Stmt, RuleError>
    ensures { IsJudged (returned place to e) result }
{
    if is_void(to) {
        drop(e);
        return Err(RuleError::Rule(place, rules::RETURNS));
    }
    if !converts(&e, to) {
        drop(e);
        return Err(RuleError::Rule(place, rules::CONVERSIONS));
    }
    let e = converted_to(alloc, to, e)?;
    Ok(Stmt::Return(Some(e)))
}

/// A `return` from a function with a result of this type.
pub fn return_statement(
    alloc: Global,
    scope: &Scope,
    place: Place,
    returns: CType,
    e: &Option<Node>,
) -> Result<Stmt, RuleError>
    ensures { IsBehind (return_judgement place returns e.now scope.now) result scope.now }
{
    match e {
        None => {
            if is_void(returns) {
                Ok(Stmt::Return(None))
            } else {
                Err(RuleError::Rule(place, rules::RETURNS))
            }
        }
        Some(e) => {
            let e = value(alloc, scope, e)?;
            returned(alloc, place, returns, e)
        }
    }
}

/// A `switch` on a value, with its arms if its body is a block.
#[tactic(auto, unfolding(crate::specs::Statements::switched))]
pub fn switched(
    alloc: Global,
    place: Place,
    tested: Expr,
    arms: Option<Arms>,
) -> Result<Stmt, RuleError>
    ensures { IsJudged (switched place tested arms) result }
{
    if !is_integer(tested.ctype) {
        drop(tested);
        drop(arms);
        return Err(RuleError::Rule(place, rules::OPERANDS));
    }
    let (tested, arms) = both(tested, arms.ok_or(RuleError::Rule(place, rules::LABELS)))?;
    let (tested, arms) = both(tested, arms.into_list())?;
    let (arms, tested) = both(arms, promoted(alloc, tested))?;
    Ok(Stmt::Switch(tested, arms))
}

/// A condition that may be left out.
pub fn optional_value(
    alloc: Global,
    scope: &Scope,
    e: &Option<Node>,
) -> Result<Option<Expr>, RuleError>
    ensures { IsJudged (optional value_judgement scope.now e.now) result }
{
    match e {
        None => Ok(None),
        Some(e) => {
            let e = value(alloc, scope, e)?;
            Ok(Some(e))
        }
    }
}

/// A computation that may be left out.
pub fn optional_effect(
    alloc: Global,
    scope: &Scope,
    e: &Option<Node>,
) -> Result<Option<Expr>, RuleError>
    ensures { IsJudged (optional effect_judgement scope.now e.now) result }
{
    match e {
        None => Ok(None),
        Some(e) => {
            let e = effect(alloc, scope, e)?;
            Ok(Some(e))
        }
    }
}

/// An expression statement, or an empty one.
pub fn expression_statement(
    alloc: Global,
    scope: &Scope,
    e: &Option<Node>,
) -> Result<Stmt, RuleError>
    ensures { IsBehind (expression_judgement e.now scope.now) result scope.now }
{
    match e {
        None => Ok(Stmt::Block(List::new(alloc))),
        Some(e) => {
            let e = effect(alloc, scope, e)?;
            Ok(Stmt::Express(e))
        }
    }
}

/// A declaration behind some statements: the locals that it declares are cleared and get their values.
pub fn declaration(
    alloc: Global,
    scope: &mut Scope,
    specs: &Specs,
    names: &List<Declarator>,
    done: List<Stmt>,
) -> Result<List<Stmt>, RuleError>
    ensures { IsBehind (and_then (locals_judgement scope.old specs.now names.now) (λ e. Good (e.0, done ++ e.1))) result scope.new }
{
    let (mut done, clears) = both(done, declare_locals(alloc, scope, specs, names))?;
    done.append(clears)?;
    Ok(done)
}

/// A `case` in the block of a `switch` on a value of a type after promotion, behind some arms.
pub fn case(
    alloc: Global,
    scope: &Scope,
    place: Place,
    tested: CType,
    constant: &Node,
    arms: Arms,
) -> Result<Arms, RuleError>
    ensures { IsBehind (and_then (constant_judgement scope.now constant.now) (λ c. and_then (case_label place tested c arms) (λ a. Good (scope.now, a)))) result scope.now }
{
    let (arms, constant) = both(arms, needed(alloc, scope, constant))?;
    let arms = arms.case_label(alloc, place, tested, constant)?;
    Ok(arms)
}

/// A `default` in the block of a `switch`, behind some arms.
pub fn default(alloc: Global, scope: &Scope, place: Place, arms: Arms) -> Result<Arms, RuleError>
    ensures { IsBehind (and_then (default_label place arms) (λ a. Good (scope.now, a))) result scope.now }
{
    let arms = arms.default_label(alloc, place)?;
    Ok(arms)
}
