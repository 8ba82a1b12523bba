// The statements of a function's body (C11 6.8). The functions of the cycle go down the tree of its lines.

ghost use Rattle.std.specs.Prelude.{◌≡◌, [], map, Some, None};
ghost use Rattle.std.specs.Option.{option_map};
ghost use Rattle.mv_ast.specs.declared.program.Stmt.TheVariants as stmt;
ghost use Rattle.mv_check_scope.specs.Scoped.{block_entered, block_left};
ghost use Rattle.mv_check_expressions.specs.Judged.{Good, and_then};
ghost use Rattle.mv_check_declarations.specs.Turns.{IsBehind, next_part};
ghost use Rattle.mv_check_statements.specs.Surroundings.{in_loop};
ghost use Rattle.mv_check_statements.specs.SwitchBodies.{no_arms, with_statement};
ghost use Rattle.mv_check_statements.specs.Statements.{judges_of, lines_in_turn, arms_in_turn, alone, otherwise, first_clause, block_judgement, while_judgement, do_judgement, for_judgement, switch_judgement, body_judgement};

use crate::arms::Arms;
use crate::around::Around;
use crate::forms::{
    break_statement, case, continue_statement, declaration, default, expression_statement,
    misplaced_case, misplaced_declaration, optional_effect, optional_value, return_statement,
    switched,
};
use mv_ast::program::{CType, Expr, Stmt};
use mv_check_declarations::steps::with_last;
use mv_check_expressions::error::RuleError;
use mv_check_expressions::judge::value;
use mv_check_expressions::rules;
use mv_check_scope::convert::promotion;
use mv_check_scope::scope::Scope;
use mv_num::boxed::Boxed;
use mv_num::list::List;
use mv_num::results::both;
use mv_syntax::place::Place;
use mv_syntax::unit::{Act, Line, Node};
use std::alloc::Global;

/// The statements of a function's body, by the type of the function's result, in a scope that has its parameters. The scope behind it has
/// the locals that the body declares, each once.
///
/// The error is the first place at which a rule is broken, with the least rule that is broken there; or that memory ran out.
pub fn check_body(
    alloc: Global,
    scope: &mut Scope,
    returns: CType,
    body: &Line,
) -> Result<List<Stmt>, RuleError>
    ensures { IsBehind (body_judgement returns body.now scope.old) result scope.new }
{
    let around = Around::in_function(returns);
    match &body.what {
        Act::Block(items) => lines(alloc, scope, around, items.as_slice()),
        _ => line(alloc, scope, around, body, List::new(alloc)),
    }
}

// A statement by itself, as the body of an `if` or a loop.
#[cycle(statement)]
fn statement(
    alloc: Global,
    scope: &mut Scope,
    around: Around,
    line: &Line,
) -> Result<Stmt, RuleError>
    ensures { IsBehind ((judges_of line.now).statement around scope.old) result scope.new }
{
    let place = line.place;
    match &line.what {
        Act::Block(items) => block(alloc, scope, around, items.as_slice()),
        Act::Declare(specs, names) => misplaced_declaration(alloc, scope, place, specs, names),
        Act::Express(e) => expression_statement(alloc, scope, e),
        Act::If(test, first, second) => {
            let test = value(alloc, scope, test)?;
            let (test, first) = both(test, alone(alloc, scope, around, first.get()))?;
            if_statement(alloc, scope, around, second, test, first)
        }
        Act::While(test, body) => while_statement(alloc, scope, around, body.get(), test),
        Act::Do(body, test) => do_statement(alloc, scope, around, body.get(), test),
        Act::For(first, test, step, body) => {
            scope.enter()?;
            let first = first_clause(alloc, scope, around, first)?;
            for_statement(alloc, scope, around, body.get(), first, test, step)
        }
        Act::Switch(tested, body) => {
            switch_statement(alloc, scope, around, body.get(), place, tested)
        }
        Act::Case(constant) => misplaced_case(alloc, scope, place, constant),
        Act::Default => Err(RuleError::Rule(place, rules::LABELS)),
        Act::Break => break_statement(place, around, scope),
        Act::Continue => continue_statement(place, around, scope),
        Act::Return(e) => return_statement(alloc, scope, place, around.returns, e),
    }
}

// A statement as a list.
#[cycle(statement)]
fn alone(
    alloc: Global,
    scope: &mut Scope,
    around: Around,
    line: &Line,
) -> Result<List<Stmt>, RuleError>
    ensures { IsBehind (alone (judges_of line.now) around scope.old) result scope.new }
{
    let stmt = statement(alloc, scope, around, line)?;
    let body = with_last(List::new(alloc), stmt)?;
    Ok(body)
}

#[cycle(statement)]
fn block(
    alloc: Global,
    scope: &mut Scope,
    around: Around,
    items: &[Line],
) -> Result<Stmt, RuleError>
    ensures { IsBehind (block_judgement (map judges_of items.now) around scope.old) result scope.new }
{
    scope.enter()?;
    let body = lines(alloc, scope, around, items)?;
    scope.leave();
    Ok(Stmt::Block(body))
}

// An `if`, from its condition and its first statement.
#[cycle(statement)]
fn if_statement(
    alloc: Global,
    scope: &mut Scope,
    around: Around,
    second: &Option<Boxed<Line>>,
    test: Expr,
    first: List<Stmt>,
) -> Result<Stmt, RuleError>
    ensures { IsBehind (and_then (otherwise (option_map judges_of second.now) around scope.old) (λ z. Good (z.0, stmt.If test first z.1))) result scope.new }
{
    let ((test, first), second) = both((test, first), otherwise(alloc, scope, around, second))?;
    Ok(Stmt::If(test, first, second))
}

// What stands behind `else`, if anything.
#[cycle(statement)]
fn otherwise(
    alloc: Global,
    scope: &mut Scope,
    around: Around,
    second: &Option<Boxed<Line>>,
) -> Result<List<Stmt>, RuleError>
    ensures { IsBehind (otherwise (option_map judges_of second.now) around scope.old) result scope.new }
{
    match second {
        None => Ok(List::new(alloc)),
        Some(second) => alone(alloc, scope, around, second.get()),
    }
}

#[cycle(statement)]
fn while_statement(
    alloc: Global,
    scope: &mut Scope,
    around: Around,
    body: &Line,
    test: &Node,
) -> Result<Stmt, RuleError>
    ensures { IsBehind (while_judgement test.now (judges_of body.now) around scope.old) result scope.new }
{
    let test = value(alloc, scope, test)?;
    let (test, body) = both(test, alone(alloc, scope, around.in_loop(), body))?;
    Ok(Stmt::While(test, body))
}

#[cycle(statement)]
fn do_statement(
    alloc: Global,
    scope: &mut Scope,
    around: Around,
    body: &Line,
    test: &Node,
) -> Result<Stmt, RuleError>
    ensures { IsBehind (do_judgement (judges_of body.now) test.now around scope.old) result scope.new }
{
    let body = alone(alloc, scope, around.in_loop(), body)?;
    let (body, test) = both(body, value(alloc, scope, test))?;
    Ok(Stmt::Do(body, test))
}

// The first clause of a `for`.
#[cycle(statement)]
fn first_clause(
    alloc: Global,
    scope: &mut Scope,
    around: Around,
    first: &Option<Boxed<Line>>,
) -> Result<List<Stmt>, RuleError>
    ensures { IsBehind (first_clause (option_map judges_of first.now) around scope.old) result scope.new }
{
    match first {
        None => Ok(List::new(alloc)),
        Some(first) => line(alloc, scope, around, first.get(), List::new(alloc)),
    }
}

// A `for` behind its first clause, in the scope that it leaves.
#[cycle(statement)]
fn for_statement(
    alloc: Global,
    scope: &mut Scope,
    around: Around,
    body: &Line,
    first: List<Stmt>,
    test: &Option<Node>,
    step: &Option<Node>,
) -> Result<Stmt, RuleError>
    ensures { IsBehind (for_judgement test.now step.now (judges_of body.now) around (scope.old, first)) result scope.new }
{
    let (first, test) = both(first, optional_value(alloc, scope, test))?;
    let ((first, test), step) = both((first, test), optional_effect(alloc, scope, step))?;
    for_body(alloc, scope, around, body, first, test, step)
}

// A `for` behind its clauses.
#[cycle(statement)]
fn for_body(
    alloc: Global,
    scope: &mut Scope,
    around: Around,
    body: &Line,
    first: List<Stmt>,
    test: Option<Expr>,
    step: Option<Expr>,
) -> Result<Stmt, RuleError>
    ensures { IsBehind (and_then (alone (judges_of body.now) (in_loop around) scope.old) (λ d. Good (block_left d.0, stmt.For first test step d.1))) result scope.new }
{
    let clauses = (first, test, step);
    let ((first, test, step), body) = both(clauses, alone(alloc, scope, around.in_loop(), body))?;
    scope.leave();
    Ok(Stmt::For(first, test, step, body))
}

#[cycle(statement)]
fn switch_statement(
    alloc: Global,
    scope: &mut Scope,
    around: Around,
    body: &Line,
    place: Place,
    tested: &Node,
) -> Result<Stmt, RuleError>
    ensures { IsBehind (switch_judgement place tested.now (judges_of body.now) around scope.old) result scope.new }
{
    let tested = value(alloc, scope, tested)?;
    let promoted = promotion(tested.ctype);
    let around = around.in_switch();
    let (tested, arms) = both(tested, switch_body(alloc, scope, around, body, promoted))?;
    let stmt = switched(alloc, place, tested, arms)?;
    Ok(stmt)
}

// The body of a `switch` on a value of a type after promotion: its arms, if it is a block.
#[cycle(statement)]
fn switch_body(
    alloc: Global,
    scope: &mut Scope,
    around: Around,
    body: &Line,
    tested: CType,
) -> Result<Option<Arms>, RuleError>
    ensures { IsBehind ((judges_of body.now).switch_body tested around scope.old) result scope.new }
{
    match &body.what {
        Act::Block(items) => switch_block(alloc, scope, around, items.as_slice(), tested),
        _ => no_switch_block(alloc, scope, around, body),
    }
}

// The block of a `switch`.
#[cycle(statement)]
fn switch_block(
    alloc: Global,
    scope: &mut Scope,
    around: Around,
    items: &[Line],
    tested: CType,
) -> Result<Option<Arms>, RuleError>
    ensures { IsBehind (and_then (arms_in_turn (map judges_of items.now) tested around (block_entered scope.old, no_arms)) (λ d. Good (block_left d.0, Some d.1))) result scope.new }
{
    scope.enter()?;
    let arms = arms(alloc, scope, around, items, tested)?;
    scope.leave();
    Ok(Some(arms))
}

// A body of a `switch` that is no block. It is judged first.
#[cycle(statement)]
fn no_switch_block(
    alloc: Global,
    scope: &mut Scope,
    around: Around,
    body: &Line,
) -> Result<Option<Arms>, RuleError>
    ensures { IsBehind (and_then ((judges_of body.now).statement around scope.old) (λ d. Good (d.0, None))) result scope.new }
{
    drop(alone(alloc, scope, around, body)?);
    Ok(None)
}

// The lines of a block in their order.
#[cycle(statement)]
fn lines(
    alloc: Global,
    scope: &mut Scope,
    around: Around,
    items: &[Line],
) -> Result<List<Stmt>, RuleError>
    ensures { IsBehind (lines_in_turn (map judges_of items.now) around (scope.old, [])) result scope.new }
{
    let mut done = List::new(alloc);
    for item in items {
        done = line(alloc, scope, around, item, done)?;
    }
    Ok(done)
}

// A statement or a declaration, behind some statements.
#[cycle(statement)]
fn line(
    alloc: Global,
    scope: &mut Scope,
    around: Around,
    item: &Line,
    done: List<Stmt>,
) -> Result<List<Stmt>, RuleError>
    ensures { IsBehind ((judges_of item.now).line around (scope.old, done)) result scope.new }
{
    match &item.what {
        Act::Declare(specs, names) => declaration(alloc, scope, specs, names, done),
        _ => one_more(alloc, scope, around, item, done),
    }
}

// A statement behind others.
#[cycle(statement)]
fn one_more(
    alloc: Global,
    scope: &mut Scope,
    around: Around,
    item: &Line,
    done: List<Stmt>,
) -> Result<List<Stmt>, RuleError>
    ensures { IsBehind (next_part ((judges_of item.now).statement around) (scope.old, done)) result scope.new }
{
    let (done, stmt) = both(done, statement(alloc, scope, around, item))?;
    let done = with_last(done, stmt)?;
    Ok(done)
}

// The lines of a `switch`'s block in their order.
#[cycle(statement)]
fn arms(
    alloc: Global,
    scope: &mut Scope,
    around: Around,
    items: &[Line],
    tested: CType,
) -> Result<Arms, RuleError>
    ensures { IsBehind (arms_in_turn (map judges_of items.now) tested around (scope.old, no_arms)) result scope.new }
{
    let mut arms = Arms::new(alloc);
    for item in items {
        arms = arm(alloc, scope, around, item, tested, arms)?;
    }
    Ok(arms)
}

// A label or a statement, behind some arms.
#[cycle(statement)]
fn arm(
    alloc: Global,
    scope: &mut Scope,
    around: Around,
    item: &Line,
    tested: CType,
    arms: Arms,
) -> Result<Arms, RuleError>
    ensures { IsBehind ((judges_of item.now).arm tested around (scope.old, arms)) result scope.new }
{
    match &item.what {
        Act::Case(constant) => case(alloc, scope, item.place, tested, constant, arms),
        Act::Default => default(alloc, scope, item.place, arms),
        _ => in_last_arm(alloc, scope, around, item, arms),
    }
}

// A statement in the last of some arms.
#[cycle(statement)]
fn in_last_arm(
    alloc: Global,
    scope: &mut Scope,
    around: Around,
    item: &Line,
    arms: Arms,
) -> Result<Arms, RuleError>
    ensures { IsBehind (and_then ((judges_of item.now).statement around scope.old) (λ e. Good (e.0, with_statement e.1 arms))) result scope.new }
{
    let (arms, stmt) = both(arms, statement(alloc, scope, around, item))?;
    let arms = arms.with_statement(stmt)?;
    Ok(arms)
}
