// The lowering of statements.
ghost use Rattle.std.specs.Prelude.{◌≡◌, ◌+◌, ◌*◌, ◌<◌, ◌^◌, IfOk};
ghost use Rattle.mv_lower.specs.Switches.{arms_of};
ghost use Rattle.mv_lower.specs.Statements.{seen_code, seen_jumps, stmt_at, stmts_at, return_at, stmt_size, stmts_size, arms_size, used};
ghost use Rattle.mv_lower_expressions.specs.Expressions.{optional_size};

use crate::code::{
    Code, Jumps, choose, do_loop, end, express, for_loop, go_on, in_body, leave, return_value,
    while_loop,
};
use crate::declaration::{declare, size_of};
use crate::switch::{arm_code, in_arm, switch, tests};
use mv_ast::program::{Arm, Expr, Function, Stmt};
use mv_ir::stm::Stm;
use mv_lower_expressions::expression::{lower_each, lower_expr, lower_optional};
use mv_num::list::List;
use mv_source_forms::names::any_names;
use std::alloc::{AllocError, Global};

/// Statements in order, of a function (C11 6.8), in a program with these pointer switches.
#[cycle(statement)]
#[tactic(auto, using(crate::proofs::Sequences::sequences))]
pub fn lower_stmts(
    alloc: Global,
    pointers: &[u32],
    function: &Function,
    body: &List<Stmt>,
    jumps: Jumps,
) -> Result<Code, AllocError>
    requires { used function.now (seen_jumps jumps) + 2 * stmts_size body.now < 2 ^ 32 }
    ensures { IfOk result (λ c. seen_code c ≡ stmts_at pointers.now function.now body.now (seen_jumps jumps)) }
{
    let mut code = List::new(alloc);
    let mut top = function.locals.len() as u32;
    for s in body.as_slice() {
        let part = lower_stmt(alloc, pointers, function, s, jumps)?;
        code.append(part.code)?;
        top = top.max(part.top);
    }
    Ok(Code { code, top })
}

// What a statement is lowered to: an arm for each form.
#[cycle(statement)]
#[tactic(auto, using(crate::proofs::StatementForms::forms))]
fn lower_stmt(
    alloc: Global,
    pointers: &[u32],
    function: &Function,
    s: &Stmt,
    jumps: Jumps,
) -> Result<Code, AllocError>
    requires { used function.now (seen_jumps jumps) + 2 * stmt_size s.now < 2 ^ 32 }
    ensures { IfOk result (λ c. seen_code c ≡ stmt_at pointers.now function.now s.now (seen_jumps jumps)) }
{
    let n = function.locals.len() as u32;
    match s {
        Stmt::Block(body) => Ok(lower_stmts(alloc, pointers, function, body, jumps)?),
        Stmt::Clear(l, values) => {
            let given = lower_each(alloc, pointers, values, n)?;
            let size = size_of(&function.locals, *l);
            Ok(declare(alloc, size, *l, any_names(values, *l), given, n)?)
        }
        Stmt::Express(e) => Ok(express(lower_expr(alloc, pointers, e, n)?)),
        Stmt::If(e, a, b) => {
            let test = lower_expr(alloc, pointers, e, n)?;
            let a = lower_stmts(alloc, pointers, function, a, jumps)?;
            let b = lower_stmts(alloc, pointers, function, b, jumps)?;
            Ok(choose(test, a, b)?)
        }
        Stmt::While(e, body) => {
            let test = lower_expr(alloc, pointers, e, n)?;
            let body = lower_stmts(alloc, pointers, function, body, in_body(jumps))?;
            Ok(while_loop(alloc, test, body)?)
        }
        Stmt::Do(body, e) => {
            let body = lower_stmts(alloc, pointers, function, body, in_body(jumps))?;
            let test = lower_expr(alloc, pointers, e, n)?;
            Ok(do_loop(alloc, body, test)?)
        }
        Stmt::For(first, test, step, body) => {
            let first = lower_stmts(alloc, pointers, function, first, jumps)?;
            let test = lower_optional(alloc, pointers, 1, test, n)?;
            let step = lower_optional(alloc, pointers, 0, step, n)?;
            let body = lower_stmts(alloc, pointers, function, body, in_body(jumps))?;
            Ok(for_loop(alloc, first, test, step, body)?)
        }
        Stmt::Switch(e, arms) => {
            let value = lower_expr(alloc, pointers, e, n)?;
            let tests = tests(alloc, arms, n)?;
            let arms = lower_arms(alloc, pointers, function, arms, jumps)?;
            Ok(switch(alloc, value, tests, arms, n)?)
        }
        Stmt::Break => Ok(leave(alloc, jumps, n)?),
        Stmt::Continue => Ok(go_on(alloc, jumps, n)?),
        Stmt::Return(e) => Ok(lower_return(alloc, pointers, e, jumps, n)?),
    }
}

// `return` with or without a value.
fn lower_return(
    alloc: Global,
    pointers: &[u32],
    e: &Option<Expr>,
    jumps: Jumps,
    n: u32,
) -> Result<Code, AllocError>
    requires { n + 1 + optional_size e.now < 2 ^ 32 }
    ensures { IfOk result (λ c. seen_code c ≡ return_at pointers.now e.now (seen_jumps jumps) n) }
{
    match e {
        None => Ok(end(alloc, jumps, n)?),
        Some(e) => {
            let value = lower_expr(alloc, pointers, e, n)?;
            Ok(return_value(value)?)
        }
    }
}

// The arms of a `switch`, one behind the other.
#[cycle(statement)]
fn lower_arms(
    alloc: Global,
    pointers: &[u32],
    function: &Function,
    arms: &List<Arm>,
    jumps: Jumps,
) -> Result<Code, AllocError>
    requires { used function.now (seen_jumps jumps) + 2 * arms_size arms.now < 2 ^ 32 }
    ensures { IfOk result (λ c. seen_code c ≡ arms_of pointers.now function.now arms.now (seen_jumps jumps)) }
{
    let n = function.locals.len() as u32;
    let inside = in_arm(jumps);
    let mut code = List::new(alloc);
    let mut top = n;
    let mut place = 0;
    for arm in arms.as_slice() {
        let body = lower_stmts(alloc, pointers, function, &arm.body, inside)?;
        code.append(arm_code(alloc, n, place, body.code)?)?;
        top = top.max(body.top);
        place += 1;
    }
    Ok(Code { code, top })
}
