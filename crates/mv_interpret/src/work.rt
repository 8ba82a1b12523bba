// What the work of a commit or a revert is reckoned by: what it can patch.

ghost use Rattle.std.specs.Prelude.{◌≡◌, ◌+◌, ◌*◌, if◌then◌else◌, map, sum, length, slice_get, option_to_list};
ghost use Rattle.mv_ast.specs.Switches.{attributed_functions, switch_domain};
ghost use Rattle.mv_ast.specs.Counts.{expr_calls, target_calls, is_pointer, expr_calling, lvalue_calling, expr_calls_through, expr_sites, stmt_sites, arm_sites, call_sites, assignments, patchable_places, product_of, is_attributed};
ghost use Rattle.mv_meaning.specs.Growth.{capped};

use crate::commits::is_among;
use mv_ast::program::{Arm, Expr, Form, Function, Program, Stmt, Target};
use mv_num::list::List;

// The sum of two counts, which stops at the greatest number.
fn both(a: u64, b: u64) -> u64
    ensures { result ≡ capped (a + b) }
{
    a.saturating_add(b)
}

// Their product, likewise.
fn times(a: u64, b: u64) -> u64
    ensures { result ≡ capped (a * b) }
{
    a.saturating_mul(b)
}

// 1 for the number of an attributed function.
fn own_call(program: &Program, f: u32) -> u64
    ensures { result ≡ (if is_attributed (slice_get program.now.functions f) then 1 else 0) }
{
    match program.functions.get(f as usize) {
        None => 0,
        Some(g) => u64::from(g.attributed),
    }
}

// The direct calls of attributed functions in an expression.
#[cycle(calls)]
fn expr_calls(program: &Program, e: &Expr) -> u64
    ensures { result ≡ capped (expr_calls program.now e.now) }
{
    match &e.what {
        Form::Number(_) => 0,
        Form::Read(target) => target_calls(program, target),
        Form::Function(_) => 0,
        Form::Unary(_, a) => expr_calls(program, a.get()),
        Form::Binary(_, a, b) => both(expr_calls(program, a.get()), expr_calls(program, b.get())),
        Form::Both(a, b) => both(expr_calls(program, a.get()), expr_calls(program, b.get())),
        Form::Either(a, b) => both(expr_calls(program, a.get()), expr_calls(program, b.get())),
        Form::Choose(c, a, b) => both(
            expr_calls(program, c.get()),
            both(expr_calls(program, a.get()), expr_calls(program, b.get())),
        ),
        Form::Convert(a) => expr_calls(program, a.get()),
        Form::Set(target, a) => both(target_calls(program, target), expr_calls(program, a.get())),
        Form::Change(_, _, target, a) => {
            both(target_calls(program, target), expr_calls(program, a.get()))
        }
        Form::After(_, target) => target_calls(program, target),
        Form::Direct(f, args) => both(own_call(program, *f), exprs_calls(program, args)),
        Form::Through(args, callee) => {
            both(
                exprs_calls(program, args),
                expr_calls(program, callee.get()),
            )
        }
        Form::Known(_, args) => exprs_calls(program, args),
    }
}

// The same in an lvalue.
#[cycle(calls)]
fn target_calls(program: &Program, target: &Target) -> u64
    ensures { result ≡ capped (target_calls program.now target.now) }
{
    match target {
        Target::Global(_) => 0,
        Target::Local(_) => 0,
        Target::GlobalAt(_, e) => expr_calls(program, e.get()),
        Target::LocalAt(_, e) => expr_calls(program, e.get()),
    }
}

// The same in some expressions.
#[cycle(calls)]
fn exprs_calls(program: &Program, es: &List<Expr>) -> u64
    ensures { result ≡ capped (sum (map (expr_calls program.now) es.now)) }
{
    let mut all = 0;
    for e in es.as_slice() {
        all = both(all, expr_calls(program, e));
    }
    all
}

// Whether a global is a pointer switch.
fn is_pointer(program: &Program, global: u32) -> bool
    ensures { result ≡ is_pointer program.now global }
{
    is_among(global, program.pointers.as_slice())
}

// The calls through pointer switches in an expression, which is what is called or a value: an arm for each form.
#[cycle(calls_through)]
fn expr_calls_through(program: &Program, e: &Expr, called: bool) -> u64
    ensures { result ≡ capped (expr_calling (is_pointer program.now) e.now called) }
{
    match &e.what {
        Form::Number(_) => 0,
        Form::Read(target) => target_calls_through(program, target, called),
        Form::Function(_) => 0,
        Form::Unary(_, a) => expr_calls_through(program, a.get(), false),
        Form::Binary(_, a, b) => both(
            expr_calls_through(program, a.get(), false),
            expr_calls_through(program, b.get(), false),
        ),
        Form::Both(a, b) => both(
            expr_calls_through(program, a.get(), false),
            expr_calls_through(program, b.get(), false),
        ),
        Form::Either(a, b) => both(
            expr_calls_through(program, a.get(), false),
            expr_calls_through(program, b.get(), false),
        ),
        Form::Choose(c, a, b) => both(
            expr_calls_through(program, c.get(), false),
            both(
                expr_calls_through(program, a.get(), false),
                expr_calls_through(program, b.get(), false),
            ),
        ),
        Form::Convert(a) => expr_calls_through(program, a.get(), false),
        Form::Set(target, a) => both(
            target_calls_through(program, target, false),
            expr_calls_through(program, a.get(), false),
        ),
        Form::Change(_, _, target, a) => both(
            target_calls_through(program, target, false),
            expr_calls_through(program, a.get(), false),
        ),
        Form::After(_, target) => target_calls_through(program, target, false),
        Form::Direct(_, args) => exprs_calls_through(program, args),
        Form::Through(args, callee) => both(
            exprs_calls_through(program, args),
            expr_calls_through(program, callee.get(), true),
        ),
        Form::Known(_, args) => exprs_calls_through(program, args),
    }
}

// The same in an lvalue.
#[cycle(calls_through)]
fn target_calls_through(program: &Program, target: &Target, called: bool) -> u64
    ensures { result ≡ capped (lvalue_calling (is_pointer program.now) target.now called) }
{
    match target {
        Target::Global(g) => u64::from(called && is_pointer(program, *g)),
        Target::Local(_) => 0,
        Target::GlobalAt(_, e) => expr_calls_through(program, e.get(), false),
        Target::LocalAt(_, e) => expr_calls_through(program, e.get(), false),
    }
}

// The same in some expressions, which are values.
#[cycle(calls_through)]
fn exprs_calls_through(program: &Program, es: &List<Expr>) -> u64
    ensures { result ≡ capped (sum (map (expr_calls_through (is_pointer program.now)) es.now)) }
{
    let mut all = 0;
    for e in es.as_slice() {
        all = both(all, expr_calls_through(program, e, false));
    }
    all
}

// The call sites of an expression, of which those of calls through pointer switches count twice.
fn expr_sites(program: &Program, e: &Expr) -> u64
    ensures { result ≡ capped (expr_sites program.now e.now) }
{
    let through = expr_calls_through(program, e, false);
    both(expr_calls(program, e), both(through, through))
}

// The same in some expressions.
fn exprs_sites(program: &Program, es: &List<Expr>) -> u64
    ensures { result ≡ capped (sum (map (expr_sites program.now) es.now)) }
{
    let mut all = 0;
    for e in es.as_slice() {
        all = both(all, expr_sites(program, e));
    }
    all
}

// The same in an expression that may be left out.
fn optional_sites(program: &Program, e: &Option<Expr>) -> u64
    ensures { result ≡ capped (sum (map (expr_sites program.now) (option_to_list e.now))) }
{
    match e {
        None => 0,
        Some(e) => expr_sites(program, e),
    }
}

// The same in a statement.
#[cycle(statement_sites)]
fn stmt_sites(program: &Program, s: &Stmt) -> u64
    ensures { result ≡ capped (stmt_sites program.now s.now) }
{
    match s {
        Stmt::Block(body) => stmts_sites(program, body),
        Stmt::Clear(_, values) => exprs_sites(program, values),
        Stmt::Express(e) => expr_sites(program, e),
        Stmt::If(e, yes_part, no_part) => both(
            expr_sites(program, e),
            both(
                stmts_sites(program, yes_part),
                stmts_sites(program, no_part),
            ),
        ),
        Stmt::While(e, body) => both(expr_sites(program, e), stmts_sites(program, body)),
        Stmt::Do(body, e) => both(expr_sites(program, e), stmts_sites(program, body)),
        Stmt::For(first, test, step, body) => both(
            both(optional_sites(program, test), optional_sites(program, step)),
            both(stmts_sites(program, first), stmts_sites(program, body)),
        ),
        Stmt::Switch(e, arms) => both(expr_sites(program, e), arms_sites(program, arms)),
        Stmt::Break => 0,
        Stmt::Continue => 0,
        Stmt::Return(e) => optional_sites(program, e),
    }
}

// The same in some statements.
#[cycle(statement_sites)]
fn stmts_sites(program: &Program, body: &List<Stmt>) -> u64
    ensures { result ≡ capped (sum (map (stmt_sites program.now) body.now)) }
{
    let mut all = 0;
    for s in body.as_slice() {
        all = both(all, stmt_sites(program, s));
    }
    all
}

// The same in the arms of a `switch`.
#[cycle(statement_sites)]
fn arms_sites(program: &Program, arms: &List<Arm>) -> u64
    ensures { result ≡ capped (sum (map (arm_sites program.now) arms.now)) }
{
    let mut all = 0;
    for arm in arms.as_slice() {
        all = both(all, stmts_sites(program, &arm.body));
    }
    all
}

// The number of the values of a switch's domain.
fn domain_size(program: &Program, switch: u32) -> u64
    ensures { result ≡ length (switch_domain program.now switch) }
{
    match program.switches.get(switch as usize) {
        None => 0,
        Some(s) => s.values.len() as u64,
    }
}

// The number of combinations of the values of some switches.
fn combinations(program: &Program, switches: &[u32]) -> u64
    ensures { result ≡ capped (product_of (map (λ s. length (switch_domain program.now s)) switches.now)) }
{
    let mut all: u64 = 1;
    for s in switches {
        all = times(all, domain_size(program, *s));
    }
    all
}

// The assignments of a function.
fn assignments(program: &Program, g: &Function) -> u64
    ensures { result ≡ capped (assignments program.now g.now) }
{
    if g.attributed {
        combinations(program, g.switches.as_slice())
    } else {
        0
    }
}

// What the calls in a function can patch.
fn patchable_in(program: &Program, g: &Function) -> u64
    ensures { result ≡ capped (call_sites program.now g.now * (1 + assignments program.now g.now)) }
{
    times(
        stmts_sites(program, &g.body),
        both(1, assignments(program, g)),
    )
}

/// The number of attributed functions.
pub fn count_attributed(program: &Program) -> u64
    ensures { result ≡ length (attributed_functions program.now) }
{
    let mut number = 0;
    for f in program.functions.as_slice() {
        if f.attributed {
            number += 1;
        }
    }
    number
}

/// The work of a commit or a revert: one, and one for each word that it may patch.
pub fn plan_work(program: &Program) -> u64
    ensures { result ≡ capped (1 + patchable_places program.now) }
{
    let mut all: u64 = 0;
    for g in program.functions.as_slice() {
        all = both(all, patchable_in(program, g));
    }
    both(1, both(count_attributed(program), both(all, all)))
}
