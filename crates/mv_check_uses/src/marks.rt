// Sets the flags of the globals that trees name, in one walk over them.
ghost use Rattle.std.specs.Prelude.{◌≡◌};
ghost use Rattle.mv_check_uses.specs.Uses.{expr_globals, stmt_globals};
ghost use Rattle.mv_check_uses.specs.Flags.{form_globals, target_globals, exprs_globals, optional_globals, stmts_globals, arms_globals};
ghost use Rattle.mv_ast.specs.Flags.{flagged};

use crate::flags::set;
use mv_ast::program::{Arm, Expr, Form, Stmt, Target};
use mv_num::list::List;

#[cycle(expressions)]
#[tactic(auto, using(crate::proofs::Forms::expressions))]
fn mark_expr(e: &Expr, flags: &mut Vec<bool>)
    ensures { flags.new.items ≡ flagged (expr_globals e.now) flags.old.items }
{
    mark_form(&e.what, flags);
}

#[cycle(expressions)]
#[tactic(auto, using(crate::proofs::Forms::pushes))]
fn mark_exprs(es: &List<Expr>, flags: &mut Vec<bool>)
    ensures { flags.new.items ≡ flagged (exprs_globals es.now) flags.old.items }
{
    for e in es.as_slice() {
        mark_expr(e, flags);
    }
}

#[cycle(expressions)]
#[tactic(auto, using(crate::proofs::Forms::targets))]
fn mark_target(target: &Target, flags: &mut Vec<bool>)
    ensures { flags.new.items ≡ flagged (target_globals target.now) flags.old.items }
{
    match target {
        Target::Global(g) => set(flags, *g),
        Target::Local(_) => {}
        Target::GlobalAt(g, index) => {
            set(flags, *g);
            mark_expr(index.get(), flags);
        }
        Target::LocalAt(_, index) => mark_expr(index.get(), flags),
    }
}

#[cycle(expressions)]
#[tactic(auto, using(crate::proofs::Forms::forms))]
fn mark_form(form: &Form, flags: &mut Vec<bool>)
    ensures { flags.new.items ≡ flagged (form_globals form.now) flags.old.items }
{
    match form {
        Form::Number(_) => {}
        Form::Read(target) => mark_target(target, flags),
        Form::Function(_) => {}
        Form::Unary(_, a) => mark_expr(a.get(), flags),
        Form::Binary(_, a, b) => {
            mark_expr(a.get(), flags);
            mark_expr(b.get(), flags);
        }
        Form::Both(a, b) => {
            mark_expr(a.get(), flags);
            mark_expr(b.get(), flags);
        }
        Form::Either(a, b) => {
            mark_expr(a.get(), flags);
            mark_expr(b.get(), flags);
        }
        Form::Choose(test, a, b) => {
            mark_expr(test.get(), flags);
            mark_expr(a.get(), flags);
            mark_expr(b.get(), flags);
        }
        Form::Convert(a) => mark_expr(a.get(), flags),
        Form::Set(target, a) => {
            mark_target(target, flags);
            mark_expr(a.get(), flags);
        }
        Form::Change(_, _, target, a) => {
            mark_target(target, flags);
            mark_expr(a.get(), flags);
        }
        Form::After(_, target) => mark_target(target, flags),
        Form::Direct(_, args) => mark_exprs(args, flags),
        Form::Through(args, callee) => {
            mark_exprs(args, flags);
            mark_expr(callee.get(), flags);
        }
        Form::Known(_, args) => mark_exprs(args, flags),
    }
}

#[tactic(auto, using(crate::proofs::Forms::optionals))]
fn mark_optional(e: &Option<Expr>, flags: &mut Vec<bool>)
    ensures { flags.new.items ≡ flagged (optional_globals e.now) flags.old.items }
{
    match e {
        Some(e) => mark_expr(e, flags),
        None => {}
    }
}

/// Marks what some statements name.
#[cycle(statements)]
#[tactic(auto, using(crate::proofs::Statements::pushes))]
pub fn mark_stmts(body: &List<Stmt>, flags: &mut Vec<bool>)
    ensures { flags.new.items ≡ flagged (stmts_globals body.now) flags.old.items }
{
    for s in body.as_slice() {
        mark_stmt(s, flags);
    }
}

#[cycle(statements)]
#[tactic(auto, using(crate::proofs::Statements::arm_pushes))]
fn mark_arms(arms: &List<Arm>, flags: &mut Vec<bool>)
    ensures { flags.new.items ≡ flagged (arms_globals arms.now) flags.old.items }
{
    for arm in arms.as_slice() {
        mark_stmts(&arm.body, flags);
    }
}

#[cycle(statements)]
#[tactic(auto, using(crate::proofs::Statements::statements))]
fn mark_stmt(s: &Stmt, flags: &mut Vec<bool>)
    ensures { flags.new.items ≡ flagged (stmt_globals s.now) flags.old.items }
{
    match s {
        Stmt::Block(body) => mark_stmts(body, flags),
        Stmt::Clear(_, values) => mark_exprs(values, flags),
        Stmt::Express(e) => mark_expr(e, flags),
        Stmt::If(test, a, b) => {
            mark_expr(test, flags);
            mark_stmts(a, flags);
            mark_stmts(b, flags);
        }
        Stmt::While(test, body) => {
            mark_expr(test, flags);
            mark_stmts(body, flags);
        }
        Stmt::Do(body, test) => {
            mark_expr(test, flags);
            mark_stmts(body, flags);
        }
        Stmt::For(first, test, step, body) => {
            mark_optional(test, flags);
            mark_optional(step, flags);
            mark_stmts(first, flags);
            mark_stmts(body, flags);
        }
        Stmt::Switch(e, arms) => {
            mark_expr(e, flags);
            mark_arms(arms, flags);
        }
        Stmt::Break => {}
        Stmt::Continue => {}
        Stmt::Return(e) => mark_optional(e, flags),
    }
}
