// The lowering of expressions.
ghost use Rattle.std.specs.Prelude.{◌≡◌, ◌+◌, ◌++◌, ◌∷◌, [], ◌<◌, ◌^◌, IfOk, false, map, length};
ghost use Rattle.mv_source_forms.specs.Names.{is_void};
ghost use Rattle.mv_lower_expressions.specs.Values.{seen, unary_of, converted_of, binary_of, both_of, either_of, choice_of};
ghost use Rattle.mv_num.specs.Lists.{is_among};
ghost use Rattle.mv_lower_expressions.specs.Calls.{direct_of, through_of, called_of, known_of};
ghost use Rattle.mv_lower_expressions.specs.Places.{seen_place, start_of, read_of, set_of, change_of, after_of};
ghost use Rattle.mv_lower_expressions.specs.Expressions.{expr_at, form_at, place_at, exprs_at, each_at, optional_at, switch_of, switch_of_form, switch_of_target, expr_size, form_size, target_size, exprs_size, optional_size};

use crate::call::{direct, is_void, known, switched, through};
use crate::control::{both, choice, either};
use crate::operands::{binary, convert, unary};
use crate::place::{Place, after, alone, change, read, set, start};
use crate::value::Value;
use mv_ast::program::{CType, Expr, Form, Known, Target};
use mv_ir::stm::Array;
use mv_ir::tree::Tree;
use mv_num::boxed::Boxed;
use mv_num::list::List;
use mv_num::results;
use std::alloc::{AllocError, Global};

fn is_among(n: u32, all: &[u32]) -> bool
    ensures { result ≡ is_among n all.now }
{
    for m in all {
        if n == *m {
            return true;
        }
    }
    false
}

// The pointer switch that a place is.
#[tactic(auto, using(crate::proofs::Forms::switched_targets))]
fn switch_of_target(pointers: &[u32], target: &Target) -> Option<u32>
    ensures { result ≡ switch_of_target pointers.now target.now }
{
    match target {
        Target::Global(g) => {
            if is_among(*g, pointers) {
                Some(*g)
            } else {
                None
            }
        }
        Target::Local(_) | Target::GlobalAt(_, _) | Target::LocalAt(_, _) => None,
    }
}

// The pointer switch that a form is the read of.
#[tactic(auto, using(crate::proofs::Forms::switched_forms))]
fn switch_of_form(pointers: &[u32], form: &Form) -> Option<u32>
    ensures { result ≡ switch_of_form pointers.now form.now }
{
    match form {
        Form::Read(target) => switch_of_target(pointers, target),
        Form::Number(_)
        | Form::Function(_)
        | Form::Unary(_, _)
        | Form::Binary(_, _, _)
        | Form::Both(_, _)
        | Form::Either(_, _)
        | Form::Choose(_, _, _)
        | Form::Convert(_)
        | Form::Set(_, _)
        | Form::Change(_, _, _, _)
        | Form::After(_, _)
        | Form::Direct(_, _)
        | Form::Through(_, _)
        | Form::Known(_, _) => None,
    }
}

// The pointer switch that an expression is the read of.
#[tactic(auto, using(crate::proofs::Forms::switched_expressions))]
fn switch_of(pointers: &[u32], e: &Boxed<Expr>) -> Option<u32>
    ensures { result ≡ switch_of pointers.now e.now }
{
    switch_of_form(pointers, &e.get().what)
}

/// An expression from the first free temporary on (C11 6.5). Operands, arguments and indices are evaluated left to right. A call through
/// one of the pointer switches is a call statement of its own.
#[cycle(expression)]
#[tactic(auto, using(crate::proofs::Forms::expressions))]
pub fn lower_expr(alloc: Global, pointers: &[u32], e: &Expr, n: u32) -> Result<Value, AllocError>
    requires { n + 1 + expr_size e.now < 2 ^ 32 }
    ensures { IfOk result (λ v. seen v ≡ expr_at pointers.now e.now n) }
{
    Ok(lower_form(alloc, pointers, &e.what, e.ctype, n)?)
}

#[cycle(expression)]
fn lower_boxed(
    alloc: Global,
    pointers: &[u32],
    e: &Boxed<Expr>,
    n: u32,
) -> Result<Value, AllocError>
    requires { n + 1 + expr_size e.now < 2 ^ 32 }
    ensures { IfOk result (λ v. seen v ≡ expr_at pointers.now e.now n) }
{
    Ok(lower_expr(alloc, pointers, e.get(), n)?)
}

// Expressions, each from one temporary above the one before it.
#[cycle(expression)]
fn lower_exprs(
    alloc: Global,
    pointers: &[u32],
    es: &List<Expr>,
    n: u32,
) -> Result<List<Value>, AllocError>
    requires { n + 2 + exprs_size es.now < 2 ^ 32 }
    ensures { IfOk result (λ vs. map seen vs ≡ exprs_at pointers.now es.now n) }
{
    let mut values = List::new(alloc);
    let mut at = n;
    for e in es.as_slice() {
        values.push(lower_expr(alloc, pointers, e, at)?)?;
        at += 1;
    }
    Ok(values)
}

// Values with one more.
fn with_last(mut values: List<Value>, last: Value) -> Result<List<Value>, AllocError>
    ensures { IfOk result (λ all. all ≡ values ++ last ∷ []) }
{
    values.push(last)?;
    Ok(values)
}

// The same with a callee behind the arguments.
#[cycle(expression)]
fn lower_with_callee(
    alloc: Global,
    pointers: &[u32],
    args: &List<Expr>,
    callee: &Boxed<Expr>,
    n: u32,
) -> Result<List<Value>, AllocError>
    requires { n + 2 + exprs_size args.now + expr_size callee.now < 2 ^ 32 }
    ensures { IfOk result (λ vs. map seen vs ≡ exprs_at pointers.now args.now n ++ expr_at pointers.now callee.now (n + length args.now) ∷ []) }
{
    let values = lower_exprs(alloc, pointers, args, n)?;
    let last = lower_boxed(alloc, pointers, callee, n + args.len() as u32);
    let (values, last) = results::both(values, last)?;
    Ok(with_last(values, last)?)
}

#[cycle(expression)]
#[tactic(auto, using(crate::proofs::Forms::places))]
fn lower_target(
    alloc: Global,
    pointers: &[u32],
    target: &Target,
    n: u32,
) -> Result<Place, AllocError>
    requires { n + 1 + target_size target.now < 2 ^ 32 }
    ensures { IfOk result (λ p. seen_place p ≡ place_at pointers.now target.now n) }
{
    match target {
        Target::Global(g) => Ok(Place::Global(*g)),
        Target::Local(l) => Ok(Place::Local(*l)),
        Target::GlobalAt(g, i) => {
            let i = lower_boxed(alloc, pointers, i, n)?;
            Ok(Place::Element(Array::Global(*g), i))
        }
        Target::LocalAt(l, i) => {
            let i = lower_boxed(alloc, pointers, i, n)?;
            Ok(Place::Element(Array::Local(*l), i))
        }
    }
}

#[cycle(expression)]
fn lower_read(alloc: Global, pointers: &[u32], target: &Target, n: u32) -> Result<Value, AllocError>
    requires { n + 2 + target_size target.now < 2 ^ 32 }
    ensures { IfOk result (λ v. seen v ≡ read_of (place_at pointers.now target.now n) n) }
{
    let place = lower_target(alloc, pointers, target, n)?;
    Ok(read(alloc, place, n)?)
}

#[cycle(expression)]
fn lower_unary(
    alloc: Global,
    pointers: &[u32],
    op: u8,
    a: &Boxed<Expr>,
    n: u32,
) -> Result<Value, AllocError>
    requires { n + 2 + expr_size a.now < 2 ^ 32 }
    ensures { IfOk result (λ v. seen v ≡ unary_of op (expr_at pointers.now a.now n) n) }
{
    let a = lower_boxed(alloc, pointers, a, n)?;
    Ok(unary(alloc, op, a, n)?)
}

#[cycle(expression)]
fn lower_binary(
    alloc: Global,
    pointers: &[u32],
    op: u8,
    a: &Boxed<Expr>,
    b: &Boxed<Expr>,
    n: u32,
) -> Result<Value, AllocError>
    requires { n + 2 + (expr_size a.now + expr_size b.now) < 2 ^ 32 }
    ensures { IfOk result (λ v. seen v ≡ binary_of false op a.now.ctype (expr_at pointers.now a.now n) (expr_at pointers.now b.now (n + 1)) n) }
{
    let x = lower_boxed(alloc, pointers, a, n)?;
    let (x, y) = results::both(x, lower_boxed(alloc, pointers, b, n + 1))?;
    Ok(binary(alloc, false, op, a.get().ctype, x, y, n)?)
}

#[cycle(expression)]
fn lower_both(
    alloc: Global,
    pointers: &[u32],
    a: &Boxed<Expr>,
    b: &Boxed<Expr>,
    n: u32,
) -> Result<Value, AllocError>
    requires { n + 2 + (expr_size a.now + expr_size b.now) < 2 ^ 32 }
    ensures { IfOk result (λ v. seen v ≡ both_of (expr_at pointers.now a.now n) (expr_at pointers.now b.now n) n) }
{
    let a = lower_boxed(alloc, pointers, a, n)?;
    let (a, b) = results::both(a, lower_boxed(alloc, pointers, b, n))?;
    Ok(both(alloc, a, b, n)?)
}

#[cycle(expression)]
fn lower_either(
    alloc: Global,
    pointers: &[u32],
    a: &Boxed<Expr>,
    b: &Boxed<Expr>,
    n: u32,
) -> Result<Value, AllocError>
    requires { n + 2 + (expr_size a.now + expr_size b.now) < 2 ^ 32 }
    ensures { IfOk result (λ v. seen v ≡ either_of (expr_at pointers.now a.now n) (expr_at pointers.now b.now n) n) }
{
    let a = lower_boxed(alloc, pointers, a, n)?;
    let (a, b) = results::both(a, lower_boxed(alloc, pointers, b, n))?;
    Ok(either(alloc, a, b, n)?)
}

#[cycle(expression)]
fn lower_choice(
    alloc: Global,
    pointers: &[u32],
    c: &Boxed<Expr>,
    a: &Boxed<Expr>,
    b: &Boxed<Expr>,
    n: u32,
) -> Result<Value, AllocError>
    requires { n + 2 + (expr_size c.now + (expr_size a.now + expr_size b.now)) < 2 ^ 32 }
    ensures { IfOk result (λ v. seen v ≡ choice_of (expr_at pointers.now c.now n) (expr_at pointers.now a.now n) (expr_at pointers.now b.now n) n) }
{
    let c = lower_boxed(alloc, pointers, c, n)?;
    let (c, a) = results::both(c, lower_boxed(alloc, pointers, a, n))?;
    let ((c, a), b) = results::both((c, a), lower_boxed(alloc, pointers, b, n))?;
    Ok(choice(c, a, b, n)?)
}

#[cycle(expression)]
fn lower_converted(
    alloc: Global,
    pointers: &[u32],
    ctype: CType,
    a: &Boxed<Expr>,
    n: u32,
) -> Result<Value, AllocError>
    requires { n + 2 + expr_size a.now < 2 ^ 32 }
    ensures { IfOk result (λ v. seen v ≡ converted_of ctype (expr_at pointers.now a.now n) n) }
{
    let a = lower_boxed(alloc, pointers, a, n)?;
    Ok(convert(alloc, ctype, a, n)?)
}

#[cycle(expression)]
fn lower_set(
    alloc: Global,
    pointers: &[u32],
    target: &Target,
    a: &Boxed<Expr>,
    n: u32,
) -> Result<Value, AllocError>
    requires { n + 2 + (target_size target.now + expr_size a.now) < 2 ^ 32 }
    ensures { IfOk result (λ v. seen v ≡ set_of (place_at pointers.now target.now n) (expr_at pointers.now a.now (start_of (place_at pointers.now target.now n) n)) n) }
{
    let place = lower_target(alloc, pointers, target, n)?;
    let at = start(&place, n);
    let (place, a) = results::both(place, lower_boxed(alloc, pointers, a, at))?;
    Ok(set(place, a, n)?)
}

#[cycle(expression)]
fn lower_change(
    alloc: Global,
    pointers: &[u32],
    op: u8,
    kind: CType,
    ctype: CType,
    target: &Target,
    a: &Boxed<Expr>,
    n: u32,
) -> Result<Value, AllocError>
    requires { n + 2 + (target_size target.now + expr_size a.now) < 2 ^ 32 }
    ensures { IfOk result (λ v. seen v ≡ change_of op kind ctype (place_at pointers.now target.now n) (expr_at pointers.now a.now (start_of (place_at pointers.now target.now n) n)) n) }
{
    let place = lower_target(alloc, pointers, target, n)?;
    let at = start(&place, n);
    let (place, a) = results::both(place, lower_boxed(alloc, pointers, a, at))?;
    Ok(change(alloc, op, kind, ctype, place, a, n)?)
}

#[cycle(expression)]
fn lower_after(
    alloc: Global,
    pointers: &[u32],
    up: bool,
    ctype: CType,
    target: &Target,
    n: u32,
) -> Result<Value, AllocError>
    requires { n + 2 + target_size target.now < 2 ^ 32 }
    ensures { IfOk result (λ v. seen v ≡ after_of up ctype (place_at pointers.now target.now n) n) }
{
    let place = lower_target(alloc, pointers, target, n)?;
    Ok(after(alloc, up, ctype, place, n)?)
}

#[cycle(expression)]
fn lower_direct(
    alloc: Global,
    pointers: &[u32],
    f: u32,
    ctype: CType,
    args: &List<Expr>,
    n: u32,
) -> Result<Value, AllocError>
    requires { n + 2 + exprs_size args.now < 2 ^ 32 }
    ensures { IfOk result (λ v. seen v ≡ direct_of (is_void ctype) f (exprs_at pointers.now args.now n) n) }
{
    let values = lower_exprs(alloc, pointers, args, n)?;
    Ok(direct(alloc, is_void(ctype), f, values, n)?)
}

#[cycle(expression)]
fn lower_through(
    alloc: Global,
    pointers: &[u32],
    ctype: CType,
    args: &List<Expr>,
    callee: &Boxed<Expr>,
    n: u32,
) -> Result<Value, AllocError>
    requires { n + 2 + (exprs_size args.now + expr_size callee.now) < 2 ^ 32 }
    ensures { IfOk result (λ v. seen v ≡ called_of (switch_of pointers.now callee.now) (is_void ctype) (exprs_at pointers.now args.now n) (expr_at pointers.now callee.now (n + length args.now)) n) }
{
    match switch_of(pointers, callee) {
        Some(global) => {
            let values = lower_exprs(alloc, pointers, args, n)?;
            Ok(switched(alloc, is_void(ctype), global, values, n)?)
        }
        None => {
            let values = lower_with_callee(alloc, pointers, args, callee, n)?;
            Ok(through(alloc, is_void(ctype), values, n)?)
        }
    }
}

#[cycle(expression)]
fn lower_known(
    alloc: Global,
    pointers: &[u32],
    k: Known,
    args: &List<Expr>,
    n: u32,
) -> Result<Value, AllocError>
    requires { n + 2 + exprs_size args.now < 2 ^ 32 }
    ensures { IfOk result (λ v. seen v ≡ known_of k (exprs_at pointers.now args.now n) n) }
{
    let values = lower_exprs(alloc, pointers, args, n)?;
    Ok(known(alloc, k, values, n)?)
}

// A form of an expression of a type.
#[cycle(expression)]
#[tactic(auto, using(crate::proofs::Forms::forms, crate::proofs::Emitting::emitted))]
fn lower_form(
    alloc: Global,
    pointers: &[u32],
    form: &Form,
    ctype: CType,
    n: u32,
) -> Result<Value, AllocError>
    requires { n + 2 + form_size form.now < 2 ^ 32 }
    ensures { IfOk result (λ v. seen v ≡ form_at pointers.now form.now ctype n) }
{
    match form {
        Form::Number(v) => Ok(alone(alloc, Tree::Number(*v), n)),
        Form::Read(target) => lower_read(alloc, pointers, target, n),
        Form::Function(f) => Ok(alone(alloc, Tree::Function(*f), n)),
        Form::Unary(op, a) => lower_unary(alloc, pointers, *op, a, n),
        Form::Binary(op, a, b) => lower_binary(alloc, pointers, *op, a, b, n),
        Form::Both(a, b) => lower_both(alloc, pointers, a, b, n),
        Form::Either(a, b) => lower_either(alloc, pointers, a, b, n),
        Form::Choose(c, a, b) => lower_choice(alloc, pointers, c, a, b, n),
        Form::Convert(a) => lower_converted(alloc, pointers, ctype, a, n),
        Form::Set(target, a) => lower_set(alloc, pointers, target, a, n),
        Form::Change(op, kind, target, a) => {
            lower_change(alloc, pointers, *op, *kind, ctype, target, a, n)
        }
        Form::After(up, target) => lower_after(alloc, pointers, *up, ctype, target, n),
        Form::Direct(f, args) => lower_direct(alloc, pointers, *f, ctype, args, n),
        Form::Through(args, callee) => lower_through(alloc, pointers, ctype, args, callee, n),
        Form::Known(k, args) => lower_known(alloc, pointers, *k, args, n),
    }
}

/// Expressions, each from the same temporary.
pub fn lower_each(
    alloc: Global,
    pointers: &[u32],
    es: &List<Expr>,
    n: u32,
) -> Result<List<Value>, AllocError>
    requires { n + 1 + exprs_size es.now < 2 ^ 32 }
    ensures { IfOk result (λ vs. map seen vs ≡ each_at pointers.now es.now n) }
{
    let mut values = List::new(alloc);
    for e in es.as_slice() {
        values.push(lower_expr(alloc, pointers, e, n)?)?;
    }
    Ok(values)
}

/// An expression that may be left out, in whose place a value stands then.
#[tactic(auto, using(crate::proofs::Emitting::emitted, crate::proofs::Forms::optionals))]
pub fn lower_optional(
    alloc: Global,
    pointers: &[u32],
    value: u32,
    e: &Option<Expr>,
    n: u32,
) -> Result<Value, AllocError>
    requires { n + 1 + optional_size e.now < 2 ^ 32 }
    ensures { IfOk result (λ v. seen v ≡ optional_at pointers.now value e.now n) }
{
    match e {
        Some(e) => Ok(lower_expr(alloc, pointers, e, n)?),
        None => Ok(alone(alloc, Tree::Number(value), n)),
    }
}
