// Constant expressions (C11 6.6), of expressions with their types.

ghost use Rattle.std.specs.Prelude.{◌≡◌};
ghost use Rattle.mv_check_scope.specs.Constants.{is_constant, computed, constant_value, is_null, converts};
ghost use Rattle.std.specs.Prelude.{nat_eq, not};
ghost use Rattle.mv_num.specs.Words.{as_word};

use crate::convert::{is_integer, is_pointer, same_type};
use mv_ast::operators::{binary_value, converted, unary_value};
use mv_ast::program::{CType, Expr, Form};

/// Whether an expression is built of numbers and operators alone.
pub fn is_constant(e: &Expr) -> bool
    ensures { result ≡ is_constant e.now }
{
    match &e.what {
        Form::Number(_) => true,
        Form::Unary(_, a) | Form::Convert(a) => is_constant(a.get()),
        Form::Binary(_, a, b) | Form::Both(a, b) | Form::Either(a, b) => {
            is_constant(a.get()) && is_constant(b.get())
        }
        Form::Choose(c, a, b) => {
            is_constant(c.get()) && is_constant(a.get()) && is_constant(b.get())
        }
        Form::Read(_)
        | Form::Function(_)
        | Form::Set(_, _)
        | Form::Change(_, _, _, _)
        | Form::After(_, _)
        | Form::Direct(_, _)
        | Form::Through(_, _)
        | Form::Known(_, _) => false,
    }
}

fn truth(n: u32) -> u32
    ensures { result ≡ as_word (not (nat_eq n 0)) }
{
    u32::from(n != 0)
}

// The value of an expression, if nothing but numbers is read and nothing is divided by 0 on the way to it.
#[tactic(auto, using(crate::proofs::Types::type_of))]
fn computed(e: &Expr) -> Option<u32>
    ensures { result ≡ computed e.now }
{
    match &e.what {
        Form::Number(n) => Some(*n),
        Form::Unary(op, a) => Some(unary_value(*op, computed(a.get())?)),
        Form::Binary(op, a, b) => {
            let x = computed(a.get())?;
            let y = computed(b.get())?;
            binary_value(*op, a.get().ctype, x, y)
        }
        Form::Both(a, b) => {
            if computed(a.get())? == 0 {
                Some(0)
            } else {
                Some(truth(computed(b.get())?))
            }
        }
        Form::Either(a, b) => {
            if computed(a.get())? == 0 {
                Some(truth(computed(b.get())?))
            } else {
                Some(1)
            }
        }
        Form::Choose(c, a, b) => {
            if computed(c.get())? == 0 {
                computed(b.get())
            } else {
                computed(a.get())
            }
        }
        Form::Convert(a) => Some(converted(e.ctype, computed(a.get())?)),
        Form::Read(_)
        | Form::Function(_)
        | Form::Set(_, _)
        | Form::Change(_, _, _, _)
        | Form::After(_, _)
        | Form::Direct(_, _)
        | Form::Through(_, _)
        | Form::Known(_, _) => None,
    }
}

/// The value of a constant expression whose evaluation divides by no zero.
pub fn constant_value(e: &Expr) -> Option<u32>
    ensures { result ≡ constant_value e.now }
{
    if is_constant(e) { computed(e) } else { None }
}

/// Whether an expression is null where a function pointer is wanted (C11 6.3.2.3).
pub fn is_null(e: &Expr) -> bool
    ensures { result ≡ is_null e.now }
{
    is_integer(e.ctype) && constant_value(e) == Some(0)
}

/// Whether a value converts to a type as by assignment (C11 6.5.16.1).
pub fn converts(e: &Expr, t: CType) -> bool
    ensures { result ≡ converts e.now t }
{
    if is_integer(e.ctype) && is_integer(t) {
        return true;
    }
    is_pointer(t) && (same_type(e.ctype, t) || is_null(e))
}
