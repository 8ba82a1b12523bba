// Calls (C11 6.5.2.2).

ghost use Rattle.std.specs.Prelude.{◌≡◌, IfOk, slice_get};
ghost use Rattle.mv_syntax.specs.declared.unit.What.TheOpen as what;
ghost use Rattle.mv_check_expressions.specs.Judged.{IsJudged};
ghost use Rattle.mv_check_expressions.specs.Breaches.{by_itself};
ghost use Rattle.mv_check_expressions.specs.Calls.{pointed, params_of, result_of, known_arity, planned_use, argument_use, callee_params, takes_count, passed, all_convert, named_index, named_function, direct_or_through, with_index, called_with};

use crate::breaches::{Breaches, breaches_of_use, concluded};
use crate::error::RuleError;
use crate::seen::{Seen, Use, number_or_zero, type_of, value_of};
use mv_ast::program::{CType, Expr, Form, Known, Signature};
use mv_bindings::orders;
use mv_check_scope::constant::converts;
use mv_check_scope::convert::{converted_to, is_pointer};
use mv_check_scope::scope::Scope;
use mv_num::boxed::Boxed;
use mv_num::kind::Kind;
use mv_num::list::List;
use mv_syntax::place::Place;
use std::alloc::{AllocError, Global};

const INT: CType = CType::Scalar(Kind::Int);

// The types of the parameters of the function that a pointer of this type leads to.
fn params_of(signatures: &[Signature], t: CType) -> &[CType]
    ensures { result.now ≡ params_of (pointed signatures.now t) }
{
    match t {
        CType::Pointer(s) => match signatures.get(s as usize) {
            Some(signature) => signature.params.as_slice(),
            None => &[],
        },
        _ => &[],
    }
}

fn result_of(signatures: &[Signature], t: CType) -> CType
    ensures { result ≡ result_of (pointed signatures.now t) }
{
    match t {
        CType::Pointer(s) => match signatures.get(s as usize) {
            Some(signature) => signature.result,
            None => CType::Void,
        },
        _ => CType::Void,
    }
}

fn known_arity(known: Known) -> usize
    ensures { result ≡ known_arity known }
{
    match known {
        Known::Getchar | Known::Poll => 0,
        Known::Putchar => 1,
        Known::Plan(code, _) => { if code < orders::COMMIT_FUNCTION { 0 } else { 1 } }
    }
}

fn planned_use(code: u8) -> Use
    ensures { result ≡ planned_use code }
{
    if code < orders::COMMIT_FUNCTION {
        Use::Value
    } else if code < orders::COMMIT_REFERENCES {
        Use::Function
    } else {
        Use::Switch
    }
}

/// What the arguments of a call are used as.
pub fn argument_use(callee: &Seen) -> Use
    ensures { result ≡ argument_use callee.now }
{
    match callee {
        Seen::Known(Known::Plan(code, _)) => planned_use(*code),
        _ => Use::Value,
    }
}

// What the values of arguments convert to.
fn callee_params<'a>(signatures: &'a [Signature], callee: &Seen) -> &'a [CType]
    ensures { result.now ≡ callee_params signatures.now callee.now }
{
    match callee {
        Seen::Known(Known::Putchar) => &[CType::Scalar(Kind::Int)],
        Seen::Known(_) => &[],
        _ => params_of(signatures, type_of(callee)),
    }
}

// Whether what is called is a function or a pointer to one, and takes this number of arguments.
fn takes_count(signatures: &[Signature], callee: &Seen, count: usize) -> bool
    ensures { result ≡ takes_count signatures.now callee.now count }
{
    match callee {
        Seen::Known(known) => count == known_arity(*known),
        _ => {
            let t = type_of(callee);
            is_pointer(t) && count == params_of(signatures, t).len()
        }
    }
}

// The number that the argument of a commit or revert names.
fn named_index(args: &[Seen]) -> u32
    ensures { result ≡ named_index args.now }
{
    match args {
        [Seen::Function(routine), ..] => number_or_zero(routine.attributed),
        [Seen::Switch(switch), ..] => *switch,
        _ => 0,
    }
}

// The converted values of arguments, and whether all of them convert.
#[derive(Drop)]
struct Passed {
    values: List<Expr>,
    convert: bool,
}

fn pass(alloc: Global, mut params: &[CType], args: List<Seen>) -> Result<Passed, AllocError>
    ensures values { IfOk result (λ r. r.values ≡ passed params.now args) }
    ensures convert { IfOk result (λ r. r.convert ≡ all_convert params.now args) }
{
    let mut values = List::new(alloc);
    let mut convert = true;
    for arg in args.into_vec() {
        let value = value_of(arg);
        match params {
            [] => drop(value),
            [t, rest @ ..] => {
                convert = convert && converts(&value, *t);
                let value = converted_to(alloc, *t, value)?;
                values.push(value)?;
                params = rest;
            }
        }
    }
    Ok(Passed { values, convert })
}

// The function whose name an expression is, if it is one.
fn named_function(e: &Expr) -> Option<u32>
    ensures { result ≡ named_function e.now }
{
    match &e.what {
        Form::Function(f) => Some(*f),
        _ => None,
    }
}

fn direct_or_through(alloc: Global, callee: Expr, args: List<Expr>) -> Result<Form, AllocError>
    ensures { IfOk result (λ r. r ≡ direct_or_through (named_function callee) callee args) }
{
    match named_function(&callee) {
        Some(f) => {
            drop(callee);
            Ok(Form::Direct(f, args))
        }
        None => Ok(Form::Through(args, Boxed::new(alloc, callee)?)),
    }
}

fn with_index(known: Known, index: u32) -> Known
    ensures { result ≡ with_index known index }
{
    match known {
        Known::Plan(code, _) => Known::Plan(code, index),
        _ => known,
    }
}

// The call of what an expression is, with the number that its argument names and the converted values.
#[tactic(auto, unfolding(crate::specs::Calls::called_with))]
fn called_with(
    alloc: Global,
    signatures: &[Signature],
    callee: Seen,
    index: u32,
    values: List<Expr>,
) -> Result<Expr, AllocError>
    ensures { IfOk result (λ r. r ≡ called_with signatures.now callee index values) }
{
    if let Seen::Known(known) = callee {
        return Ok(Expr {
            ctype: INT,
            what: Form::Known(with_index(known, index), values),
        });
    }
    let callee = value_of(callee);
    Ok(Expr {
        ctype: result_of(signatures, callee.ctype),
        what: direct_or_through(alloc, callee, values)?,
    })
}

/// A call of a function (C11 6.5.2.2), with as many arguments as it takes, which must convert to the types of its parameters.
pub fn call(
    alloc: Global,
    scope: &Scope,
    place: Place,
    used: Use,
    callee: Seen,
    args: List<Seen>,
) -> Result<Seen, RuleError>
    ensures { IsJudged (by_itself scope.now place used (what.Call callee args)) result }
{
    let signatures = scope.signatures.as_slice();
    let called = !takes_count(signatures, &callee, args.len());
    let index = named_index(args.as_slice());
    let Passed { values, convert } = match pass(alloc, callee_params(signatures, &callee), args) {
        Ok(passed) => passed,
        Err(_) => {
            drop(callee);
            return Err(RuleError::Memory);
        }
    };
    let seen = Seen::Value(called_with(alloc, signatures, callee, index, values)?);
    let breaches = Breaches {
        converted: !convert,
        called,
        ..breaches_of_use(used, &seen)
    };
    concluded(place, breaches, seen)
}
