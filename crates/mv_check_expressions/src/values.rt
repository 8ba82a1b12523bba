// The values of operators and assignments, with all conversions written out, and the types that they take.

ghost use Rattle.std.specs.Prelude.{◌≡◌, IfOk};
ghost use Rattle.mv_ast.specs.declared.program.Form.TheVariants as form;
ghost use Rattle.mv_check_scope.specs.Conversions.{typed, int, converted_to};
ghost use Rattle.mv_check_expressions.specs.Found.{is_shift, is_equality, is_comparison, compound_operator, common_type, left_type, right_type, result_type, computed_of, unary_of, binary_of, choose_of, change_of, assign_to, assign_of, before_of, after_of};
ghost use Rattle.mv_check_expressions.specs.Rules.{is_scalar, are_integers, meet, takes_one, takes_two};

use crate::seen::{Object, no_value, number};
use mv_ast::marks;
use mv_ast::program::{CType, Expr, Form};
use mv_check_scope::constant::converts;
use mv_check_scope::convert::{converted_to, is_integer, is_pointer, promoted, promotion, usual};
use mv_num::boxed::Boxed;
use mv_num::kind::Kind;
use mv_num::results::both;
use std::alloc::{AllocError, Global};

const INT: CType = CType::Scalar(Kind::Int);

fn is_shift(op: u8) -> bool
    ensures { result ≡ is_shift op }
{
    op == marks::SHIFT_LEFT || op == marks::SHIFT_RIGHT
}

fn is_equality(op: u8) -> bool
    ensures { result ≡ is_equality op }
{
    op == marks::EQUAL || op == marks::NOT_EQUAL
}

fn is_comparison(op: u8) -> bool
    ensures { result ≡ is_comparison op }
{
    op == marks::LESS
        || op == marks::GREATER
        || op == marks::LESS_OR_EQUAL
        || op == marks::GREATER_OR_EQUAL
        || is_equality(op)
}

// The operator that a compound assignment computes with.
fn compound_operator(op: u8) -> u8
    ensures { result ≡ compound_operator op }
{
    if op < marks::SHIFT_LEFT_ASSIGN {
        op.saturating_sub(marks::PLUS_ASSIGN - marks::PLUS)
    } else {
        op - (marks::SHIFT_LEFT_ASSIGN - marks::SHIFT_LEFT)
    }
}

/// Whether a type is that of an integer or a pointer.
pub fn is_scalar(t: CType) -> bool
    ensures { result ≡ is_scalar t }
{
    is_integer(t) || is_pointer(t)
}

/// Whether two types are those of integers.
pub fn are_integers(s: CType, t: CType) -> bool
    ensures { result ≡ are_integers s t }
{
    is_integer(s) && is_integer(t)
}

/// Whether two operands have a common type: two integers, or a pointer opposite the same or null.
#[tactic(auto, unfolding(crate::specs::Rules::meet))]
pub fn meet(a: &Expr, b: &Expr) -> bool
    ensures { result ≡ meet a.now b.now }
{
    are_integers(a.ctype, b.ctype)
        || (is_pointer(a.ctype) && converts(b, a.ctype))
        || (is_pointer(b.ctype) && converts(a, b.ctype))
}

/// Whether an operator on one operand takes its type.
#[tactic(auto, unfolding(crate::specs::Rules::takes_one))]
pub fn takes_one(op: u8, t: CType) -> bool
    ensures { result ≡ takes_one op t }
{
    is_integer(t) || (op == marks::EXCLAMATION && is_pointer(t))
}

/// Whether an operator on two operands takes them.
#[tactic(auto, unfolding(crate::specs::Rules::takes_two))]
pub fn takes_two(op: u8, a: &Expr, b: &Expr) -> bool
    ensures { result ≡ takes_two op a.now b.now }
{
    if op == marks::LOGICAL_AND || op == marks::LOGICAL_OR {
        return is_scalar(a.ctype) && is_scalar(b.ctype);
    }
    are_integers(a.ctype, b.ctype) || (is_equality(op) && meet(a, b))
}

fn common_type(s: CType, t: CType) -> CType
    ensures { result ≡ common_type s t }
{
    if is_pointer(s) {
        s
    } else if is_pointer(t) {
        t
    } else {
        usual(s, t)
    }
}

// The types in which the operands of an operator are computed.
fn left_type(op: u8, s: CType, t: CType) -> CType
    ensures { result ≡ left_type op s t }
{
    if is_shift(op) {
        promotion(s)
    } else {
        common_type(s, t)
    }
}

fn right_type(op: u8, s: CType, t: CType) -> CType
    ensures { result ≡ right_type op s t }
{
    if is_shift(op) {
        promotion(t)
    } else {
        common_type(s, t)
    }
}

fn result_type(op: u8, t: CType) -> CType
    ensures { result ≡ result_type op t }
{
    if is_comparison(op) { INT } else { t }
}

/// The value of an operator on one operand.
#[tactic(auto, unfolding(crate::specs::Found::unary_of))]
pub fn unary_of(alloc: Global, op: u8, a: Expr) -> Result<Expr, AllocError>
    ensures { IfOk result (λ r. r ≡ unary_of op a) }
{
    if op == marks::EXCLAMATION {
        let a = Boxed::new(alloc, a)?;
        let value = Expr {
            ctype: INT,
            what: Form::Unary(op, a),
        };
        return Ok(value);
    }
    let ctype = promotion(a.ctype);
    let a = promoted(alloc, a)?;
    let a = Boxed::new(alloc, a)?;
    let value = Expr {
        ctype,
        what: Form::Unary(op, a),
    };
    Ok(value)
}

// An expression converted to a type, on the heap.
fn converted_box(alloc: Global, t: CType, e: Expr) -> Result<Boxed<Expr>, AllocError>
    ensures { IfOk result (λ r. r ≡ converted_to t e) }
{
    let e = converted_to(alloc, t, e)?;
    Boxed::new(alloc, e)
}

// Two expressions, each converted to its type, on the heap.
fn converted_boxes(
    alloc: Global,
    s: CType,
    t: CType,
    a: Expr,
    b: Expr,
) -> Result<(Boxed<Expr>, Boxed<Expr>), AllocError>
    ensures { IfOk result (λ r. (r.0 ≡ converted_to s a) × (r.1 ≡ converted_to t b)) }
{
    let (b, a) = both(b, converted_box(alloc, s, a))?;
    both(a, converted_box(alloc, t, b))
}

// An operator that computes with operands of two types.
fn computed_of(
    alloc: Global,
    op: u8,
    s: CType,
    t: CType,
    a: Expr,
    b: Expr,
) -> Result<Expr, AllocError>
    ensures { IfOk result (λ r. r ≡ computed_of op s t a b) }
{
    let (a, b) = converted_boxes(alloc, s, t, a, b)?;
    let value = Expr {
        ctype: result_type(op, s),
        what: Form::Binary(op, a, b),
    };
    Ok(value)
}

// Two expressions on the heap.
fn boxes(alloc: Global, a: Expr, b: Expr) -> Result<(Boxed<Expr>, Boxed<Expr>), AllocError>
    ensures { IfOk result (λ r. (r.0 ≡ a) × (r.1 ≡ b)) }
{
    let (b, a) = both(b, Boxed::new(alloc, a))?;
    both(a, Boxed::new(alloc, b))
}

fn both_of(alloc: Global, a: Expr, b: Expr) -> Result<Expr, AllocError>
    ensures { IfOk result (λ r. r ≡ typed int (form.Both a b)) }
{
    let (a, b) = boxes(alloc, a, b)?;
    let value = Expr {
        ctype: INT,
        what: Form::Both(a, b),
    };
    Ok(value)
}

fn either_of(alloc: Global, a: Expr, b: Expr) -> Result<Expr, AllocError>
    ensures { IfOk result (λ r. r ≡ typed int (form.Either a b)) }
{
    let (a, b) = boxes(alloc, a, b)?;
    let value = Expr {
        ctype: INT,
        what: Form::Either(a, b),
    };
    Ok(value)
}

/// The value of an operator on two operands.
#[tactic(auto, unfolding(crate::specs::Found::binary_of))]
pub fn binary_of(alloc: Global, op: u8, a: Expr, b: Expr) -> Result<Expr, AllocError>
    ensures { IfOk result (λ r. r ≡ binary_of op a b) }
{
    if op == marks::LOGICAL_AND {
        both_of(alloc, a, b)
    } else if op == marks::LOGICAL_OR {
        either_of(alloc, a, b)
    } else {
        let s = left_type(op, a.ctype, b.ctype);
        let t = right_type(op, a.ctype, b.ctype);
        computed_of(alloc, op, s, t, a, b)
    }
}

/// The value of `?:`.
#[tactic(auto, unfolding(crate::specs::Found::choose_of))]
pub fn choose_of(alloc: Global, test: Expr, a: Expr, b: Expr) -> Result<Expr, AllocError>
    ensures { IfOk result (λ r. r ≡ choose_of test a b) }
{
    let ctype = common_type(a.ctype, b.ctype);
    let (test, arms) = both(test, converted_boxes(alloc, ctype, ctype, a, b))?;
    let ((a, b), test) = both(arms, Boxed::new(alloc, test))?;
    let value = Expr {
        ctype,
        what: Form::Choose(test, a, b),
    };
    Ok(value)
}

// A compound assignment with an operator.
#[tactic(auto, unfolding(crate::specs::Found::change_of))]
fn change_of(alloc: Global, op: u8, object: Object, b: Expr) -> Result<Expr, AllocError>
    ensures { IfOk result (λ r. r ≡ change_of op object b) }
{
    let s = left_type(op, object.ctype, b.ctype);
    let t = right_type(op, object.ctype, b.ctype);
    let (object, b) = both(object, converted_box(alloc, t, b))?;
    let value = Expr {
        ctype: object.ctype,
        what: Form::Change(op, s, object.target, b),
    };
    Ok(value)
}

#[tactic(auto, unfolding(crate::specs::Found::assign_to))]
fn assign_to(alloc: Global, op: u8, object: Object, b: Expr) -> Result<Expr, AllocError>
    ensures { IfOk result (λ r. r ≡ assign_to op object b) }
{
    if op == marks::ASSIGN {
        let ctype = object.ctype;
        let (object, b) = both(object, converted_box(alloc, ctype, b))?;
        let value = Expr {
            ctype,
            what: Form::Set(object.target, b),
        };
        Ok(value)
    } else {
        change_of(alloc, compound_operator(op), object, b)
    }
}

/// The value of an assignment, if what is assigned is an object.
pub fn assign_of(alloc: Global, op: u8, object: Option<Object>, b: Expr) -> Result<Expr, AllocError>
    ensures { IfOk result (λ r. r ≡ assign_of op object b) }
{
    match object {
        None => {
            drop(b);
            Ok(no_value())
        }
        Some(object) => assign_to(alloc, op, object, b),
    }
}

/// The value of `++` or `--` in front of an object.
pub fn before_of(alloc: Global, up: bool, object: Option<Object>) -> Result<Expr, AllocError>
    ensures { IfOk result (λ r. r ≡ before_of up object) }
{
    match object {
        None => Ok(no_value()),
        Some(object) => change_of(
            alloc,
            if up { marks::PLUS } else { marks::MINUS },
            object,
            number(1),
        ),
    }
}

/// The value of `++` or `--` behind an object.
pub fn after_of(up: bool, object: Option<Object>) -> Expr
    ensures { result ≡ after_of up object }
{
    match object {
        None => no_value(),
        Some(object) => Expr {
            ctype: object.ctype,
            what: Form::After(up, object.target),
        },
    }
}
