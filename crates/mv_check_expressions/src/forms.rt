// The forms of an expression: what a node is, given what its parts are, and the rules that it breaks. Beside those that its
// form asks for there are those of its use (`breaches_of_use`). A form fails for want of memory only where it takes an
// allocator.

ghost use Rattle.std.specs.Prelude.{◌≡◌, IfOk, Some};
ghost use Rattle.mv_syntax.specs.declared.unit.What.TheOpen as what;
ghost use Rattle.mv_check_expressions.specs.Judged.{IsJudged};
ghost use Rattle.mv_check_expressions.specs.Breaches.{by_itself};
ghost use Rattle.mv_check_expressions.specs.Seen.{element_at};
ghost use Rattle.mv_check_expressions.specs.Found.{named_switch, address_of, unary_seen, element_of};
ghost use Rattle.mv_check_expressions.specs.Rules.{is_uncalled, is_wrong_operand, is_wrong_cast};

use crate::breaches::{Breaches, breaches_of_use, concluded};
use crate::error::RuleError;
use crate::seen::{
    Object, Seen, Use, array_of, is_assignable, is_function, is_known, is_undefined, no_value,
    object_of, seen_name, switch_of, type_of, value_of,
};
use crate::values::{
    after_of, are_integers, assign_of, before_of, binary_of, choose_of, is_scalar, meet, takes_one,
    takes_two, unary_of,
};
use mv_ast::marks::{AMPERSAND, ASSIGN, STAR};
use mv_ast::program::{CType, Expr, Form, Target};
use mv_check_scope::constant::converts;
use mv_check_scope::convert::{converted_to, is_integer, is_pointer, is_void, promoted};
use mv_check_scope::meaning::{Elements, Storage};
use mv_check_scope::scope::Scope;
use mv_num::boxed::Boxed;
use mv_num::kind::Kind;
use mv_syntax::place::Place;
use std::alloc::{AllocError, Global};

/// A number (C11 6.5.1), which breaks no rule of its own.
pub fn number(scope: &Scope, place: Place, used: Use, n: u32, kind: Kind) -> Result<Seen, RuleError>
    ensures { IsJudged (by_itself scope.now place used (what.Number n kind)) result }
{
    let seen = Seen::Value(Expr {
        ctype: CType::Scalar(kind),
        what: Form::Number(n),
    });
    concluded(place, breaches_of_use(used, &seen), seen)
}

fn is_uncalled(used: Use, seen: &Seen) -> bool
    ensures { result ≡ is_uncalled used seen.now }
{
    match used {
        Use::Callee => false,
        _ => is_known(seen),
    }
}

/// A name (C11 6.5.1). It must be declared, a function that it names defined, and a known function called.
pub fn name(scope: &Scope, place: Place, used: Use, name: &[u8]) -> Result<Seen, RuleError>
    ensures { IsJudged (by_itself scope.now place used (what.Name name.now)) result }
{
    let meaning = scope.meaning_of(name);
    let undeclared = meaning.is_none();
    let seen = seen_name(meaning);
    let breaches = Breaches {
        undeclared,
        undefined: is_undefined(&seen),
        misplaced: is_uncalled(used, &seen),
        ..breaches_of_use(used, &seen)
    };
    concluded(place, breaches, seen)
}

// Whether `&` or `*` stands before what it may not stand before.
fn is_wrong_operand(used: Use, op: u8, seen: &Seen) -> bool
    ensures { result ≡ is_wrong_operand used op seen.now }
{
    if op == AMPERSAND {
        return match used {
            Use::Switch => false,
            _ => !is_function(seen),
        };
    }
    op == STAR && !is_pointer(type_of(seen))
}

fn named_switch(switch: Option<u32>) -> Seen
    ensures { result ≡ named_switch switch }
{
    match switch {
        Some(switch) => Seen::Switch(switch),
        None => Seen::Value(no_value()),
    }
}

// What `&` before something is.
fn address_of(used: Use, seen: Seen) -> Seen
    ensures { result ≡ address_of used seen }
{
    match used {
        Use::Function => seen,
        Use::Switch => {
            let switch = switch_of(&seen);
            drop(seen);
            named_switch(switch)
        }
        _ => Seen::Value(value_of(seen)),
    }
}

fn unary_seen(alloc: Global, used: Use, op: u8, operand: Seen) -> Result<Seen, AllocError>
    ensures { IfOk result (λ r. r ≡ unary_seen used op operand) }
{
    if op == AMPERSAND {
        let seen = address_of(used, operand);
        return Ok(seen);
    }
    let value = value_of(operand);
    if op == STAR {
        let seen = Seen::Designator(value);
        return Ok(seen);
    }
    let value = unary_of(alloc, op, value)?;
    let seen = Seen::Value(value);
    Ok(seen)
}

/// An operator before its operand (C11 6.5.3.2, 6.5.3.3), of which it must take the type. `&` stands before a function, or
/// before a switch or a pointer switch where one is wanted, and `*` before a function pointer.
pub fn unary(
    alloc: Global,
    scope: &Scope,
    place: Place,
    used: Use,
    op: u8,
    operand: Seen,
) -> Result<Seen, RuleError>
    ensures { IsJudged (by_itself scope.now place used (what.Unary op operand)) result }
{
    let operands = !(op == AMPERSAND || op == STAR || takes_one(op, type_of(&operand)));
    let misplaced = is_wrong_operand(used, op, &operand);
    let seen = unary_seen(alloc, used, op, operand)?;
    let breaches = Breaches {
        operands,
        misplaced,
        ..breaches_of_use(used, &seen)
    };
    concluded(place, breaches, seen)
}

/// An operator between two operands (C11 6.5.5 to 6.5.14), of which it must take the types.
pub fn binary(
    alloc: Global,
    scope: &Scope,
    place: Place,
    used: Use,
    op: u8,
    left: Seen,
    right: Seen,
) -> Result<Seen, RuleError>
    ensures { IsJudged (by_itself scope.now place used (what.Binary op left right)) result }
{
    let left = value_of(left);
    let right = value_of(right);
    let operands = !takes_two(op, &left, &right);
    let value = binary_of(alloc, op, left, right)?;
    let seen = Seen::Value(value);
    let breaches = Breaches {
        operands,
        ..breaches_of_use(used, &seen)
    };
    concluded(place, breaches, seen)
}

/// `?:` (C11 6.5.15). The test must be a scalar, and the sides integers, or a function pointer and what converts to its type.
pub fn choose(
    alloc: Global,
    scope: &Scope,
    place: Place,
    used: Use,
    test: Seen,
    first: Seen,
    second: Seen,
) -> Result<Seen, RuleError>
    ensures { IsJudged (by_itself scope.now place used (what.Choose test first second)) result }
{
    let test = value_of(test);
    let first = value_of(first);
    let second = value_of(second);
    let operands = !(is_scalar(test.ctype) && meet(&first, &second));
    let value = choose_of(alloc, test, first, second)?;
    let seen = Seen::Value(value);
    let breaches = Breaches {
        operands,
        ..breaches_of_use(used, &seen)
    };
    concluded(place, breaches, seen)
}

/// An assignment (C11 6.5.16) to an object without `const`. A simple one is of a value that converts to its type, a compound
/// one of an integer to an integer. In an attributed function the object must be no switch or pointer switch.
pub fn assign(
    alloc: Global,
    scope: &Scope,
    place: Place,
    used: Use,
    op: u8,
    left: Seen,
    right: Seen,
) -> Result<Seen, RuleError>
    ensures { IsJudged (by_itself scope.now place used (what.Assign op left right)) result }
{
    let right = value_of(right);
    let stored = type_of(&left);
    let operands = !(op == ASSIGN || are_integers(stored, right.ctype));
    let assigned = !is_assignable(&left);
    let converted = op == ASSIGN && !converts(&right, stored);
    let switch = scope.attributed && switch_of(&left).is_some();
    let value = assign_of(alloc, op, object_of(left), right)?;
    let seen = Seen::Value(value);
    let breaches = Breaches {
        operands,
        assigned,
        converted,
        switch,
        ..breaches_of_use(used, &seen)
    };
    concluded(place, breaches, seen)
}

/// `++` or `--` before an integer object without `const` (C11 6.5.3.1), which in an attributed function must be no switch.
pub fn before(
    alloc: Global,
    scope: &Scope,
    place: Place,
    used: Use,
    up: bool,
    operand: Seen,
) -> Result<Seen, RuleError>
    ensures { IsJudged (by_itself scope.now place used (what.Before up operand)) result }
{
    let operands = !is_integer(type_of(&operand));
    let assigned = !is_assignable(&operand);
    let switch = scope.attributed && switch_of(&operand).is_some();
    let value = before_of(alloc, up, object_of(operand))?;
    let seen = Seen::Value(value);
    let breaches = Breaches {
        operands,
        assigned,
        switch,
        ..breaches_of_use(used, &seen)
    };
    concluded(place, breaches, seen)
}

/// `++` or `--` behind such an object (C11 6.5.2.4).
pub fn after(
    scope: &Scope,
    place: Place,
    used: Use,
    up: bool,
    operand: Seen,
) -> Result<Seen, RuleError>
    ensures { IsJudged (by_itself scope.now place used (what.After up operand)) result }
{
    let operands = !is_integer(type_of(&operand));
    let assigned = !is_assignable(&operand);
    let switch = scope.attributed && switch_of(&operand).is_some();
    let seen = Seen::Value(after_of(up, object_of(operand)));
    let breaches = Breaches {
        operands,
        assigned,
        switch,
        ..breaches_of_use(used, &seen)
    };
    concluded(place, breaches, seen)
}

fn element_at(alloc: Global, storage: Storage, index: Expr) -> Result<Target, AllocError>
    ensures { IfOk result (λ r. r ≡ element_at storage index) }
{
    let index = Boxed::new(alloc, index)?;
    match storage {
        Storage::Global(g) => {
            let target = Target::GlobalAt(g, index);
            Ok(target)
        }
        Storage::Local(l) => {
            let target = Target::LocalAt(l, index);
            Ok(target)
        }
    }
}

// The element of an array at an index.
fn element_in(alloc: Global, array: Elements, index: Expr) -> Result<Seen, AllocError>
    ensures { IfOk result (λ r. r ≡ element_of (Some array) index) }
{
    let index = promoted(alloc, index)?;
    let target = element_at(alloc, array.storage, index)?;
    let element = Object {
        target,
        ctype: array.ctype,
        fixed: array.fixed,
        switch: None,
    };
    let seen = Seen::Object(element);
    Ok(seen)
}

fn element_of(alloc: Global, array: Option<Elements>, index: Expr) -> Result<Seen, AllocError>
    ensures { IfOk result (λ r. r ≡ element_of array index) }
{
    match array {
        None => {
            drop(index);
            let seen = Seen::Value(no_value());
            Ok(seen)
        }
        Some(elements) => element_in(alloc, elements, index),
    }
}

/// An element of an array (C11 6.5.2.1), at an index that must be an integer.
pub fn index(
    alloc: Global,
    scope: &Scope,
    place: Place,
    used: Use,
    base: Seen,
    index: Seen,
) -> Result<Seen, RuleError>
    ensures { IsJudged (by_itself scope.now place used (what.Index base index)) result }
{
    let array = array_of(base);
    let index = value_of(index);
    let operands = !is_integer(index.ctype);
    let seen = element_of(alloc, array, index)?;
    let breaches = Breaches {
        operands,
        indexed: array.is_none(),
        ..breaches_of_use(used, &seen)
    };
    concluded(place, breaches, seen)
}

// Whether a cast goes to `void` inside an expression, or to an integer from a pointer.
fn is_wrong_cast(used: Use, to: CType, from: CType) -> bool
    ensures { result ≡ is_wrong_cast used to from }
{
    match used {
        Use::Effect => !is_void(to) && !is_integer(from),
        _ => is_void(to) || !is_integer(from),
    }
}

/// A cast (C11 6.5.4) of an integer, or of anything to `void` where the cast is used for its effect alone.
pub fn cast(
    alloc: Global,
    scope: &Scope,
    place: Place,
    used: Use,
    to: CType,
    operand: Seen,
) -> Result<Seen, RuleError>
    ensures { IsJudged (by_itself scope.now place used (what.Cast to operand)) result }
{
    let operand = value_of(operand);
    let misplaced = is_wrong_cast(used, to, operand.ctype);
    let value = converted_to(alloc, to, operand)?;
    let seen = Seen::Value(value);
    let breaches = Breaches {
        misplaced,
        ..breaches_of_use(used, &seen)
    };
    concluded(place, breaches, seen)
}
