// What expressions are found to be.

ghost use Rattle.std.specs.Prelude.{◌≡◌};
ghost use Rattle.mv_ast.specs.declared.program.Form.TheVariants as form;
ghost use Rattle.mv_check_scope.specs.Conversions.{typed, int};
ghost use Rattle.mv_check_expressions.specs.Seen.{object_at, no_value, number_or_zero, value_of, type_of, array_of, object_of, is_assignable, switch_of, is_function, is_attributed, is_undefined, is_known, seen_as, seen_name};

use mv_ast::program::{CType, Expr, Form, Known, Target};
use mv_check_scope::convert::is_void;
use mv_check_scope::meaning::{Elements, Meaning, Routine, Storage};
use mv_num::kind::Kind;

/// A scalar object (C11 6.3.2.1), with the number of a switch or pointer switch if its name is that of one that is attributed.
#[derive(Drop)]
pub struct Object {
    pub target: Target,
    pub ctype: CType,
    pub fixed: bool,
    pub switch: Option<u32>,
}

/// What an expression is.
#[derive(Drop)]
pub enum Seen {
    /// A value.
    Value(Expr),
    /// A scalar object.
    Object(Object),
    /// An array.
    Array(Elements),
    /// A declared function, by its name.
    Function(Routine),
    /// The function that a pointer leads to.
    Designator(Expr),
    /// A function that is known without declaration.
    Known(Known),
    /// A switch or pointer switch behind `&`, where one is named.
    Switch(u32),
}

/// What an expression is used as.
#[derive(Clone, Copy, PartialEq, Eq, Debug)]
pub enum Use {
    /// A value.
    Value,
    /// What is indexed.
    Base,
    /// What is called.
    Callee,
    /// What is assigned.
    Place,
    /// An expression statement or a part of a `for`: for its effect alone.
    Effect,
    /// The operand of a cast to `void`.
    Discarded,
    /// The operand of `&`.
    Address,
    /// The name of an attributed function.
    Function,
    /// A switch or pointer switch that is named behind `&`.
    Switch,
}

fn object_at(storage: Storage) -> Target
    ensures { result ≡ object_at storage }
{
    match storage {
        Storage::Global(g) => Target::Global(g),
        Storage::Local(l) => Target::Local(l),
    }
}

/// What stands for the value of what has none.
pub fn no_value() -> Expr
    ensures { result ≡ no_value }
{
    Expr {
        ctype: CType::Void,
        what: Form::Number(0),
    }
}

/// An `int`.
pub fn number(n: u32) -> Expr
    ensures { result ≡ typed int (form.Number n) }
{
    Expr {
        ctype: CType::Scalar(Kind::Int),
        what: Form::Number(n),
    }
}

/// A number, or 0 where there is none.
pub fn number_or_zero(number: Option<u32>) -> u32
    ensures { result ≡ number_or_zero number }
{
    match number {
        None => 0,
        Some(n) => n,
    }
}

/// The value of an expression: that of an object is read, and that of a function is its address (C11 6.3.2.1). What has no value is
/// used as one by no expression that keeps the rules.
pub fn value_of(seen: Seen) -> Expr
    ensures { result ≡ value_of seen }
{
    match seen {
        Seen::Value(e) | Seen::Designator(e) => e,
        Seen::Object(object) => Expr {
            ctype: object.ctype,
            what: Form::Read(object.target),
        },
        Seen::Function(routine) => Expr {
            ctype: CType::Pointer(routine.signature),
            what: Form::Function(number_or_zero(routine.number)),
        },
        Seen::Array(_) | Seen::Known(_) | Seen::Switch(_) => no_value(),
    }
}

/// The type of an expression's value.
pub fn type_of(seen: &Seen) -> CType
    ensures { result ≡ type_of seen.now }
{
    match seen {
        Seen::Value(e) | Seen::Designator(e) => e.ctype,
        Seen::Object(object) => object.ctype,
        Seen::Function(routine) => CType::Pointer(routine.signature),
        Seen::Array(_) | Seen::Known(_) | Seen::Switch(_) => CType::Void,
    }
}

/// The array that an expression is, if it is one.
pub fn array_of(seen: Seen) -> Option<Elements>
    ensures { result ≡ array_of seen }
{
    match seen {
        Seen::Array(elements) => Some(elements),
        other => {
            drop(other);
            None
        }
    }
}

/// The object that an expression is, if it is one.
pub fn object_of(seen: Seen) -> Option<Object>
    ensures { result ≡ object_of seen }
{
    match seen {
        Seen::Object(object) => Some(object),
        other => {
            drop(other);
            None
        }
    }
}

/// Whether an expression may be assigned to (C11 6.5.16).
pub fn is_assignable(seen: &Seen) -> bool
    ensures { result ≡ is_assignable seen.now }
{
    match seen {
        Seen::Object(object) => !(object.fixed || is_void(object.ctype)),
        _ => false,
    }
}

/// The switch or pointer switch that an expression's name is, if it is one: no `const` object.
pub fn switch_of(seen: &Seen) -> Option<u32>
    ensures { result ≡ switch_of seen.now }
{
    match seen {
        Seen::Object(object) => {
            if is_void(object.ctype) || object.fixed {
                None
            } else {
                object.switch
            }
        }
        _ => None,
    }
}

/// Whether an expression is a function of the source.
pub fn is_function(seen: &Seen) -> bool
    ensures { result ≡ is_function seen.now }
{
    matches!(seen, Seen::Function(_) | Seen::Designator(_))
}

/// Whether an expression is the name of an attributed function.
pub fn is_attributed(seen: &Seen) -> bool
    ensures { result ≡ is_attributed seen.now }
{
    match seen {
        Seen::Function(routine) => routine.attributed.is_some(),
        _ => false,
    }
}

/// Whether an expression is the name of a function that isn't defined.
pub fn is_undefined(seen: &Seen) -> bool
    ensures { result ≡ is_undefined seen.now }
{
    match seen {
        Seen::Function(routine) => routine.number.is_none(),
        _ => false,
    }
}

/// Whether an expression is the name of a known function.
pub fn is_known(seen: &Seen) -> bool
    ensures { result ≡ is_known seen.now }
{
    matches!(seen, Seen::Known(_))
}

fn seen_as(meaning: Meaning) -> Seen
    ensures { result ≡ seen_as meaning }
{
    match meaning {
        Meaning::Object(variable) => Seen::Object(Object {
            target: object_at(variable.storage),
            ctype: variable.ctype,
            fixed: variable.fixed,
            switch: variable.switch,
        }),
        Meaning::Array(elements) => Seen::Array(elements),
        Meaning::Function(routine) => Seen::Function(routine),
        Meaning::Enumerator(n) => Seen::Value(number(n)),
        Meaning::Tag(_) => Seen::Value(no_value()),
        Meaning::Known(known) => Seen::Known(known),
    }
}

/// What a name is.
pub fn seen_name(meaning: Option<Meaning>) -> Seen
    ensures { result ≡ seen_name meaning }
{
    match meaning {
        None => Seen::Value(no_value()),
        Some(meaning) => seen_as(meaning),
    }
}
