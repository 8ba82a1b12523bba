// Reads, stores and changes of places that are lowered.
ghost use Rattle.std.specs.Prelude.{◌≡◌, ◌+◌, ◌<◌, ◌^◌, IfOk, true};
ghost use Rattle.mv_lower_spec.specs.Lowered.{index_in, lower_read_element};
ghost use Rattle.mv_lower_spec.specs.Lower.{InLocal, InGlobal, Element};
ghost use Rattle.mv_lower_expressions.specs.Values.{seen, given, binary_of, converted_of};
ghost use Rattle.mv_lower_expressions.specs.Places.{seen_place, start_of, alone, tested_index, stored, behind, read_of, set_of, set_element_of, change_of, after_of};

use crate::control::{set_global, set_local};
use crate::operands::{binary, convert};
use crate::tree::next_tree;
use crate::value::{Value, followed_by, followed_by_all, one_statement};
use mv_ast::program::CType;
use mv_ir::stm::{Array, Stm};
use mv_ir::tree::Tree;
use mv_num::list::List;
use mv_num::results;
use std::alloc::{AllocError, Global};

/// An lvalue, the index of an element being lowered.
#[derive(Drop)]
pub enum Place {
    Local(u32),
    Global(u32),
    Element(Array, Value),
}

/// The first free temporary for the value that is stored: the index of an element is put away first.
pub fn start(place: &Place, n: u32) -> u32
    requires { n + 2 < 2 ^ 32 }
    ensures { result ≡ start_of (seen_place place.now) n }
{
    match place {
        Place::Local(_) => n,
        Place::Global(_) => n,
        Place::Element(_, _) => n + 2,
    }
}

/// A tree that needs no code before it.
pub fn alone(alloc: Global, tree: Tree, top: u32) -> Value
    ensures { seen result ≡ alone tree top }
{
    Value {
        code: List::new(alloc),
        tree,
        top,
    }
}

// An index that lasts, in the second free temporary.
#[tactic(auto, using(crate::proofs::Emitting::emitted))]
fn index_in(i: Value, n: u32) -> Result<Value, AllocError>
    requires { n + 2 < 2 ^ 32 }
    ensures { IfOk result (λ v. seen v ≡ index_in n (given (seen i))) }
{
    let Value { code, tree, top } = i;
    Ok(Value {
        code: followed_by(code, Stm::Set(n + 1, tree))?,
        tree: Tree::Temp(n + 1),
        top: (n + 2).max(top),
    })
}

#[tactic(auto, using(crate::proofs::Emitting::emitted))]
fn read_element(array: Array, i: Value, n: u32) -> Result<Value, AllocError>
    requires { n + 1 < 2 ^ 32 }
    ensures { IfOk result (λ v. seen v ≡ lower_read_element array (given (seen i)) n) }
{
    let Value { code, tree, top } = i;
    Ok(Value {
        code: followed_by(code, Stm::Read(n, array, tree))?,
        tree: Tree::Temp(n),
        top: (n + 1).max(top),
    })
}

/// The value that stands in a place.
#[tactic(auto, using(crate::proofs::Emitting::emitted), unfolding(crate::specs::Places::read_of))]
pub fn read(alloc: Global, place: Place, n: u32) -> Result<Value, AllocError>
    requires { n + 1 < 2 ^ 32 }
    ensures { IfOk result (λ v. seen v ≡ read_of (seen_place place) n) }
{
    match place {
        Place::Local(l) => Ok(alone(alloc, Tree::Temp(l), n)),
        Place::Global(g) => Ok(alone(alloc, Tree::Global(g), n)),
        Place::Element(array, i) => read_element(array, i, n),
    }
}

// An index that is tested, and lasts.
#[tactic(auto, using(crate::proofs::Emitting::emitted))]
fn tested_index(array: Array, i: Value, n: u32) -> Result<Value, AllocError>
    requires { n + 2 < 2 ^ 32 }
    ensures { IfOk result (λ v. seen v ≡ tested_index array (seen i) n) }
{
    let Value { code, tree, top } = i;
    let code = followed_by(code, Stm::Set(n + 1, tree))?;
    Ok(Value {
        code: followed_by(code, Stm::Check(array, Tree::Temp(n + 1)))?,
        tree: Tree::Temp(n + 1),
        top: (n + 2).max(top),
    })
}

// A value put away, and stored at the index.
#[tactic(auto, using(crate::proofs::Emitting::emitted))]
fn stored(array: Array, v: Value, n: u32) -> Result<Value, AllocError>
    requires { n + 2 < 2 ^ 32 }
    ensures { IfOk result (λ w. seen w ≡ stored array (seen v) n) }
{
    let Value { code, tree, top } = v;
    let code = followed_by(code, Stm::Set(n, tree))?;
    Ok(Value {
        code: followed_by(code, Stm::Write(array, Tree::Temp(n + 1), Tree::Temp(n)))?,
        tree: Tree::Temp(n),
        top,
    })
}

// The one value behind the other, whose code comes first.
fn behind(first: Value, second: Value) -> Result<Value, AllocError>
    ensures { IfOk result (λ v. seen v ≡ behind (seen first) (seen second)) }
{
    drop(first.tree);
    let code = followed_by_all(first.code, second.code);
    let (tree, code) = results::both(second.tree, code)?;
    Ok(Value {
        code,
        tree,
        top: first.top.max(second.top),
    })
}

// A store in an element, whose index is tested before the value is evaluated.
#[tactic(auto, using(crate::proofs::Elements::elements))]
fn set_element(array: Array, i: Value, v: Value, n: u32) -> Result<Value, AllocError>
    requires { n + 2 < 2 ^ 32 }
    ensures { IfOk result (λ w. seen w ≡ set_element_of array (seen i) (seen v) n) }
{
    let (v, at) = results::both(v, tested_index(array, i, n))?;
    let (at, value) = results::both(at, stored(array, v, n))?;
    Ok(behind(at, value)?)
}

/// A store of a value in a place.
#[tactic(auto, using(crate::proofs::Elements::sets))]
pub fn set(place: Place, v: Value, n: u32) -> Result<Value, AllocError>
    requires { n + 2 < 2 ^ 32 }
    ensures { IfOk result (λ w. seen w ≡ set_of (seen_place place) (seen v) n) }
{
    match place {
        Place::Local(l) => Ok(set_local(l, v, n)?),
        Place::Global(g) => Ok(set_global(g, v, n)?),
        Place::Element(array, i) => Ok(set_element(array, i, v, n)?),
    }
}

// The new value of a compound assignment: the right side, and then the old value.
fn changed(
    alloc: Global,
    op: u8,
    kind: CType,
    ctype: CType,
    old: Value,
    v: Value,
    n: u32,
) -> Result<Value, AllocError>
    requires { n + 2 < 2 ^ 32 }
    ensures { IfOk result (λ w. seen w ≡ converted_of ctype (binary_of true op kind (seen v) (seen old) n) n) }
{
    let new = binary(alloc, true, op, kind, v, old, n)?;
    convert(alloc, ctype, new, n)
}

/// A compound assignment, which computes in one type and stores in another (C11 6.5.16.2).
#[tactic(auto, using(crate::proofs::Forms::changes, crate::proofs::Emitting::emitted))]
pub fn change(
    alloc: Global,
    op: u8,
    kind: CType,
    ctype: CType,
    place: Place,
    v: Value,
    n: u32,
) -> Result<Value, AllocError>
    requires { start_of (seen_place place) n + 2 < 2 ^ 32 }
    ensures { IfOk result (λ w. seen w ≡ change_of op kind ctype (seen_place place) (seen v) n) }
{
    match place {
        Place::Local(l) => {
            let old = alone(alloc, Tree::Temp(l), n + 1);
            let new = changed(alloc, op, kind, ctype, old, v, n)?;
            Ok(set_local(l, new, n)?)
        }
        Place::Global(g) => {
            let old = alone(alloc, Tree::Global(g), n + 1);
            let new = changed(alloc, op, kind, ctype, old, v, n)?;
            Ok(set_global(g, new, n)?)
        }
        Place::Element(array, i) => {
            let at = alone(alloc, Tree::Temp(n + 1), n + 3);
            let ((i, v), old) = results::both((i, v), read_element(array, at, n + 3))?;
            let (i, new) = results::both(i, changed(alloc, op, kind, ctype, old, v, n + 2))?;
            Ok(set_element(array, i, new, n)?)
        }
    }
}

#[tactic(auto, using(crate::proofs::Emitting::emitted), unfolding(crate::specs::Places::after_of))]
fn local_after(
    alloc: Global,
    up: bool,
    ctype: CType,
    local: u32,
    n: u32,
) -> Result<Value, AllocError>
    requires { n + 1 < 2 ^ 32 }
    ensures { IfOk result (λ w. seen w ≡ after_of up ctype (InLocal local) n) }
{
    let code = one_statement(alloc, Stm::Set(n, Tree::Temp(local)))?;
    let (code, next) = results::both(code, next_tree(alloc, up, ctype, Tree::Temp(n)))?;
    Ok(Value {
        code: followed_by(code, Stm::Set(local, next))?,
        tree: Tree::Temp(n),
        top: n + 1,
    })
}

#[tactic(auto, using(crate::proofs::Emitting::emitted), unfolding(crate::specs::Places::after_of))]
fn global_after(
    alloc: Global,
    up: bool,
    ctype: CType,
    global: u32,
    n: u32,
) -> Result<Value, AllocError>
    requires { n + 1 < 2 ^ 32 }
    ensures { IfOk result (λ w. seen w ≡ after_of up ctype (InGlobal global) n) }
{
    let code = one_statement(alloc, Stm::Set(n, Tree::Global(global)))?;
    let (code, next) = results::both(code, next_tree(alloc, up, ctype, Tree::Temp(n)))?;
    Ok(Value {
        code: followed_by(code, Stm::SetGlobal(global, next))?,
        tree: Tree::Temp(n),
        top: n + 1,
    })
}

#[tactic(auto, using(crate::proofs::Emitting::emitted), unfolding(crate::specs::Places::after_of))]
fn element_after(
    alloc: Global,
    up: bool,
    ctype: CType,
    array: Array,
    i: Value,
    n: u32,
) -> Result<Value, AllocError>
    requires { n + 2 < 2 ^ 32 }
    ensures { IfOk result (λ w. seen w ≡ after_of up ctype (Element array (given (seen i))) n) }
{
    let Value {
        code,
        tree: at,
        top,
    } = index_in(i, n)?;
    let code = followed_by(code, Stm::Read(n, array, at))?;
    let (code, next) = results::both(code, next_tree(alloc, up, ctype, Tree::Temp(n)))?;
    Ok(Value {
        code: followed_by(code, Stm::Write(array, Tree::Temp(n + 1), next))?,
        tree: Tree::Temp(n),
        top,
    })
}

/// `++` or `--` behind a place: its old value stays in a temporary (C11 6.5.2.4).
pub fn after(
    alloc: Global,
    up: bool,
    ctype: CType,
    place: Place,
    n: u32,
) -> Result<Value, AllocError>
    requires { n + 2 < 2 ^ 32 }
    ensures { IfOk result (λ w. seen w ≡ after_of up ctype (seen_place place) n) }
{
    match place {
        Place::Local(l) => local_after(alloc, up, ctype, l, n),
        Place::Global(g) => global_after(alloc, up, ctype, g, n),
        Place::Element(array, i) => element_after(alloc, up, ctype, array, i, n),
    }
}
