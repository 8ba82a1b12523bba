//! Trees in which a value takes the place of a temporary.
ghost use Rattle.std.specs.Prelude.{◌≡◌, true, IfOk, IfSome};
ghost use Rattle.mv_ir.specs.declared.tree.Tree.{Tree};
ghost use Rattle.mv_ir.specs.Live.{reads_temp};
ghost use Rattle.mv_ir.specs.Operators as operator;
ghost use Rattle.mv_ir.specs.Rolled as rolled;
ghost use Rattle.mv_plain.specs.Plain.{is_truth};
ghost use Rattle.mv_tidy.specs.Tidying.{is_leaf, taking, Takes};

use mv_fold::copies::copy_tree;
use mv_fold::simple::constant;
use mv_ir::operators;
use mv_ir::tree::Tree;
use mv_num::boxed::Boxed;
use mv_plain::is_truth;
use std::alloc::{AllocError, Global};

/// Whether a tree reads a temporary.
#[tactic(auto, using(crate::proofs::Equations::reading))]
pub fn reads(tree: &Tree, temp: u32) -> bool
    ensures { result ≡ reads_temp temp tree.now }
{
    match tree {
        Tree::Number(_) => false,
        Tree::Temp(t) => *t == temp,
        Tree::Global(_) => false,
        Tree::Function(_) => false,
        Tree::Unary(_, a) => reads(a.get(), temp),
        Tree::Binary(_, a, b) => reads(a.get(), temp) || reads(b.get(), temp),
        Tree::Narrow(_, a) => reads(a.get(), temp),
    }
}

// The temporary that a tree is.
#[tactic(auto, using(crate::proofs::Equations::temp_is))]
fn temp_of(tree: &Tree) -> Option<u32>
    ensures { IfSome result (λ t. tree.now ≡ rolled.temp t) }
{
    match tree {
        Tree::Temp(t) => Some(*t),
        Tree::Number(_) => None,
        Tree::Global(_) => None,
        Tree::Function(_) => None,
        Tree::Unary(_, _) => None,
        Tree::Binary(_, _, _) => None,
        Tree::Narrow(_, _) => None,
    }
}

/// Whether a tree is a temporary, and nothing more.
pub fn is_temp(tree: &Tree, temp: u32) -> bool
    ensures { result ≡ true → tree.now ≡ rolled.temp temp }
{
    match temp_of(tree) {
        Some(t) => t == temp,
        None => false,
    }
}

/// Whether a tree is the number 0.
pub fn is_zero(tree: &Tree) -> bool
    ensures { result ≡ true → tree.now ≡ rolled.number 0 }
{
    match constant(tree) {
        Some(n) => n == 0,
        None => false,
    }
}

// Whether a tree is the denial of what a temporary holds.
fn denies(tree: &Tree, temp: u32) -> bool
    ensures { result ≡ true → tree.now ≡ rolled.unary operator.logical_not (rolled.temp temp) }
{
    match tree {
        Tree::Unary(o, a) => {
            if *o == operators::LOGICAL_NOT {
                is_temp(a.get(), temp)
            } else {
                false
            }
        }
        _ => false,
    }
}

// Whether a tree is a truth that a temporary holds: it asks whether that is 0, once or twice, or is a conversion of it.
fn keeps_truth(tree: &Tree, temp: u32) -> bool
    ensures { result ≡ true → (e : Tree) → is_truth e ≡ true → Takes temp e tree.now e }
{
    match tree {
        Tree::Binary(o, a, b) => {
            if !is_zero(b.get()) {
                return false;
            }
            if *o == operators::NOT_EQUAL {
                is_temp(a.get(), temp)
            } else {
                false
            }
        }
        Tree::Unary(o, a) => {
            if *o == operators::LOGICAL_NOT {
                denies(a.get(), temp)
            } else {
                false
            }
        }
        Tree::Narrow(_, a) => is_temp(a.get(), temp),
        _ => false,
    }
}

// Whether a tree is the value of a temporary that holds this one.
fn hands_on(temp: u32, value: &Tree, tree: &Tree) -> bool
    ensures { result ≡ true → Takes temp value.now tree.now value.now }
{
    if is_temp(tree, temp) {
        return true;
    }
    if is_truth(value) {
        keeps_truth(tree, temp)
    } else {
        false
    }
}

// Whether a tree is one node.
#[tactic(auto, using(crate::proofs::Equations::leaves))]
fn is_leaf(tree: &Tree) -> bool
    ensures { result ≡ is_leaf tree.now }
{
    match tree {
        Tree::Number(_) => true,
        Tree::Temp(_) => true,
        Tree::Global(_) => true,
        Tree::Function(_) => true,
        Tree::Unary(_, _) => false,
        Tree::Binary(_, _, _) => false,
        Tree::Narrow(_, _) => false,
    }
}

#[tactic(auto, using(crate::proofs::Equations::takings))]
fn taking(alloc: Global, temp: u32, value: &Tree, tree: &Tree) -> Result<Tree, AllocError>
    ensures { IfOk result (λ t. t ≡ taking temp value.now tree.now) }
{
    match tree {
        Tree::Number(n) => Ok(Tree::Number(*n)),
        Tree::Temp(t) => {
            if *t == temp {
                copy_tree(alloc, value)
            } else {
                Ok(Tree::Temp(*t))
            }
        }
        Tree::Global(g) => Ok(Tree::Global(*g)),
        Tree::Function(f) => Ok(Tree::Function(*f)),
        Tree::Unary(o, a) => {
            let a = taking(alloc, temp, value, a.get())?;
            Ok(Tree::Unary(*o, Boxed::new(alloc, a)?))
        }
        Tree::Binary(o, a, b) => {
            let a = taking(alloc, temp, value, a.get())?;
            let b = taking(alloc, temp, value, b.get())?;
            Ok(Tree::Binary(*o, Boxed::new(alloc, a)?, Boxed::new(alloc, b)?))
        }
        Tree::Narrow(k, a) => {
            let a = taking(alloc, temp, value, a.get())?;
            Ok(Tree::Narrow(*k, Boxed::new(alloc, a)?))
        }
    }
}

/// A tree with a value in place of a temporary, where it is that temporary, or asks for a truth in it, or the value is one node.
pub fn takes(
    alloc: Global,
    temp: u32,
    value: &Tree,
    tree: &Tree,
) -> Result<Option<Tree>, AllocError>
    ensures { IfOk result (λ taken. IfSome taken (λ t. Takes temp value.now tree.now t)) }
{
    if hands_on(temp, value, tree) {
        return Ok(Some(copy_tree(alloc, value)?));
    }
    if is_leaf(value) {
        Ok(Some(taking(alloc, temp, value, tree)?))
    } else {
        Ok(None)
    }
}
