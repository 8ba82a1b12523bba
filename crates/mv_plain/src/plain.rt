//! Trees with the same values in fewer steps.
ghost use Rattle.std.specs.Prelude.{◌≡◌, ◌<◌, ◌^◌, true, IfOk, IfSome};
ghost use Rattle.mv_ir.specs.declared.tree.Tree.{Tree};
ghost use Rattle.mv_ir.specs.Operators.{logical_not, mul, is_comparison};
ghost use Rattle.mv_ir.specs.Rolled as rolled;
ghost use Rattle.mv_ir.specs.Rolled.{narrow as narrowed};
ghost use Rattle.mv_ir.specs.Trees.{keeps_words};
ghost use Rattle.mv_plain.specs.Plain.{is_word, is_bool, is_truth, commutes, is_neutral};
ghost use Rattle.mv_plain.specs.Plain.{Plainer, ArePlainer, IsPlainerCallee, PlainCode, PlainStm};

use mv_fold::operator::{binary, unary};
use mv_fold::simple::constant;
use mv_ir::operators;
use mv_ir::stm::{Callee, Stm};
use mv_ir::tree::Tree;
use mv_num::boxed::Boxed;
use mv_num::kind::Kind;
use mv_num::list::List;
use mv_num::word::narrow;
use std::alloc::{AllocError, Global};

// ---- what a tree's value is sure to be

// Whether a conversion to a kind leaves any number as it is.
fn is_whole(kind: Kind) -> bool
    ensures { result ≡ keeps_words kind }
{
    match kind {
        Kind::Int => true,
        Kind::UInt => true,
        _ => false,
    }
}

// Whether a tree's value is below 2^32, whatever temporaries and globals hold: of a number the type says so.
#[tactic(auto, using(crate::proofs::PlainTrees::words))]
fn is_word(tree: &Tree) -> bool
    ensures { result ≡ is_word tree.now }
{
    match tree {
        Tree::Number(n) => *n <= u32::MAX,
        Tree::Temp(_) => false,
        Tree::Global(_) => false,
        Tree::Function(_) => false,
        Tree::Unary(_, _) => true,
        Tree::Binary(o, a, b) => match *o {
            operators::BIT_AND => is_word(a.get()) || is_word(b.get()),
            operators::BIT_OR => is_word(a.get()) && is_word(b.get()),
            operators::BIT_XOR => is_word(a.get()) && is_word(b.get()),
            operators::SHIFT_RIGHT_UNSIGNED => is_word(a.get()),
            operators::SHIFT_RIGHT_SIGNED => false,
            _ => true,
        },
        Tree::Narrow(k, a) => { if is_whole(*k) { is_word(a.get()) } else { true } }
    }
}

fn is_bool(kind: Kind) -> bool
    ensures { result ≡ is_bool kind }
{
    match kind {
        Kind::Bool => true,
        _ => false,
    }
}

fn is_comparison(operator: u8) -> bool
    ensures { result ≡ is_comparison operator }
{
    operators::LESS_SIGNED <= operator && operator <= operators::NOT_EQUAL
}

/// Whether a tree's value is 0 or 1.
#[tactic(auto, using(crate::proofs::PlainTrees::truths))]
pub fn is_truth(tree: &Tree) -> bool
    ensures { result ≡ is_truth tree.now }
{
    match tree {
        Tree::Number(n) => *n <= 1,
        Tree::Temp(_) => false,
        Tree::Global(_) => false,
        Tree::Function(_) => false,
        Tree::Unary(o, _) => *o == operators::LOGICAL_NOT,
        Tree::Binary(o, _, _) => is_comparison(*o),
        Tree::Narrow(k, _) => is_bool(*k),
    }
}

// ---- conversions

// Whether a conversion leaves a tree's value.
fn stays(kind: Kind, tree: &Tree) -> bool
    ensures { result ≡ true → Plainer (narrowed kind tree.now) tree.now }
{
    if is_truth(tree) {
        return true;
    }
    is_whole(kind)
}

// A conversion.
fn plain_narrow(alloc: Global, kind: Kind, a: Tree) -> Result<Tree, AllocError>
    ensures { IfOk result (λ t. Plainer (narrowed kind a) t) }
{
    match constant(&a) {
        Some(n) => Ok(Tree::Number(narrow(kind, n))),
        None => {
            if stays(kind, &a) {
                Ok(a)
            } else {
                Ok(Tree::Narrow(kind, Boxed::new(alloc, a)?))
            }
        }
    }
}

// ---- operators on one value

// The comparison that says the opposite of another.
fn opposite(operator: u8) -> Option<u8>
    ensures { IfSome result (λ o. (a b : Tree) → Plainer (rolled.unary logical_not (rolled.binary operator a b)) (rolled.binary o a b)) }
{
    match operator {
        operators::EQUAL => Some(operators::NOT_EQUAL),
        operators::NOT_EQUAL => Some(operators::EQUAL),
        _ => None,
    }
}

// A logical not of what is no constant.
fn denied(alloc: Global, tree: Tree) -> Result<Tree, AllocError>
    ensures { IfOk result (λ t. Plainer (rolled.unary logical_not tree) t) }
{
    match tree {
        Tree::Binary(o, a, b) => match opposite(o) {
            Some(p) => Ok(Tree::Binary(p, a, b)),
            None => Ok(Tree::Unary(
                operators::LOGICAL_NOT,
                Boxed::new(alloc, Tree::Binary(o, a, b))?,
            )),
        },
        Tree::Unary(o, a) => {
            if o == operators::LOGICAL_NOT && is_truth(a.get()) {
                return Ok(a.into_inner());
            }
            Ok(Tree::Unary(
                operators::LOGICAL_NOT,
                Boxed::new(alloc, Tree::Unary(o, a))?,
            ))
        }
        other => Ok(Tree::Unary(operators::LOGICAL_NOT, Boxed::new(alloc, other)?)),
    }
}

// An operator on one value.
fn plain_unary(alloc: Global, operator: u8, a: Tree) -> Result<Tree, AllocError>
    ensures { IfOk result (λ t. Plainer (rolled.unary operator a) t) }
{
    match constant(&a) {
        Some(n) => Ok(Tree::Number(unary(operator, n))),
        None => {
            if operator == operators::LOGICAL_NOT {
                denied(alloc, a)
            } else {
                Ok(Tree::Unary(operator, Boxed::new(alloc, a)?))
            }
        }
    }
}

// ---- operators on two values

fn commutes(operator: u8) -> bool
    ensures { result ≡ commutes operator }
{
    match operator {
        operators::ADD => true,
        operators::MUL => true,
        operators::BIT_AND => true,
        operators::BIT_OR => true,
        operators::BIT_XOR => true,
        operators::EQUAL => true,
        operators::NOT_EQUAL => true,
        _ => false,
    }
}

// Whether an operator gives its left operand where this number stands at its right.
fn is_neutral(operator: u8, n: u32) -> bool
    ensures { result ≡ is_neutral operator n }
{
    match operator {
        operators::MUL => n == 1,
        operators::ADD => n == 0,
        operators::SUB => n == 0,
        operators::BIT_OR => n == 0,
        operators::BIT_XOR => n == 0,
        operators::SHIFT_LEFT => n == 0,
        operators::SHIFT_RIGHT_UNSIGNED => n == 0,
        _ => false,
    }
}

// The power of two that a number is.
fn power_of(n: u32) -> Option<u32>
    ensures { IfSome result (λ k. (k < 32) × (n ≡ 2 ^ k)) }
{
    let k = n.trailing_zeros();
    if k < 32 && n == 1 << k { Some(k) } else { None }
}

// A product of what is no constant with a number.
fn with_factor(alloc: Global, a: Tree, n: u32) -> Result<Tree, AllocError>
    ensures { IfOk result (λ t. Plainer (rolled.binary mul a (rolled.number n)) t) }
{
    match power_of(n) {
        Some(k) => Ok(Tree::Binary(
            operators::SHIFT_LEFT,
            Boxed::new(alloc, a)?,
            Boxed::new(alloc, Tree::Number(k))?,
        )),
        None => Ok(Tree::Binary(
            operators::MUL,
            Boxed::new(alloc, a)?,
            Boxed::new(alloc, Tree::Number(n))?,
        )),
    }
}

// Whether an operator with a number at its right gives its left operand.
fn leaves(operator: u8, a: &Tree, n: u32) -> bool
    ensures { result ≡ true → Plainer (rolled.binary operator a.now (rolled.number n)) a.now }
{
    if is_neutral(operator, n) {
        return is_word(a);
    }
    if operator == operators::NOT_EQUAL && n == 0 {
        return is_truth(a);
    }
    false
}

// An operator with a number at its right alone.
fn with_number(alloc: Global, operator: u8, a: Tree, n: u32) -> Result<Tree, AllocError>
    ensures { IfOk result (λ t. Plainer (rolled.binary operator a (rolled.number n)) t) }
{
    if leaves(operator, &a, n) {
        return Ok(a);
    }
    if operator == operators::EQUAL && n == 0 {
        return denied(alloc, a);
    }
    if operator == operators::MUL {
        return with_factor(alloc, a, n);
    }
    Ok(Tree::Binary(
        operator,
        Boxed::new(alloc, a)?,
        Boxed::new(alloc, Tree::Number(n))?,
    ))
}

// An operator on two values of which the first alone is a number.
fn from_number(alloc: Global, operator: u8, n: u32, b: Tree) -> Result<Tree, AllocError>
    ensures { IfOk result (λ t. Plainer (rolled.binary operator (rolled.number n) b) t) }
{
    if commutes(operator) {
        return with_number(alloc, operator, b, n);
    }
    Ok(Tree::Binary(
        operator,
        Boxed::new(alloc, Tree::Number(n))?,
        Boxed::new(alloc, b)?,
    ))
}

// An operator on two values.
fn plain_binary(alloc: Global, operator: u8, a: Tree, b: Tree) -> Result<Tree, AllocError>
    ensures { IfOk result (λ t. Plainer (rolled.binary operator a b) t) }
{
    match constant(&b) {
        Some(m) => match constant(&a) {
            Some(n) => Ok(Tree::Number(binary(operator, n, m))),
            None => with_number(alloc, operator, a, m),
        },
        None => match constant(&a) {
            Some(n) => from_number(alloc, operator, n, b),
            None => Ok(Tree::Binary(operator, Boxed::new(alloc, a)?, Boxed::new(alloc, b)?)),
        },
    }
}

// ---- trees

/// The tree with its constants computed, and without conversions and operators that change nothing.
fn plain_tree(alloc: Global, tree: &Tree) -> Result<Tree, AllocError>
    ensures { IfOk result (Plainer tree.now) }
{
    match tree {
        Tree::Number(n) => Ok(Tree::Number(*n)),
        Tree::Temp(t) => Ok(Tree::Temp(*t)),
        Tree::Global(g) => Ok(Tree::Global(*g)),
        Tree::Function(f) => Ok(Tree::Function(*f)),
        Tree::Unary(o, a) => {
            let a = plain_tree(alloc, a.get())?;
            plain_unary(alloc, *o, a)
        }
        Tree::Binary(o, a, b) => {
            let a = plain_tree(alloc, a.get())?;
            let b = plain_tree(alloc, b.get())?;
            plain_binary(alloc, *o, a, b)
        }
        Tree::Narrow(k, a) => {
            let a = plain_tree(alloc, a.get())?;
            plain_narrow(alloc, *k, a)
        }
    }
}

fn plain_trees(alloc: Global, trees: &List<Tree>) -> Result<List<Tree>, AllocError>
    ensures { IfOk result (ArePlainer trees.now) }
{
    let mut plain = List::new(alloc);
    for tree in trees.as_slice() {
        plain.push(plain_tree(alloc, tree)?)?;
    }
    Ok(plain)
}

fn plain_callee(alloc: Global, callee: &Callee) -> Result<Callee, AllocError>
    ensures { IfOk result (IsPlainerCallee callee.now) }
{
    match callee {
        Callee::Direct(f) => Ok(Callee::Direct(*f)),
        Callee::Through(t) => Ok(Callee::Through(plain_tree(alloc, t)?)),
        Callee::Switched(g) => Ok(Callee::Switched(*g)),
        Callee::Expanded => Ok(Callee::Expanded),
    }
}

// ---- code

/// The statements with plainer trees.
#[cycle(plain)]
pub fn plain_code(alloc: Global, code: &List<Stm>) -> Result<List<Stm>, AllocError>
    ensures { IfOk result (λ plain. PlainCode code.now plain) }
{
    let mut plain = List::new(alloc);
    for stm in code.as_slice() {
        plain.push(plain_stm(alloc, stm)?)?;
    }
    Ok(plain)
}

#[cycle(plain)]
#[tactic(auto, using(crate::proofs::PlainCode::statements))]
fn plain_stm(alloc: Global, stm: &Stm) -> Result<Stm, AllocError>
    ensures { IfOk result (PlainStm stm.now) }
{
    match stm {
        Stm::Set(t, v) => Ok(Stm::Set(*t, plain_tree(alloc, v)?)),
        Stm::SetGlobal(g, v) => Ok(Stm::SetGlobal(*g, plain_tree(alloc, v)?)),
        Stm::Divide(t, o, a, b) => {
            let a = plain_tree(alloc, a)?;
            let b = plain_tree(alloc, b)?;
            Ok(Stm::Divide(*t, *o, a, b))
        }
        Stm::Check(a, i) => Ok(Stm::Check(*a, plain_tree(alloc, i)?)),
        Stm::Read(t, a, i) => Ok(Stm::Read(*t, *a, plain_tree(alloc, i)?)),
        Stm::Write(a, i, v) => {
            let i = plain_tree(alloc, i)?;
            let v = plain_tree(alloc, v)?;
            Ok(Stm::Write(*a, i, v))
        }
        Stm::Zero(l) => Ok(Stm::Zero(*l)),
        Stm::If(t, a, b) => {
            let a = plain_code(alloc, a)?;
            let b = plain_code(alloc, b)?;
            Ok(Stm::If(plain_tree(alloc, t)?, a, b))
        }
        Stm::Loop(b) => Ok(Stm::Loop(plain_code(alloc, b)?)),
        Stm::Block(b) => Ok(Stm::Block(plain_code(alloc, b)?)),
        Stm::Break(n) => Ok(Stm::Break(*n)),
        Stm::Back(n) => Ok(Stm::Back(*n)),
        Stm::Call(r, f, args) => {
            let f = plain_callee(alloc, f)?;
            let args = plain_trees(alloc, args)?;
            Ok(Stm::Call(*r, f, args))
        }
        Stm::Known(r, k, args) => Ok(Stm::Known(*r, *k, plain_trees(alloc, args)?)),
        Stm::Return(v) => Ok(Stm::Return(plain_tree(alloc, v)?)),
    }
}
