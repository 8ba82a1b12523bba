// Trees of operators.
ghost use Rattle.std.specs.Prelude.{◌≡◌, IfOk};
ghost use Rattle.mv_ast.specs.Marks as marks;
ghost use Rattle.mv_ir.specs.Operators as operators;
ghost use Rattle.mv_lower_spec.specs.Lowered.{is_low, unary, binary, truth};
ghost use Rattle.mv_lower_spec.specs.Lower.{unary_tree, converted_tree, less_tree, bit_tree, next_tree};
ghost use Rattle.mv_lower_expressions.specs.Values.{is_leaf, operator_tree};

use mv_ast::marks;
use mv_ast::operators::is_unsigned;
use mv_ast::program::CType;
use mv_ir::operators;
use mv_ir::tree::Tree;
use mv_num::boxed::Boxed;
use mv_num::results;
use std::alloc::{AllocError, Global};

#[tactic(auto, using(crate::proofs::Emitting::leaves))]
fn is_leaf(tree: &Tree) -> bool
    ensures { result ≡ is_leaf tree.now }
{
    match tree {
        Tree::Number(_) => true,
        Tree::Temp(_) => true,
        Tree::Global(_) => true,
        Tree::Function(_) => true,
        Tree::Unary(_, _) => false,
        Tree::Binary(_, _, _) => false,
        Tree::Narrow(_, _) => false,
    }
}

/// Whether operators can be put on a tree.
#[tactic(auto, using(crate::proofs::Emitting::lows))]
pub fn is_low(tree: &Tree) -> bool
    ensures { result ≡ is_low tree.now }
{
    match tree {
        Tree::Number(_) => true,
        Tree::Temp(_) => true,
        Tree::Global(_) => true,
        Tree::Function(_) => true,
        Tree::Unary(_, a) => is_leaf(a.get()),
        Tree::Binary(_, a, b) => is_leaf(a.get()) && is_leaf(b.get()),
        Tree::Narrow(_, a) => is_leaf(a.get()),
    }
}

#[tactic(auto, using(crate::proofs::Emitting::emitted))]
fn unary(alloc: Global, operator: u8, a: Tree) -> Result<Tree, AllocError>
    ensures { IfOk result (λ t. t ≡ unary operator a) }
{
    Ok(Tree::Unary(operator, Boxed::new(alloc, a)?))
}

#[tactic(auto, using(crate::proofs::Emitting::emitted))]
fn binary(alloc: Global, operator: u8, a: Tree, b: Tree) -> Result<Tree, AllocError>
    ensures { IfOk result (λ t. t ≡ binary operator a b) }
{
    let (b, a) = results::both(b, Boxed::new(alloc, a))?;
    let (a, b) = results::both(a, Boxed::new(alloc, b))?;
    Ok(Tree::Binary(operator, a, b))
}

/// An operator on one value, by the number of its mark.
#[tactic(auto, using(crate::proofs::Emitting::emitted))]
pub fn unary_tree(alloc: Global, op: u8, a: Tree) -> Result<Tree, AllocError>
    ensures { IfOk result (λ t. t ≡ unary_tree op a) }
{
    match op {
        marks::TILDE => binary(alloc, operators::BIT_XOR, a, Tree::Number(0xFFFF_FFFF)),
        marks::EXCLAMATION => unary(alloc, operators::LOGICAL_NOT, a),
        marks::MINUS => unary(alloc, operators::NEGATE, a),
        _ => Ok(a),
    }
}

/// A value converted to a type.
#[tactic(auto, using(crate::proofs::Emitting::emitted))]
pub fn converted(alloc: Global, ctype: CType, a: Tree) -> Result<Tree, AllocError>
    ensures { IfOk result (λ t. t ≡ converted_tree ctype a) }
{
    match ctype {
        CType::Void => Ok(Tree::Number(0)),
        CType::Scalar(kind) => Ok(Tree::Narrow(kind, Boxed::new(alloc, a)?)),
        CType::Pointer(_) => Ok(a),
    }
}

// Whether the first is less, by the order of a type.
fn less(alloc: Global, ctype: CType, a: Tree, b: Tree) -> Result<Tree, AllocError>
    ensures { IfOk result (λ t. t ≡ less_tree ctype a b) }
{
    if is_unsigned(ctype) {
        binary(alloc, operators::LESS_UNSIGNED, a, b)
    } else {
        binary(alloc, operators::LESS_SIGNED, a, b)
    }
}

fn shifted_right(alloc: Global, ctype: CType, a: Tree, b: Tree) -> Result<Tree, AllocError>
    ensures { IfOk result (λ t. t ≡ bit_tree marks.shift_right ctype a b) }
{
    if is_unsigned(ctype) {
        binary(alloc, operators::SHIFT_RIGHT_UNSIGNED, a, b)
    } else {
        binary(alloc, operators::SHIFT_RIGHT_SIGNED, a, b)
    }
}

// At least: not less.
fn not_less(alloc: Global, ctype: CType, a: Tree, b: Tree) -> Result<Tree, AllocError>
    ensures { IfOk result (λ t. t ≡ unary operators.logical_not (less_tree ctype a b)) }
{
    let less = less(alloc, ctype, a, b)?;
    unary(alloc, operators::LOGICAL_NOT, less)
}

// Operators on bits, shifts and comparisons.
fn bits(alloc: Global, op: u8, ctype: CType, a: Tree, b: Tree) -> Result<Tree, AllocError>
    ensures { IfOk result (λ t. t ≡ bit_tree op ctype a b) }
{
    match op {
        marks::AMPERSAND => binary(alloc, operators::BIT_AND, a, b),
        marks::BAR => binary(alloc, operators::BIT_OR, a, b),
        marks::CARET => binary(alloc, operators::BIT_XOR, a, b),
        marks::LESS => less(alloc, ctype, a, b),
        marks::GREATER => less(alloc, ctype, b, a),
        marks::SHIFT_LEFT => binary(alloc, operators::SHIFT_LEFT, a, b),
        marks::SHIFT_RIGHT => shifted_right(alloc, ctype, a, b),
        marks::LESS_OR_EQUAL => not_less(alloc, ctype, b, a),
        marks::GREATER_OR_EQUAL => not_less(alloc, ctype, a, b),
        marks::EQUAL => binary(alloc, operators::EQUAL, a, b),
        _ => binary(alloc, operators::NOT_EQUAL, a, b),
    }
}

/// An operator on two values that is no division, by the number of its mark.
#[tactic(auto, unfolding(crate::specs::Values::operator_tree))]
pub fn operator(alloc: Global, op: u8, ctype: CType, a: Tree, b: Tree) -> Result<Tree, AllocError>
    ensures { IfOk result (λ t. t ≡ operator_tree op ctype a b) }
{
    if op >= marks::AMPERSAND {
        bits(alloc, op, ctype, a, b)
    } else if op == marks::PLUS {
        binary(alloc, operators::ADD, a, b)
    } else if op == marks::MINUS {
        binary(alloc, operators::SUB, a, b)
    } else {
        binary(alloc, operators::MUL, a, b)
    }
}

/// 1, unless the value is 0.
pub fn truth(alloc: Global, a: Tree) -> Result<Tree, AllocError>
    ensures { IfOk result (λ t. t ≡ truth a) }
{
    let not = unary(alloc, operators::LOGICAL_NOT, a)?;
    unary(alloc, operators::LOGICAL_NOT, not)
}

/// One more or one less than an old value.
#[tactic(auto, using(crate::proofs::Emitting::emitted))]
pub fn next_tree(alloc: Global, up: bool, ctype: CType, old: Tree) -> Result<Tree, AllocError>
    ensures { IfOk result (λ t. t ≡ next_tree up ctype old) }
{
    let operator = if up { operators::ADD } else { operators::SUB };
    let next = binary(alloc, operator, old, Tree::Number(1))?;
    converted(alloc, ctype, next)
}
