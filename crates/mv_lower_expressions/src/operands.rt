// Operators on operands that are lowered.
ghost use Rattle.std.specs.Prelude.{◌≡◌, ◌+◌, ◌<◌, ◌^◌, ◌&&◌, IfOk};
ghost use Rattle.mv_lower_spec.specs.Lowered.{is_empty, is_low};
ghost use Rattle.mv_lower_expressions.specs.Values.{seen, second_of, first_of, AreOperands, unary_of, converted_of, binary_of, division_number, divided, combined};

use crate::tree::{converted, is_low, operator, unary_tree};
use crate::value::{Value, followed_by, followed_by_all, is_empty, kept_if, made_low};
use mv_ast::marks;
use mv_ast::operators::is_unsigned;
use mv_ast::program::CType;
use mv_ir::operators;
use mv_ir::stm::Stm;
use mv_ir::tree::Tree;
use mv_num::list::List;
use mv_num::results;
use std::alloc::{AllocError, Global};

/// The code of two operands, and their trees where it ends.
#[derive(Drop)]
pub struct Operands {
    pub code: List<Stm>,
    pub left: Tree,
    pub right: Tree,
    pub top: u32,
}

/// An operator on one value, by the number of its mark.
#[tactic(auto, unfolding(crate::specs::Values::unary_of, crate::specs::Values::made_low))]
pub fn unary(alloc: Global, op: u8, a: Value, n: u32) -> Result<Value, AllocError>
    requires { n + 1 < 2 ^ 32 }
    ensures { IfOk result (λ v. seen v ≡ unary_of op (seen a) n) }
{
    let Value { code, tree, top } = made_low(a, n)?;
    let (code, tree) = results::both(code, unary_tree(alloc, op, tree))?;
    Ok(Value { code, tree, top })
}

/// A value converted to a type.
#[tactic(auto, unfolding(crate::specs::Values::converted_of, crate::specs::Values::made_low))]
pub fn convert(alloc: Global, ctype: CType, a: Value, n: u32) -> Result<Value, AllocError>
    requires { n + 1 < 2 ^ 32 }
    ensures { IfOk result (λ v. seen v ≡ converted_of ctype (seen a) n) }
{
    let Value { code, tree, top } = made_low(a, n)?;
    let (code, tree) = results::both(code, converted(alloc, ctype, tree))?;
    Ok(Value { code, tree, top })
}

#[tactic(auto, unfolding(crate::specs::Values::second_of))]
fn second(b: Value, n: u32) -> Result<Value, AllocError>
    requires { n + 2 < 2 ^ 32 }
    ensures { IfOk result (λ v. seen v ≡ second_of (seen b) n) }
{
    let stays = is_low(&b.tree);
    kept_if(stays, b, n + 1)
}

// Whether the first operand may stay a tree: where the second has no code.
fn first_stays(a: &Value, second: &Value) -> bool
    ensures { result ≡ (is_empty second.now.code && is_low a.now.tree) }
{
    is_empty(&second.code) && is_low(&a.tree)
}

fn both_operands(turned: bool, a: Value, b: Value, n: u32) -> Result<Operands, AllocError>
    requires { n + 2 < 2 ^ 32 }
    ensures { IfOk result (λ o. AreOperands turned o (first_of (seen a) (seen b) n) (second_of (seen b) n)) }
{
    let (a, b) = results::both(a, second(b, n))?;
    let stays = first_stays(&a, &b);
    let (b, a) = results::both(b, kept_if(stays, a, n))?;
    Ok(joined(turned, a, b)?)
}

fn joined(turned: bool, first: Value, second: Value) -> Result<Operands, AllocError>
    ensures { IfOk result (λ o. AreOperands turned o (seen first) (seen second)) }
{
    let top = first.top.max(second.top);
    let code = followed_by_all(first.code, second.code);
    let ((a, b), code) = results::both((first.tree, second.tree), code)?;
    if turned {
        Ok(Operands {
            code,
            left: b,
            right: a,
            top,
        })
    } else {
        Ok(Operands {
            code,
            left: a,
            right: b,
            top,
        })
    }
}

// The number of the division that an operator is, where it is one.
#[tactic(auto, unfolding(crate::specs::Values::division_number))]
fn division_number(op: u8, ctype: CType) -> Option<u8>
    ensures { result ≡ division_number op ctype }
{
    if op >= marks::AMPERSAND {
        None
    } else if op == marks::PLUS || op == marks::MINUS || op == marks::STAR {
        None
    } else if op == marks::SLASH {
        Some(if is_unsigned(ctype) {
            operators::QUOTIENT_UNSIGNED
        } else {
            operators::QUOTIENT_SIGNED
        })
    } else {
        Some(if is_unsigned(ctype) {
            operators::REMAINDER_UNSIGNED
        } else {
            operators::REMAINDER_SIGNED
        })
    }
}

#[tactic(auto, using(crate::proofs::Emitting::emitted))]
fn divided(division: u8, all: Operands, n: u32) -> Result<Value, AllocError>
    requires { n + 1 < 2 ^ 32 }
    ensures { IfOk result (λ v. seen v ≡ divided division all n) }
{
    let Operands {
        code,
        left,
        right,
        top,
    } = all;
    Ok(Value {
        code: followed_by(code, Stm::Divide(n, division, left, right))?,
        tree: Tree::Temp(n),
        top: (n + 1).max(top),
    })
}

fn combined(alloc: Global, op: u8, ctype: CType, all: Operands) -> Result<Value, AllocError>
    ensures { IfOk result (λ v. seen v ≡ combined op ctype all) }
{
    let Operands {
        code,
        left,
        right,
        top,
    } = all;
    let (code, tree) = results::both(code, operator(alloc, op, ctype, left, right))?;
    Ok(Value { code, tree, top })
}

/// An operator on two values, by the number of its mark. The second is its left operand where the flag says so.
#[tactic(auto, using(crate::proofs::Combining::operators))]
pub fn binary(
    alloc: Global,
    turned: bool,
    op: u8,
    ctype: CType,
    a: Value,
    b: Value,
    n: u32,
) -> Result<Value, AllocError>
    requires { n + 2 < 2 ^ 32 }
    ensures { IfOk result (λ v. seen v ≡ binary_of turned op ctype (seen a) (seen b) n) }
{
    let all = both_operands(turned, a, b, n)?;
    match division_number(op, ctype) {
        Some(division) => Ok(divided(division, all, n)?),
        None => Ok(combined(alloc, op, ctype, all)?),
    }
}
