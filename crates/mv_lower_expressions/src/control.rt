// Choices between values, and stores of values.
ghost use Rattle.std.specs.Prelude.{◌≡◌, ◌+◌, ◌++◌, ◌<◌, ◌^◌, IfOk, max};
ghost use Rattle.mv_lower_spec.specs.Lowered.{truth_in};
ghost use Rattle.mv_lower_expressions.specs.Values.{seen, both_of, either_of, choice_of, number_in, chosen, set_local_of, set_global_of};

use crate::tree::truth;
use crate::value::{Value, followed_by, made_low, one_statement, put_away};
use mv_ir::stm::Stm;
use mv_ir::tree::Tree;
use mv_num::list::List;
use mv_num::results;
use std::alloc::{AllocError, Global};

// The truth of a value, in a temporary.
#[tactic(auto, using(crate::proofs::Emitting::emitted))]
fn truth_in(alloc: Global, value: Value, n: u32) -> Result<List<Stm>, AllocError>
    ensures { IfOk result (λ code. code ≡ truth_in n (seen value)) }
{
    let (code, tree) = results::both(value.code, truth(alloc, value.tree))?;
    followed_by(code, Stm::Set(n, tree))
}

#[tactic(auto, using(crate::proofs::Emitting::emitted))]
fn number_in(alloc: Global, number: u32, n: u32) -> Result<List<Stm>, AllocError>
    ensures { IfOk result (λ code. code ≡ number_in number n) }
{
    one_statement(alloc, Stm::Set(n, Tree::Number(number)))
}

// One of two lists of statements, by a value. Each leaves a value in the temporary.
#[tactic(auto, using(crate::proofs::Emitting::emitted))]
fn choose(
    test: Value,
    on_true: List<Stm>,
    on_false: List<Stm>,
    above: u32,
    n: u32,
) -> Result<Value, AllocError>
    requires { n + 1 < 2 ^ 32 }
    ensures { IfOk result (λ v. seen v ≡ chosen (seen test) on_true on_false above n) }
{
    let Value { code, tree, top } = test;
    Ok(Value {
        code: followed_by(code, Stm::If(tree, on_true, on_false))?,
        tree: Tree::Temp(n),
        top: (n + 1).max(top.max(above)),
    })
}

/// `&&` (C11 6.5.13).
#[tactic(auto, unfolding(crate::specs::Values::both_of, crate::specs::Values::made_low))]
pub fn both(alloc: Global, a: Value, b: Value, n: u32) -> Result<Value, AllocError>
    requires { n + 1 < 2 ^ 32 }
    ensures { IfOk result (λ v. seen v ≡ both_of (seen a) (seen b) n) }
{
    let (a, b) = results::both(a, made_low(b, n))?;
    let above = b.top;
    let (a, on_true) = results::both(a, truth_in(alloc, b, n))?;
    let ((a, on_true), on_false) = results::both((a, on_true), number_in(alloc, 0, n))?;
    choose(a, on_true, on_false, above, n)
}

/// `||` (C11 6.5.14).
#[tactic(auto, unfolding(crate::specs::Values::either_of, crate::specs::Values::made_low))]
pub fn either(alloc: Global, a: Value, b: Value, n: u32) -> Result<Value, AllocError>
    requires { n + 1 < 2 ^ 32 }
    ensures { IfOk result (λ v. seen v ≡ either_of (seen a) (seen b) n) }
{
    let (a, b) = results::both(a, made_low(b, n))?;
    let above = b.top;
    let (a, on_false) = results::both(a, truth_in(alloc, b, n))?;
    let ((a, on_false), on_true) = results::both((a, on_false), number_in(alloc, 1, n))?;
    choose(a, on_true, on_false, above, n)
}

// The code of a value, whose tree is let go.
fn code_of(value: Value) -> List<Stm>
    ensures { result ≡ value.code }
{
    value.code
}

/// `?:` (C11 6.5.15).
#[tactic(auto, unfolding(crate::specs::Values::choice_of, crate::specs::Values::put_away))]
pub fn choice(test: Value, a: Value, b: Value, n: u32) -> Result<Value, AllocError>
    requires { n + 1 < 2 ^ 32 }
    ensures { IfOk result (λ v. seen v ≡ choice_of (seen test) (seen a) (seen b) n) }
{
    let ((test, b), a) = results::both((test, b), put_away(a, n))?;
    let ((test, a), b) = results::both((test, a), put_away(b, n))?;
    let above = a.top.max(b.top);
    let (on_true, on_false) = (code_of(a), code_of(b));
    choose(test, on_true, on_false, above, n)
}

/// An assignment to a local.
#[tactic(auto, using(crate::proofs::Emitting::emitted), unfolding(crate::specs::Values::set_local_of))]
pub fn set_local(local: u32, a: Value, n: u32) -> Result<Value, AllocError>
    ensures { IfOk result (λ v. seen v ≡ set_local_of local (seen a) n) }
{
    let Value { code, tree, top } = a;
    Ok(Value {
        code: followed_by(code, Stm::Set(local, tree))?,
        tree: Tree::Temp(local),
        top,
    })
}

/// An assignment to a global.
#[tactic(auto, using(crate::proofs::Emitting::emitted), unfolding(crate::specs::Values::set_global_of, crate::specs::Values::put_away))]
pub fn set_global(global: u32, a: Value, n: u32) -> Result<Value, AllocError>
    requires { n + 1 < 2 ^ 32 }
    ensures { IfOk result (λ v. seen v ≡ set_global_of global (seen a) n) }
{
    let Value { code, tree, top } = put_away(a, n)?;
    Ok(Value {
        code: followed_by(code, Stm::SetGlobal(global, tree))?,
        tree: Tree::Temp(n),
        top,
    })
}
