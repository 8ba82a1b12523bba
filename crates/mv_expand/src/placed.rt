//! A short body in place of a call.
ghost use Rattle.std.specs.Prelude.{◌≡◌, ◌++◌, ◌≤◌, ◌<◌, ◌+◌, ◌*◌, ◌^◌, true, length, map, IfOk, IfSome, OnOk};
ghost use Rattle.mv_ast.specs.Flags.{is_set};
ghost use Rattle.mv_ir.specs.Trees.{nodes_of_all};
ghost use Rattle.mv_ir.specs.WellFormed.{all_true};
ghost use Rattle.mv_expand.specs.Straight.{IsShort, short_params, short_temps};
ghost use Rattle.mv_expand.specs.Placed.{IsPlaced, given_from, placed_stm, placed_tree, result_into, stand_in, steps, straight_cost};
ghost use Rattle.mv_expand.specs.Walking.{fits, is_small};

use crate::arguments::kept;
use crate::measures::{is_shallow, nodes_of_all, straight_cost};
use mv_fold::copies::copy_tree;
use mv_ir::body::Body;
use mv_ir::stm::Stm;
use mv_ir::tree::Tree;
use mv_num::boxed::Boxed;
use mv_num::list::List;
use std::alloc::{AllocError, Global};

fn is_kept(keeps: &[bool], temp: u32) -> bool
    ensures { result ≡ is_set keeps.now temp }
{
    match keeps.get(temp as usize) {
        Some(flag) => *flag,
        None => false,
    }
}

// What stands for a temporary of the body.
fn stand_in(
    alloc: Global,
    base: u32,
    keeps: &[bool],
    args: &List<Tree>,
    temp: u32,
) -> Result<Tree, AllocError>
    requires base { base ≤ 2 ^ 31 }
    requires temp { temp < short_temps }
    ensures { IfOk result (λ t. t ≡ stand_in base (is_set keeps.now) args.now temp) }
{
    if !is_kept(keeps, temp) {
        return Ok(Tree::Temp(base + temp));
    }
    match args.get(temp as usize) {
        Some(a) => copy_tree(alloc, a),
        None => Ok(Tree::Number(0)),
    }
}

#[tactic(auto, using(crate::proofs::Equations::placings))]
fn placed_tree(
    alloc: Global,
    base: u32,
    keeps: &[bool],
    args: &List<Tree>,
    tree: &Tree,
) -> Result<Tree, AllocError>
    requires base { base ≤ 2 ^ 31 }
    requires small { is_small tree.now ≡ true }
    ensures { IfOk result (λ t. t ≡ placed_tree base (is_set keeps.now) args.now tree.now) }
{
    match tree {
        Tree::Number(n) => Ok(Tree::Number(*n)),
        Tree::Temp(t) => stand_in(alloc, base, keeps, args, *t),
        Tree::Global(g) => Ok(Tree::Global(*g)),
        Tree::Function(f) => Ok(Tree::Function(*f)),
        Tree::Unary(o, a) => {
            let a = placed_tree(alloc, base, keeps, args, a.get())?;
            Ok(Tree::Unary(*o, Boxed::new(alloc, a)?))
        }
        Tree::Binary(o, a, b) => {
            let a = placed_tree(alloc, base, keeps, args, a.get())?;
            let b = placed_tree(alloc, base, keeps, args, b.get())?;
            Ok(Tree::Binary(*o, Boxed::new(alloc, a)?, Boxed::new(alloc, b)?))
        }
        Tree::Narrow(k, a) => {
            let a = placed_tree(alloc, base, keeps, args, a.get())?;
            Ok(Tree::Narrow(*k, Boxed::new(alloc, a)?))
        }
    }
}

// The arguments that don't stand themselves, put into the temporaries that stand for the parameters.
fn given(
    alloc: Global,
    base: u32,
    keeps: &[bool],
    args: &List<Tree>,
) -> Result<List<Stm>, AllocError>
    requires base { base ≤ 2 ^ 31 }
    requires few { length args.now ≤ short_params }
    ensures { IfOk result (λ code. code ≡ given_from base (is_set keeps.now) args.now 0 args.now) }
{
    let items = args.as_slice();
    let mut code = List::new(alloc);
    for i in 0..items.len() {
        let t = i as u32;
        if !is_kept(keeps, t) {
            code.push(Stm::Set(base + t, copy_tree(alloc, &items[i])?))?;
        }
    }
    Ok(code)
}

// The value that a call gives, where it goes to a temporary.
fn put_result(
    alloc: Global,
    base: u32,
    keeps: &[bool],
    args: &List<Tree>,
    target: Option<u32>,
    value: &Tree,
    code: &mut List<Stm>,
) -> Result<(), AllocError>
    requires base { base ≤ 2 ^ 31 }
    requires small { is_small value.now ≡ true }
    ensures { OnOk result (code.new ≡ code.old ++ result_into base (is_set keeps.now) args.now target value.now) }
{
    if let Some(r) = target {
        let value = placed_tree(alloc, base, keeps, args, value)?;
        code.push(Stm::Set(r, value))?;
    }
    Ok(())
}

// What stands for a statement of the body.
#[tactic(auto, using(crate::proofs::Equations::placed_steps))]
fn put_placed(
    alloc: Global,
    base: u32,
    keeps: &[bool],
    args: &List<Tree>,
    target: Option<u32>,
    stm: &Stm,
    code: &mut List<Stm>,
) -> Result<(), AllocError>
    requires base { base ≤ 2 ^ 31 }
    requires fitting { fits stm.now ≡ true }
    ensures { OnOk result (code.new ≡ code.old ++ placed_stm base (is_set keeps.now) args.now target stm.now) }
{
    match stm {
        Stm::Set(t, v) => {
            let v = placed_tree(alloc, base, keeps, args, v)?;
            code.push(Stm::Set(base + *t, v))?;
            Ok(())
        }
        Stm::Divide(t, o, a, b) => {
            let a = placed_tree(alloc, base, keeps, args, a)?;
            let b = placed_tree(alloc, base, keeps, args, b)?;
            code.push(Stm::Divide(base + *t, *o, a, b))?;
            Ok(())
        }
        Stm::Return(v) => put_result(alloc, base, keeps, args, target, v, code),
        _ => Ok(()),
    }
}

// The arguments, and then the body.
fn steps(
    alloc: Global,
    base: u32,
    keeps: &[bool],
    args: &List<Tree>,
    target: Option<u32>,
    body: &List<Stm>,
) -> Result<List<Stm>, AllocError>
    requires base { base ≤ 2 ^ 31 }
    requires few { length args.now ≤ short_params }
    requires fitting { all_true (map fits body.now) ≡ true }
    ensures { IfOk result (λ code. code ≡ steps base (is_set keeps.now) args.now target body.now) }
{
    let mut code = given(alloc, base, keeps, args)?;
    for stm in body.as_slice() {
        put_placed(alloc, base, keeps, args, target, stm, &mut code)?;
    }
    Ok(code)
}

// Whether statements in place of a call, with what is left of it, cost no more than the call does.
fn costs_no_more(placed: &List<Stm>, args: &List<Tree>, body: &List<Stm>) -> bool
    ensures { result ≡ true → 8 + straight_cost placed.now ≤ 60 + 3 * nodes_of_all args.now + straight_cost body.now }
{
    let cost = straight_cost(placed).saturating_add(8);
    let saved = straight_cost(body)
        .saturating_add(nodes_of_all(args).saturating_mul(3))
        .saturating_add(60);
    cost < u64::MAX && cost <= saved
}

/// The statements of a short body in place of a call with these arguments, whose result goes to `target`. None where they would cost more than the call,
/// where a tree would be too deep, or where the arguments aren't as many as the parameters.
pub fn placed(
    alloc: Global,
    base: u32,
    target: Option<u32>,
    args: &List<Tree>,
    body: &Body,
) -> Result<Option<List<Stm>>, AllocError>
    requires base { base ≤ 2 ^ 31 }
    requires short { IsShort body.now }
    ensures { IfOk result (λ code. IfSome code (IsPlaced base target args.now body.now)) }
{
    if args.len() != body.params as usize {
        return Ok(None);
    }
    let keeps = kept(alloc, args, body)?;
    let code = steps(alloc, base, keeps.as_slice(), args, target, &body.code)?;
    if costs_no_more(&code, args, &body.code) && is_shallow(&code) {
        Ok(Some(code))
    } else {
        Ok(None)
    }
}
