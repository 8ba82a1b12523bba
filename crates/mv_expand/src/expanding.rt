//! The walk over code, in the order in which it runs.
ghost use Rattle.std.specs.Prelude.{◌≡◌, ◌∷◌, ◌≤◌, ◌^◌, [], slice_get, Some, IfOk, IfSome};
ghost use Rattle.mv_expand.specs.Straight.{AllShort};
ghost use Rattle.mv_expand.specs.Expanding.{Expands};
ghost use Rattle.mv_expand.specs.Walking.{Becomes, IsNext, IsPlacedCall, IsShortOf};

use crate::placed::placed;
use mv_fold::copies::{copy_callee, copy_tree, copy_trees};
use mv_ir::body::Body;
use mv_ir::stm::{Callee, Stm};
use mv_num::list::List;
use std::alloc::{AllocError, Global};

// The short body that does what a function does.
fn short_at(shorts: &[Option<Body>], function: u32) -> Option<&Body>
    ensures { IfSome result (λ body. slice_get shorts.now function ≡ Some (Some body.now)) }
{
    match shorts.get(function as usize) {
        Some(Some(body)) => Some(body),
        _ => None,
    }
}

// The same of what a call goes to.
fn short_of<'a>(shorts: &'a [Option<Body>], callee: &Callee) -> Option<&'a Body>
    ensures { IfSome result (λ body. IsShortOf shorts.now callee.now body.now) }
{
    match callee {
        Callee::Direct(f) => short_at(shorts, *f),
        _ => None,
    }
}

// The statements that can stand in place of a call of a short body.
fn placed_call(
    alloc: Global,
    shorts: &[Option<Body>],
    base: u32,
    stm: &Stm,
) -> Result<Option<List<Stm>>, AllocError>
    requires base { base ≤ 2 ^ 31 }
    requires short { AllShort shorts.now }
    ensures { IfOk result (λ code. IfSome code (IsPlacedCall shorts.now base stm.now)) }
{
    match stm {
        Stm::Call(target, f, args) => match short_of(shorts, f) {
            Some(body) => placed(alloc, base, *target, args, body),
            None => Ok(None),
        },
        _ => Ok(None),
    }
}

/// The code with short bodies in place of calls. `tested` says whether the depth was tested before it, in the same turn of a loop.
#[cycle(expand)]
pub fn expand_code(
    alloc: Global,
    shorts: &[Option<Body>],
    base: u32,
    tested: bool,
    code: &List<Stm>,
) -> Result<List<Stm>, AllocError>
    requires base { base ≤ 2 ^ 31 }
    requires short { AllShort shorts.now }
    ensures { IfOk result (λ made. Expands shorts.now base tested code.now made) }
{
    let mut made = List::new(alloc);
    let mut tested = tested;
    for stm in code.as_slice() {
        tested = expand_next(alloc, shorts, base, tested, stm, &mut made)?;
    }
    Ok(made)
}

// Puts what becomes of a statement behind what was made before, and says whether the depth is tested there.
#[cycle(expand)]
fn expand_next(
    alloc: Global,
    shorts: &[Option<Body>],
    base: u32,
    tested: bool,
    stm: &Stm,
    made: &mut List<Stm>,
) -> Result<bool, AllocError>
    requires base { base ≤ 2 ^ 31 }
    requires short { AllShort shorts.now }
    ensures { IfOk result (IsNext shorts.now base tested stm.now made.old made.new) }
{
    match placed_call(alloc, shorts, base, stm)? {
        Some(code) => {
            if !tested {
                made.push(Stm::Call(None, Callee::Expanded, List::new(alloc)))?;
            }
            made.append(code)?;
            Ok(true)
        }
        None => {
            let becomes = expand_stm(alloc, shorts, base, tested, stm)?;
            made.push(becomes)?;
            Ok(tested)
        }
    }
}

// What becomes of a statement that stays.
#[cycle(expand)]
#[tactic(auto, using(crate::proofs::Walked::becoming))]
fn expand_stm(
    alloc: Global,
    shorts: &[Option<Body>],
    base: u32,
    tested: bool,
    stm: &Stm,
) -> Result<Stm, AllocError>
    requires base { base ≤ 2 ^ 31 }
    requires short { AllShort shorts.now }
    ensures { IfOk result (λ made. Becomes shorts.now base tested (stm.now ∷ []) (made ∷ []) tested) }
{
    match stm {
        Stm::Set(t, v) => Ok(Stm::Set(*t, copy_tree(alloc, v)?)),
        Stm::SetGlobal(g, v) => Ok(Stm::SetGlobal(*g, copy_tree(alloc, v)?)),
        Stm::Divide(t, o, a, b) => {
            let a = copy_tree(alloc, a)?;
            let b = copy_tree(alloc, b)?;
            Ok(Stm::Divide(*t, *o, a, b))
        }
        Stm::Check(a, i) => Ok(Stm::Check(*a, copy_tree(alloc, i)?)),
        Stm::Read(t, a, i) => Ok(Stm::Read(*t, *a, copy_tree(alloc, i)?)),
        Stm::Write(a, i, v) => {
            let i = copy_tree(alloc, i)?;
            let v = copy_tree(alloc, v)?;
            Ok(Stm::Write(*a, i, v))
        }
        Stm::Zero(l) => Ok(Stm::Zero(*l)),
        Stm::If(t, a, b) => {
            let a = expand_code(alloc, shorts, base, tested, a)?;
            let b = expand_code(alloc, shorts, base, tested, b)?;
            Ok(Stm::If(copy_tree(alloc, t)?, a, b))
        }
        Stm::Loop(b) => Ok(Stm::Loop(expand_code(alloc, shorts, base, false, b)?)),
        Stm::Block(b) => Ok(Stm::Block(expand_code(alloc, shorts, base, tested, b)?)),
        Stm::Break(n) => Ok(Stm::Break(*n)),
        Stm::Back(n) => Ok(Stm::Back(*n)),
        Stm::Call(r, f, args) => {
            let f = copy_callee(alloc, f)?;
            let args = copy_trees(alloc, args)?;
            Ok(Stm::Call(*r, f, args))
        }
        Stm::Known(r, k, args) => Ok(Stm::Known(*r, *k, copy_trees(alloc, args)?)),
        Stm::Return(v) => Ok(Stm::Return(copy_tree(alloc, v)?)),
    }
}
