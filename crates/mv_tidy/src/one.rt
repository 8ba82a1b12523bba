//! Two statements as one.
ghost use Rattle.std.specs.Prelude.{◌≡◌, ◌⊎◌, true, IfOk, IfSome};
ghost use Rattle.mv_regalloc.specs.declared.liveness.Row.TheVariants.{Saved};
ghost use Rattle.mv_regalloc.specs.Shared.{row_of};
ghost use Rattle.mv_tidy.specs.Tidying.{IsOne};
ghost use Rattle.mv_tidy.specs.Walking.{IsGone};

use crate::trees::{is_temp, reads, takes};
use mv_fold::copies::{copy_callee, copy_tree, copy_trees};
use mv_ir::stm::{Array, Stm};
use mv_ir::tree::Tree;
use mv_regalloc::liveness::{Liveness, Row};
use std::alloc::{AllocError, Global};

/// Whether a temporary is one of those below `temps`, and isn't live where the set that was put aside last is.
pub fn is_gone(temps: u32, temp: u32, liveness: &Liveness) -> bool
    ensures { result ≡ true → IsGone temps (row_of liveness.now (Saved 0)) temp }
{
    if temp < temps {
        !liveness.has(Row::Saved(0), temp)
    } else {
        false
    }
}

// Whether nothing reads what was in a temporary behind a set of another one.
fn is_over(temps: u32, temp: u32, set: u32, liveness: &Liveness) -> bool
    ensures { result ≡ true → IsGone temps (row_of liveness.now (Saved 0)) temp ⊎ (temp ≡ set) }
{
    if temp == set {
        return true;
    }
    is_gone(temps, temp, liveness)
}

// A statement whose result goes to another temporary. An arm for each statement that has one.
fn moved(
    alloc: Global,
    temps: u32,
    first: &Stm,
    x: u32,
    v: &Tree,
    liveness: &Liveness,
) -> Result<Option<Stm>, AllocError>
    ensures { IfOk result (λ one. IfSome one (λ z. IsOne (IsGone temps (row_of liveness.now (Saved 0))) first.now (Stm.Set x v.now) z)) }
{
    match first {
        Stm::Set(t, e) => {
            if !is_over(temps, *t, x, liveness) {
                return Ok(None);
            }
            match takes(alloc, *t, e, v)? {
                Some(w) => Ok(Some(Stm::Set(x, w))),
                None => Ok(None),
            }
        }
        Stm::Divide(t, o, a, b) => {
            if !is_temp(v, *t) || !is_gone(temps, *t, liveness) {
                return Ok(None);
            }
            let a = copy_tree(alloc, a)?;
            let b = copy_tree(alloc, b)?;
            Ok(Some(Stm::Divide(x, *o, a, b)))
        }
        Stm::Read(t, a, i) => {
            if !is_temp(v, *t) || !is_gone(temps, *t, liveness) {
                return Ok(None);
            }
            Ok(Some(Stm::Read(x, *a, copy_tree(alloc, i)?)))
        }
        Stm::Call(to, f, args) => match to {
            Some(t) => {
                if !is_temp(v, *t) || !is_gone(temps, *t, liveness) {
                    return Ok(None);
                }
                let f = copy_callee(alloc, f)?;
                let args = copy_trees(alloc, args)?;
                Ok(Some(Stm::Call(Some(x), f, args)))
            }
            None => Ok(None),
        },
        Stm::Known(to, k, args) => match to {
            Some(t) => {
                if !is_temp(v, *t) || !is_gone(temps, *t, liveness) {
                    return Ok(None);
                }
                Ok(Some(Stm::Known(Some(x), *k, copy_trees(alloc, args)?)))
            }
            None => Ok(None),
        },
        _ => Ok(None),
    }
}

// A value that is stored in a global where it is computed.
fn stored(
    alloc: Global,
    temps: u32,
    first: &Stm,
    g: u32,
    v: &Tree,
    liveness: &Liveness,
) -> Result<Option<Stm>, AllocError>
    ensures { IfOk result (λ one. IfSome one (λ z. IsOne (IsGone temps (row_of liveness.now (Saved 0))) first.now (Stm.SetGlobal g v.now) z)) }
{
    match first {
        Stm::Set(t, e) => {
            if !is_gone(temps, *t, liveness) {
                return Ok(None);
            }
            match takes(alloc, *t, e, v)? {
                Some(w) => Ok(Some(Stm::SetGlobal(g, w))),
                None => Ok(None),
            }
        }
        _ => Ok(None),
    }
}

// A value that is put into an array where it is computed.
fn written(
    alloc: Global,
    temps: u32,
    first: &Stm,
    array: Array,
    index: &Tree,
    v: &Tree,
    liveness: &Liveness,
) -> Result<Option<Stm>, AllocError>
    ensures { IfOk result (λ one. IfSome one (λ z. IsOne (IsGone temps (row_of liveness.now (Saved 0))) first.now (Stm.Write array index.now v.now) z)) }
{
    match first {
        Stm::Set(t, e) => {
            if reads(index, *t) || !is_gone(temps, *t, liveness) {
                return Ok(None);
            }
            match takes(alloc, *t, e, v)? {
                Some(w) => Ok(Some(Stm::Write(array, copy_tree(alloc, index)?, w))),
                None => Ok(None),
            }
        }
        _ => Ok(None),
    }
}

/// Two statements as one, where the temporary that the first writes only hands a value on to the second. What is live behind the second was put aside last.
pub fn as_one(
    alloc: Global,
    temps: u32,
    first: &Stm,
    second: &Stm,
    liveness: &Liveness,
) -> Result<Option<Stm>, AllocError>
    ensures { IfOk result (λ one. IfSome one (λ z. IsOne (IsGone temps (row_of liveness.now (Saved 0))) first.now second.now z)) }
{
    match second {
        Stm::Set(x, v) => moved(alloc, temps, first, *x, v, liveness),
        Stm::SetGlobal(g, v) => stored(alloc, temps, first, *g, v, liveness),
        Stm::Write(a, i, v) => written(alloc, temps, first, *a, i, v, liveness),
        _ => Ok(None),
    }
}
