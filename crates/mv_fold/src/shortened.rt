// The end of a body's code, where nothing follows: without the jumps that leave the body and the sets at it, and without a temporary that the last statement
// stores or returns.
ghost use Rattle.std.specs.Prelude.{◌≡◌, ◌<◌, IfOk};
ghost use Rattle.mv_fold.specs.Shortened.{idles, without_idle, is_temp, taking, as_one, carried, shortened};

use crate::copies::copy_tree;
use mv_ir::stm::Stm;
use mv_ir::tree::Tree;
use mv_num::list::List;
use std::alloc::{AllocError, Global};

// Whether a statement does nothing where nothing follows.
#[tactic(auto, using(crate::proofs::Ends::idling))]
fn idles(stm: &Stm) -> bool
    ensures { result ≡ idles stm.now }
{
    match stm {
        Stm::Break(_) => true,
        Stm::Set(_, _) => true,
        Stm::SetGlobal(_, _) => false,
        Stm::Divide(_, _, _, _) => false,
        Stm::Check(_, _) => false,
        Stm::Read(_, _, _) => false,
        Stm::Write(_, _, _) => false,
        Stm::Zero(_) => false,
        Stm::If(_, _, _) => false,
        Stm::Loop(_) => false,
        Stm::Block(_) => false,
        Stm::Back(_) => false,
        Stm::Call(_, _, _) => false,
        Stm::Known(_, _, _) => false,
        Stm::Return(_) => false,
    }
}

// Code without the statements at its end that do nothing there.
fn without_idle(code: List<Stm>) -> List<Stm>
    ensures { result ≡ without_idle code }
{
    let mut stms = code.into_vec();
    while stms.len() > 0 {
        let last = stms.len() - 1;
        if !idles(&stms[last]) {
            return List::from_vec(stms);
        }
        stms.truncate(last);
    }
    List::from_vec(stms)
}

#[tactic(auto, using(crate::proofs::Ends::are_temps))]
fn is_temp(temp: u32, tree: &Tree) -> bool
    ensures { result ≡ is_temp temp tree.now }
{
    match tree {
        Tree::Temp(t) => *t == temp,
        Tree::Number(_) => false,
        Tree::Global(_) => false,
        Tree::Function(_) => false,
        Tree::Unary(_, _) => false,
        Tree::Binary(_, _, _) => false,
        Tree::Narrow(_, _) => false,
    }
}

// A statement with a value in place of the temporary that it stores or returns.
#[tactic(auto, using(crate::proofs::Ends::takings))]
fn taking(alloc: Global, temp: u32, value: &Tree, stm: &Stm) -> Result<Option<Stm>, AllocError>
    ensures { IfOk result (λ s. s ≡ taking temp value.now stm.now) }
{
    match stm {
        Stm::SetGlobal(g, x) => {
            if is_temp(temp, x) {
                Ok(Some(Stm::SetGlobal(*g, copy_tree(alloc, value)?)))
            } else {
                Ok(None)
            }
        }
        Stm::Return(x) => {
            if is_temp(temp, x) {
                Ok(Some(Stm::Return(copy_tree(alloc, value)?)))
            } else {
                Ok(None)
            }
        }
        Stm::Set(_, _) => Ok(None),
        Stm::Divide(_, _, _, _) => Ok(None),
        Stm::Check(_, _) => Ok(None),
        Stm::Read(_, _, _) => Ok(None),
        Stm::Write(_, _, _) => Ok(None),
        Stm::Zero(_) => Ok(None),
        Stm::If(_, _, _) => Ok(None),
        Stm::Loop(_) => Ok(None),
        Stm::Block(_) => Ok(None),
        Stm::Break(_) => Ok(None),
        Stm::Back(_) => Ok(None),
        Stm::Call(_, _, _) => Ok(None),
        Stm::Known(_, _, _) => Ok(None),
    }
}

// The last two statements of a body with so many temporaries as one.
#[tactic(auto, using(crate::proofs::Ends::ones))]
fn as_one(alloc: Global, temps: u32, first: &Stm, second: &Stm) -> Result<Option<Stm>, AllocError>
    ensures { IfOk result (λ s. s ≡ as_one temps first.now second.now) }
{
    match first {
        Stm::Set(t, v) => {
            if *t < temps {
                taking(alloc, *t, v, second)
            } else {
                Ok(None)
            }
        }
        Stm::SetGlobal(_, _) => Ok(None),
        Stm::Divide(_, _, _, _) => Ok(None),
        Stm::Check(_, _) => Ok(None),
        Stm::Read(_, _, _) => Ok(None),
        Stm::Write(_, _, _) => Ok(None),
        Stm::Zero(_) => Ok(None),
        Stm::If(_, _, _) => Ok(None),
        Stm::Loop(_) => Ok(None),
        Stm::Block(_) => Ok(None),
        Stm::Break(_) => Ok(None),
        Stm::Back(_) => Ok(None),
        Stm::Call(_, _, _) => Ok(None),
        Stm::Known(_, _, _) => Ok(None),
        Stm::Return(_) => Ok(None),
    }
}

fn carried(alloc: Global, temps: u32, code: List<Stm>) -> Result<List<Stm>, AllocError>
    ensures { IfOk result (λ short. short ≡ carried temps code) }
{
    let mut stms = code.into_vec();
    while stms.len() > 1 {
        let first = stms.len() - 2;
        match as_one(alloc, temps, &stms[first], &stms[first + 1])? {
            Some(stm) => {
                stms.truncate(first);
                stms.push(stm)?;
            }
            None => return Ok(List::from_vec(stms)),
        }
    }
    Ok(List::from_vec(stms))
}

/// The code of a body with so many temporaries, with its end shortened.
pub fn shortened(alloc: Global, temps: u32, code: List<Stm>) -> Result<List<Stm>, AllocError>
    ensures { IfOk result (λ short. short ≡ shortened temps code) }
{
    carried(alloc, temps, without_idle(code))
}
