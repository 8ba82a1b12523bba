// Code without the sets of temporaries that aren't needed.
ghost use Rattle.std.specs.Prelude.{◌≡◌, ◌++◌, ◌∷◌, [], IfOk, OnOk};
ghost use Rattle.mv_fold.specs.Needed.{needed_stm, needed_code};
ghost use Rattle.mv_ast.specs.Flags.{is_set};

use crate::copies::{copy_callee, copy_tree, copy_trees};
use mv_ir::stm::Stm;
use mv_num::list::List;
use std::alloc::{AllocError, Global};

/// Whether a temporary is flagged.
fn is_flagged(flags: &[bool], temp: u32) -> bool
    ensures { result ≡ is_set flags.now temp }
{
    match flags.get(temp as usize) {
        Some(flag) => *flag,
        None => false,
    }
}

fn put(code: &mut List<Stm>, stm: Stm) -> Result<(), AllocError>
    ensures { OnOk result (code.new ≡ code.old ++ stm ∷ []) }
{
    Ok(code.push(stm)?)
}

/// The code without the sets of temporaries that aren't flagged.
#[cycle(needed)]
pub fn needed_code(alloc: Global, flags: &[bool], code: &List<Stm>) -> Result<List<Stm>, AllocError>
    ensures { IfOk result (λ kept. kept ≡ needed_code (is_set flags.now) code.now) }
{
    let mut kept = List::new(alloc);
    for stm in code.as_slice() {
        add_needed(alloc, flags, stm, &mut kept)?;
    }
    Ok(kept)
}

#[cycle(needed)]
#[tactic(auto, using(crate::proofs::NeededEquations::needed_stms))]
fn add_needed(
    alloc: Global,
    flags: &[bool],
    stm: &Stm,
    kept: &mut List<Stm>,
) -> Result<(), AllocError>
    ensures { OnOk result (kept.new ≡ kept.old ++ needed_stm (is_set flags.now) stm.now) }
{
    match stm {
        Stm::Set(t, v) => {
            if is_flagged(flags, *t) {
                put(kept, Stm::Set(*t, copy_tree(alloc, v)?))
            } else {
                Ok(())
            }
        }
        Stm::SetGlobal(g, v) => put(kept, Stm::SetGlobal(*g, copy_tree(alloc, v)?)),
        Stm::Divide(t, o, a, b) => {
            let a = copy_tree(alloc, a)?;
            let b = copy_tree(alloc, b)?;
            put(kept, Stm::Divide(*t, *o, a, b))
        }
        Stm::Check(a, i) => put(kept, Stm::Check(*a, copy_tree(alloc, i)?)),
        Stm::Read(t, a, i) => put(kept, Stm::Read(*t, *a, copy_tree(alloc, i)?)),
        Stm::Write(a, i, v) => {
            let i = copy_tree(alloc, i)?;
            let v = copy_tree(alloc, v)?;
            put(kept, Stm::Write(*a, i, v))
        }
        Stm::Zero(l) => put(kept, Stm::Zero(*l)),
        Stm::If(t, a, b) => {
            let t = copy_tree(alloc, t)?;
            let a = needed_code(alloc, flags, a)?;
            let b = needed_code(alloc, flags, b)?;
            put(kept, Stm::If(t, a, b))
        }
        Stm::Loop(b) => put(kept, Stm::Loop(needed_code(alloc, flags, b)?)),
        Stm::Block(b) => put(kept, Stm::Block(needed_code(alloc, flags, b)?)),
        Stm::Break(n) => put(kept, Stm::Break(*n)),
        Stm::Back(n) => put(kept, Stm::Back(*n)),
        Stm::Call(r, f, args) => {
            let f = copy_callee(alloc, f)?;
            let args = copy_trees(alloc, args)?;
            put(kept, Stm::Call(*r, f, args))
        }
        Stm::Known(r, k, args) => put(kept, Stm::Known(*r, *k, copy_trees(alloc, args)?)),
        Stm::Return(v) => put(kept, Stm::Return(copy_tree(alloc, v)?)),
    }
}
