//! Copies of statements.
ghost use Rattle.std.specs.Prelude.{◌≡◌, IfOk};

use crate::stop::Stop;
use mv_fold::copies::{copy_callee, copy_tree, copy_trees};
use mv_ir::stm::Stm;
use std::alloc::Global;

/// A copy of a statement, where it has no others in it and is no jump to a loop or block.
pub fn copy_still(alloc: Global, stm: &Stm) -> Result<Stm, Stop>
    ensures { IfOk result (λ copy. copy ≡ stm.now) }
{
    match stm {
        Stm::Set(t, v) => Ok(Stm::Set(*t, copy_tree(alloc, v)?)),
        Stm::SetGlobal(g, v) => Ok(Stm::SetGlobal(*g, copy_tree(alloc, v)?)),
        Stm::Divide(t, o, a, b) => {
            let a = copy_tree(alloc, a)?;
            let b = copy_tree(alloc, b)?;
            Ok(Stm::Divide(*t, *o, a, b))
        }
        Stm::Check(a, i) => Ok(Stm::Check(*a, copy_tree(alloc, i)?)),
        Stm::Read(t, a, i) => Ok(Stm::Read(*t, *a, copy_tree(alloc, i)?)),
        Stm::Write(a, i, v) => {
            let i = copy_tree(alloc, i)?;
            let v = copy_tree(alloc, v)?;
            Ok(Stm::Write(*a, i, v))
        }
        Stm::Zero(l) => Ok(Stm::Zero(*l)),
        Stm::Call(r, f, args) => {
            let f = copy_callee(alloc, f)?;
            let args = copy_trees(alloc, args)?;
            Ok(Stm::Call(*r, f, args))
        }
        Stm::Known(r, k, args) => Ok(Stm::Known(*r, *k, copy_trees(alloc, args)?)),
        Stm::Return(v) => Ok(Stm::Return(copy_tree(alloc, v)?)),
        _ => Err(Stop::Unfit),
    }
}
