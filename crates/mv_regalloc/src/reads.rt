// What trees and statements read is live before them.

ghost use Rattle.std.specs.Prelude.{◌≡◌, OnOk};
ghost use Rattle.mv_ir.specs.Measures.{callee_trees};
ghost use Rattle.mv_regalloc.specs.Rows.{own_trees, with_reads, with_all_reads};
ghost use Rattle.mv_regalloc.specs.Shared.{with_live};

use crate::liveness::Liveness;
use mv_ir::stm::{Callee, Stm};
use mv_ir::tree::Tree;
use std::alloc::AllocError;

// The temporaries that a tree reads are live before it.
#[tactic(auto, using(crate::proofs::BitEquations::read_trees))]
fn live_tree(tree: &Tree, liveness: &mut Liveness) -> Result<(), AllocError>
    ensures { OnOk result (liveness.new ≡ with_live liveness.old (with_reads tree.now liveness.old.live)) }
{
    match tree {
        Tree::Number(_) => Ok(()),
        Tree::Temp(t) => liveness.insert(*t),
        Tree::Global(_) => Ok(()),
        Tree::Function(_) => Ok(()),
        Tree::Unary(_, a) => live_tree(a.get(), liveness),
        Tree::Binary(_, a, b) => {
            live_tree(a.get(), liveness)?;
            live_tree(b.get(), liveness)
        }
        Tree::Narrow(_, a) => live_tree(a.get(), liveness),
    }
}

// The temporaries that some trees read are live before them.
fn live_trees(trees: &[Tree], liveness: &mut Liveness) -> Result<(), AllocError>
    ensures { OnOk result (liveness.new ≡ with_live liveness.old (with_all_reads trees.now liveness.old.live)) }
{
    for tree in trees {
        live_tree(tree, liveness)?;
    }
    Ok(())
}

// The temporaries that the callee of a call reads are live before it.
fn live_callee(callee: &Callee, liveness: &mut Liveness) -> Result<(), AllocError>
    ensures { OnOk result (
        liveness.new ≡ with_live liveness.old (with_all_reads (callee_trees callee.now) liveness.old.live)
        ) }
{
    match callee {
        Callee::Direct(_) => Ok(()),
        Callee::Through(t) => live_tree(t, liveness),
        Callee::Switched(_) => Ok(()),
        Callee::Expanded => Ok(()),
    }
}

/// The temporaries that a statement reads are live before it, without those that only statements within it read.
#[tactic(auto, using(crate::proofs::RowEquations::owned_stms))]
pub fn live_own(stm: &Stm, liveness: &mut Liveness) -> Result<(), AllocError>
    ensures { OnOk result (liveness.new ≡ with_live liveness.old (with_all_reads (own_trees stm.now) liveness.old.live)) }
{
    match stm {
        Stm::Set(_, v) => live_tree(v, liveness),
        Stm::SetGlobal(_, v) => live_tree(v, liveness),
        Stm::Divide(_, _, a, b) => {
            live_tree(a, liveness)?;
            live_tree(b, liveness)
        }
        Stm::Check(_, i) => live_tree(i, liveness),
        Stm::Read(_, _, i) => live_tree(i, liveness),
        Stm::Write(_, i, v) => {
            live_tree(i, liveness)?;
            live_tree(v, liveness)
        }
        Stm::Zero(_) => Ok(()),
        Stm::If(t, _, _) => live_tree(t, liveness),
        Stm::Loop(_) => Ok(()),
        Stm::Block(_) => Ok(()),
        Stm::Break(_) => Ok(()),
        Stm::Back(_) => Ok(()),
        Stm::Call(_, f, args) => {
            live_callee(f, liveness)?;
            live_trees(args.as_slice(), liveness)
        }
        Stm::Known(_, _, args) => live_trees(args.as_slice(), liveness),
        Stm::Return(v) => live_tree(v, liveness),
    }
}
