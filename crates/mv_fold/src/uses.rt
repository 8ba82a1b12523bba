// Which temporaries code reads, and for what.
ghost use Rattle.std.specs.Prelude.{◌≡◌, ◌++◌, ◌∷◌, [], OnOk};
ghost use Rattle.mv_ir.specs.Measures.{callee_trees};
ghost use Rattle.mv_fold.specs.Needed.{tree_uses, trees_uses, stm_uses, code_uses};

use mv_ir::stm::{Callee, Stm};
use mv_ir::tree::Tree;
use mv_num::list::List;
use std::alloc::AllocError;

/// A read of the temporary `used`, in a tree that is set to the temporary `user` or, where there is none, in a tree of
/// another statement.
#[derive(Clone, Copy, PartialEq, Eq, Debug)]
pub struct Use {
    pub user: Option<u32>,
    pub used: u32,
}

#[tactic(auto, using(crate::proofs::NeededEquations::uses_of_trees))]
fn add_tree(user: Option<u32>, tree: &Tree, uses: &mut List<Use>) -> Result<(), AllocError>
    ensures { OnOk result (uses.new ≡ uses.old ++ tree_uses user tree.now) }
{
    match tree {
        Tree::Number(_) => Ok(()),
        Tree::Temp(t) => Ok(uses.push(Use { user, used: *t })?),
        Tree::Global(_) => Ok(()),
        Tree::Function(_) => Ok(()),
        Tree::Unary(_, a) => add_tree(user, a.get(), uses),
        Tree::Binary(_, a, b) => {
            add_tree(user, a.get(), uses)?;
            add_tree(user, b.get(), uses)
        }
        Tree::Narrow(_, a) => add_tree(user, a.get(), uses),
    }
}

fn add_trees(trees: &List<Tree>, uses: &mut List<Use>) -> Result<(), AllocError>
    ensures { OnOk result (uses.new ≡ uses.old ++ trees_uses trees.now) }
{
    for tree in trees.as_slice() {
        add_tree(None, tree, uses)?;
    }
    Ok(())
}

#[tactic(auto, using(crate::proofs::NeededEquations::uses_of_callees))]
fn add_callee(callee: &Callee, uses: &mut List<Use>) -> Result<(), AllocError>
    ensures { OnOk result (uses.new ≡ uses.old ++ trees_uses (callee_trees callee.now)) }
{
    match callee {
        Callee::Direct(_) => Ok(()),
        Callee::Through(t) => add_tree(None, t, uses),
        Callee::Switched(_) => Ok(()),
        Callee::Expanded => Ok(()),
    }
}

/// Puts the reads of some code behind others.
#[cycle(uses)]
pub fn add_code(code: &List<Stm>, uses: &mut List<Use>) -> Result<(), AllocError>
    ensures { OnOk result (uses.new ≡ uses.old ++ code_uses code.now) }
{
    for stm in code.as_slice() {
        add_stm(stm, uses)?;
    }
    Ok(())
}

#[cycle(uses)]
#[tactic(auto, using(crate::proofs::NeededEquations::uses_of_stms))]
fn add_stm(stm: &Stm, uses: &mut List<Use>) -> Result<(), AllocError>
    ensures { OnOk result (uses.new ≡ uses.old ++ stm_uses stm.now) }
{
    match stm {
        Stm::Set(t, v) => add_tree(Some(*t), v, uses),
        Stm::SetGlobal(_, v) => add_tree(None, v, uses),
        Stm::Divide(_, _, a, b) => {
            add_tree(None, a, uses)?;
            add_tree(None, b, uses)
        }
        Stm::Check(_, i) => add_tree(None, i, uses),
        Stm::Read(_, _, i) => add_tree(None, i, uses),
        Stm::Write(_, i, v) => {
            add_tree(None, i, uses)?;
            add_tree(None, v, uses)
        }
        Stm::Zero(_) => Ok(()),
        Stm::If(t, a, b) => {
            add_tree(None, t, uses)?;
            add_code(a, uses)?;
            add_code(b, uses)
        }
        Stm::Loop(b) => add_code(b, uses),
        Stm::Block(b) => add_code(b, uses),
        Stm::Break(_) => Ok(()),
        Stm::Back(_) => Ok(()),
        Stm::Call(_, f, args) => {
            add_callee(f, uses)?;
            add_trees(args, uses)
        }
        Stm::Known(_, _, args) => add_trees(args, uses),
        Stm::Return(v) => add_tree(None, v, uses),
    }
}
