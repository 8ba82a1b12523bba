// Trees where the numbers of some temporaries are known.
ghost use Rattle.std.specs.Prelude.{◌≡◌, map, IfOk};
ghost use Rattle.mv_carry.specs.Facts.{known};
ghost use Rattle.mv_carry.specs.Carrying.{known_tree, carried_tree, carried_callee};

use crate::facts::{Reach, number_at};
use mv_fold::simple::simple_tree;
use mv_ir::stm::Callee;
use mv_ir::tree::Tree;
use mv_num::boxed::Boxed;
use mv_num::list::List;
use std::alloc::{AllocError, Global};

#[tactic(auto, using(crate::proofs::Equations::known_trees))]
fn known_tree(alloc: Global, reach: &Reach, tree: &Tree) -> Result<Tree, AllocError>
    ensures { IfOk result (λ t. t ≡ known_tree (known reach.now) tree.now) }
{
    match tree {
        Tree::Number(n) => Ok(Tree::Number(*n)),
        Tree::Temp(t) => match number_at(reach, *t) {
            Some(n) => Ok(Tree::Number(n)),
            None => Ok(Tree::Temp(*t)),
        },
        Tree::Global(g) => Ok(Tree::Global(*g)),
        Tree::Function(f) => Ok(Tree::Function(*f)),
        Tree::Unary(o, a) => {
            let a = known_tree(alloc, reach, a.get())?;
            Ok(Tree::Unary(*o, Boxed::new(alloc, a)?))
        }
        Tree::Binary(o, a, b) => {
            let a = known_tree(alloc, reach, a.get())?;
            let b = known_tree(alloc, reach, b.get())?;
            Ok(Tree::Binary(*o, Boxed::new(alloc, a)?, Boxed::new(alloc, b)?))
        }
        Tree::Narrow(k, a) => {
            let a = known_tree(alloc, reach, a.get())?;
            Ok(Tree::Narrow(*k, Boxed::new(alloc, a)?))
        }
    }
}

/// A tree with its reads of known temporaries replaced by their numbers, and its operators on constants computed.
pub fn carry_tree(alloc: Global, reach: &Reach, tree: &Tree) -> Result<Tree, AllocError>
    ensures { IfOk result (λ t. t ≡ carried_tree (known reach.now) tree.now) }
{
    let read = known_tree(alloc, reach, tree)?;
    simple_tree(alloc, &read)
}

/// The same of each tree of a list.
pub fn carry_trees(
    alloc: Global,
    reach: &Reach,
    trees: &List<Tree>,
) -> Result<List<Tree>, AllocError>
    ensures { IfOk result (λ ts. ts ≡ map (carried_tree (known reach.now)) trees.now) }
{
    let mut carried = List::new(alloc);
    for tree in trees.as_slice() {
        carried.push(carry_tree(alloc, reach, tree)?)?;
    }
    Ok(carried)
}

/// The same of what a call goes to.
pub fn carry_callee(alloc: Global, reach: &Reach, callee: &Callee) -> Result<Callee, AllocError>
    ensures { IfOk result (λ f. f ≡ carried_callee (known reach.now) callee.now) }
{
    match callee {
        Callee::Direct(f) => Ok(Callee::Direct(*f)),
        Callee::Through(t) => Ok(Callee::Through(carry_tree(alloc, reach, t)?)),
        Callee::Switched(g) => Ok(Callee::Switched(*g)),
        Callee::Expanded => Ok(Callee::Expanded),
    }
}
