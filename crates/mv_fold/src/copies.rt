//! Copies of trees.
ghost use Rattle.std.specs.Prelude.{◌≡◌, IfOk};

use mv_ir::stm::Callee;
use mv_ir::tree::Tree;
use mv_num::boxed::Boxed;
use mv_num::list::List;
use std::alloc::{AllocError, Global};

/// A copy of a tree.
pub fn copy_tree(alloc: Global, tree: &Tree) -> Result<Tree, AllocError>
    ensures { IfOk result (λ copy. copy ≡ tree.now) }
{
    match tree {
        Tree::Number(n) => Ok(Tree::Number(*n)),
        Tree::Temp(t) => Ok(Tree::Temp(*t)),
        Tree::Global(g) => Ok(Tree::Global(*g)),
        Tree::Function(f) => Ok(Tree::Function(*f)),
        Tree::Unary(o, a) => Ok(Tree::Unary(*o, Boxed::new(alloc, copy_tree(alloc, a.get())?)?)),
        Tree::Binary(o, a, b) => {
            let a = copy_tree(alloc, a.get())?;
            let b = copy_tree(alloc, b.get())?;
            Ok(Tree::Binary(*o, Boxed::new(alloc, a)?, Boxed::new(alloc, b)?))
        }
        Tree::Narrow(k, a) => Ok(Tree::Narrow(*k, Boxed::new(alloc, copy_tree(alloc, a.get())?)?)),
    }
}

/// A copy of each tree of a list.
pub fn copy_trees(alloc: Global, trees: &List<Tree>) -> Result<List<Tree>, AllocError>
    ensures { IfOk result (λ copy. copy ≡ trees.now) }
{
    let mut copy = List::new(alloc);
    for tree in trees.as_slice() {
        copy.push(copy_tree(alloc, tree)?)?;
    }
    Ok(copy)
}

/// A copy of what a call goes to.
pub fn copy_callee(alloc: Global, callee: &Callee) -> Result<Callee, AllocError>
    ensures { IfOk result (λ copy. copy ≡ callee.now) }
{
    match callee {
        Callee::Direct(f) => Ok(Callee::Direct(*f)),
        Callee::Through(t) => Ok(Callee::Through(copy_tree(alloc, t)?)),
        Callee::Switched(g) => Ok(Callee::Switched(*g)),
        Callee::Expanded => Ok(Callee::Expanded),
    }
}
