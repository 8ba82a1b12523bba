//! Trees with what temporaries hold in place of reads of them.
ghost use Rattle.std.specs.Prelude.{◌≡◌, IfOk, IfSome};
ghost use Rattle.mv_propagate.specs.Facts.{tree_of};
ghost use Rattle.mv_propagate.specs.Propagating.{Reads, ReadsAll, ReadsCallee};

use crate::facts::{Fact, Leaf, value_in};
use mv_ir::stm::Callee;
use mv_ir::tree::Tree;
use mv_num::boxed::Boxed;
use mv_num::list::List;
use std::alloc::{AllocError, Global};

/// The leaf that a tree is, if it is a number or a temporary.
#[tactic(auto, using(crate::proofs::Reading::leaves))]
pub(crate) fn leaf_of(tree: &Tree) -> Option<Leaf>
    ensures { IfSome result (λ l. tree.now ≡ tree_of l) }
{
    match tree {
        Tree::Number(n) => Some(Leaf::Number(*n)),
        Tree::Temp(t) => Some(Leaf::Temp(*t)),
        _ => None,
    }
}

/// A leaf as a tree.
#[tactic(auto, using(crate::proofs::Reading::leaves))]
pub(crate) fn tree_of(leaf: Leaf) -> Tree
    ensures { result ≡ tree_of leaf }
{
    match leaf {
        Leaf::Number(n) => Tree::Number(n),
        Leaf::Temp(t) => Tree::Temp(t),
    }
}

/// A tree with what temporaries are known to hold in place of reads of them.
pub(crate) fn read_tree(alloc: Global, facts: &[Fact], tree: &Tree) -> Result<Tree, AllocError>
    ensures { IfOk result (Reads facts.now tree.now) }
{
    match tree {
        Tree::Number(n) => Ok(Tree::Number(*n)),
        Tree::Temp(t) => match value_in(facts, *t) {
            Some(leaf) => Ok(tree_of(leaf)),
            None => Ok(Tree::Temp(*t)),
        },
        Tree::Global(g) => Ok(Tree::Global(*g)),
        Tree::Function(f) => Ok(Tree::Function(*f)),
        Tree::Unary(o, a) => {
            let a = read_tree(alloc, facts, a.get())?;
            Ok(Tree::Unary(*o, Boxed::new(alloc, a)?))
        }
        Tree::Binary(o, a, b) => {
            let a = read_tree(alloc, facts, a.get())?;
            let b = read_tree(alloc, facts, b.get())?;
            Ok(Tree::Binary(*o, Boxed::new(alloc, a)?, Boxed::new(alloc, b)?))
        }
        Tree::Narrow(k, a) => {
            let a = read_tree(alloc, facts, a.get())?;
            Ok(Tree::Narrow(*k, Boxed::new(alloc, a)?))
        }
    }
}

/// The same of each tree of a list.
pub(crate) fn read_trees(
    alloc: Global,
    facts: &[Fact],
    trees: &List<Tree>,
) -> Result<List<Tree>, AllocError>
    ensures { IfOk result (ReadsAll facts.now trees.now) }
{
    let mut made = List::new(alloc);
    for tree in trees.as_slice() {
        made.push(read_tree(alloc, facts, tree)?)?;
    }
    Ok(made)
}

/// The same of what a call goes to.
pub(crate) fn read_callee(
    alloc: Global,
    facts: &[Fact],
    callee: &Callee,
) -> Result<Callee, AllocError>
    ensures { IfOk result (ReadsCallee facts.now callee.now) }
{
    match callee {
        Callee::Direct(f) => Ok(Callee::Direct(*f)),
        Callee::Through(t) => Ok(Callee::Through(read_tree(alloc, facts, t)?)),
        Callee::Switched(g) => Ok(Callee::Switched(*g)),
        Callee::Expanded => Ok(Callee::Expanded),
    }
}
