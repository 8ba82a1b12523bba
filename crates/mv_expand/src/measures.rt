//! What code costs, and how deep trees are.
ghost use Rattle.std.specs.Prelude.{◌≡◌, ◌+◌, ◌*◌, ◌≤◌, true};
ghost use Rattle.mv_ir.specs.Measures.{callee_trees, deepest, deepest_of, stm_trees};
ghost use Rattle.mv_ir.specs.Trees.{depth, nodes, nodes_of_all};
ghost use Rattle.mv_expand.specs.Placed.{straight_cost};
ghost use Rattle.mv_expand.specs.Walking.{capped, stm_cost};

use mv_ir::stm::{Callee, Stm};
use mv_ir::tree::Tree;
use mv_num::list::List;

/// How many nodes of a tree stand one below the other.
#[tactic(auto, using(crate::proofs::Counting::depths))]
pub fn depth(tree: &Tree) -> u64
    ensures { result ≡ capped (depth tree.now) }
{
    match tree {
        Tree::Number(_) => 1,
        Tree::Temp(_) => 1,
        Tree::Global(_) => 1,
        Tree::Function(_) => 1,
        Tree::Unary(_, a) => depth(a.get()).saturating_add(1),
        Tree::Binary(_, a, b) => depth(a.get()).max(depth(b.get())).saturating_add(1),
        Tree::Narrow(_, a) => depth(a.get()).saturating_add(1),
    }
}

#[tactic(auto, using(crate::proofs::Counting::counts))]
fn nodes(tree: &Tree) -> u64
    ensures { result ≡ capped (nodes tree.now) }
{
    match tree {
        Tree::Number(_) => 1,
        Tree::Temp(_) => 1,
        Tree::Global(_) => 1,
        Tree::Function(_) => 1,
        Tree::Unary(_, a) => nodes(a.get()).saturating_add(1),
        Tree::Binary(_, a, b) => nodes(a.get())
            .saturating_add(nodes(b.get()))
            .saturating_add(1),
        Tree::Narrow(_, a) => nodes(a.get()).saturating_add(1),
    }
}

/// How many nodes some trees have.
pub fn nodes_of_all(trees: &List<Tree>) -> u64
    ensures { result ≡ capped (nodes_of_all trees.now) }
{
    let mut count: u64 = 0;
    for tree in trees.as_slice() {
        count = count.saturating_add(nodes(tree));
    }
    count
}

fn callee_nodes(callee: &Callee) -> u64
    ensures { result ≡ capped (nodes_of_all (callee_trees callee.now)) }
{
    match callee {
        Callee::Direct(_) => 0,
        Callee::Through(t) => nodes(t),
        Callee::Switched(_) => 0,
        Callee::Expanded => 0,
    }
}

// What a statement costs whose trees have so many nodes.
fn step(nodes: u64) -> u64
    ensures { result ≡ capped (8 + 3 * nodes) }
{
    nodes.saturating_mul(3).saturating_add(8)
}

/// What straight code costs: 8 for each statement and 3 for each node.
#[cycle(cost)]
pub fn straight_cost(code: &List<Stm>) -> u64
    ensures { result ≡ capped (straight_cost code.now) }
{
    let mut cost: u64 = 0;
    for stm in code.as_slice() {
        cost = cost.saturating_add(stm_cost(stm));
    }
    cost
}

#[cycle(cost)]
#[tactic(auto, using(crate::proofs::Counting::stm_costs))]
fn stm_cost(stm: &Stm) -> u64
    ensures { result ≡ capped (stm_cost stm.now) }
{
    match stm {
        Stm::Set(_, v) => step(nodes(v)),
        Stm::SetGlobal(_, v) => step(nodes(v)),
        Stm::Divide(_, _, a, b) => step(nodes(a).saturating_add(nodes(b))),
        Stm::Check(_, i) => step(nodes(i)),
        Stm::Read(_, _, i) => step(nodes(i)),
        Stm::Write(_, i, v) => step(nodes(i).saturating_add(nodes(v))),
        Stm::Zero(_) => 8,
        Stm::If(t, a, b) => step(nodes(t))
            .saturating_add(straight_cost(a))
            .saturating_add(straight_cost(b)),
        Stm::Loop(b) => straight_cost(b).saturating_add(8),
        Stm::Block(b) => straight_cost(b).saturating_add(8),
        Stm::Break(_) => 8,
        Stm::Back(_) => 8,
        Stm::Call(_, f, args) => step(callee_nodes(f).saturating_add(nodes_of_all(args))),
        Stm::Known(_, _, args) => step(nodes_of_all(args)),
        Stm::Return(v) => step(nodes(v)),
    }
}

fn is_shallow_step(stm: &Stm) -> bool
    ensures { result ≡ true → deepest_of (stm_trees stm.now) ≤ 4 }
{
    match stm {
        Stm::Set(_, v) => depth(v) <= 4,
        Stm::Divide(_, _, a, b) => depth(a) <= 4 && depth(b) <= 4,
        _ => false,
    }
}

/// Whether code only sets temporaries and divides, and each tree is one that code can be selected for.
pub fn is_shallow(code: &List<Stm>) -> bool
    ensures { result ≡ true → deepest code.now ≤ 4 }
{
    for stm in code.as_slice() {
        if !is_shallow_step(stm) {
            return false;
        }
    }
    true
}
