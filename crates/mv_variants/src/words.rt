//! How many words code has at most, each branch taken for two, as far as a `u64` goes.
ghost use Rattle.std.specs.Prelude.{◌≡◌, ◌∷◌, ◌+◌, ◌*◌, ◌≤◌, [], true};
ghost use Rattle.mv_ir.specs.Measures.{callee_trees};
ghost use Rattle.mv_ir.specs.Trees.{nodes, nodes_of_all};
ghost use Rattle.mv_select_code.specs.Control.Encoded.{call_words, most_words};
ghost use Rattle.mv_variants.specs.Sizes.{up_to_greatest};

use mv_ir::stm::{Callee, Stm};
use mv_ir::tree::Tree;
use mv_num::list::List;

/// Whether some code has no more words than other code.
pub(crate) fn is_no_longer(code: &List<Stm>, than: &List<Stm>) -> bool
    ensures { result ≡ true → most_words code.now ≤ most_words than.now }
{
    let words = words_of(code);
    words < u64::MAX && words <= words_of(than)
}

#[tactic(auto, using(mv_expand::proofs::Counting::counts))]
fn tree_words(tree: &Tree) -> u64
    ensures { result ≡ up_to_greatest (2 * nodes tree.now) }
{
    match tree {
        Tree::Number(_) => 2,
        Tree::Temp(_) => 2,
        Tree::Global(_) => 2,
        Tree::Function(_) => 2,
        Tree::Unary(_, a) => tree_words(a.get()).saturating_add(2),
        Tree::Binary(_, a, b) => tree_words(a.get())
            .saturating_add(tree_words(b.get()))
            .saturating_add(2),
        Tree::Narrow(_, a) => tree_words(a.get()).saturating_add(2),
    }
}

fn trees_words(trees: &List<Tree>) -> u64
    ensures { result ≡ up_to_greatest (2 * nodes_of_all trees.now) }
{
    let mut words = 0u64;
    for tree in trees.as_slice() {
        words = words.saturating_add(tree_words(tree));
    }
    words
}

fn goal_words(callee: &Callee) -> u64
    ensures { result ≡ up_to_greatest (2 * nodes_of_all (callee_trees callee.now) + call_words callee.now) }
{
    match callee {
        Callee::Direct(_) => 16,
        Callee::Through(tree) => tree_words(tree).saturating_add(16),
        Callee::Switched(_) => 16,
        Callee::Expanded => 2,
    }
}

#[cycle(counted)]
fn words_of(code: &List<Stm>) -> u64
    ensures { result ≡ up_to_greatest (most_words code.now) }
{
    let mut words = 0u64;
    for stm in code.as_slice() {
        words = words.saturating_add(stm_words(stm));
    }
    words
}

#[cycle(counted)]
#[tactic(auto, using(crate::proofs::Counted::word_counts))]
fn stm_words(stm: &Stm) -> u64
    ensures { result ≡ up_to_greatest (most_words (stm.now ∷ [])) }
{
    match stm {
        Stm::Set(_, v) => tree_words(v).saturating_add(1),
        Stm::SetGlobal(_, v) => tree_words(v).saturating_add(2),
        Stm::Divide(_, _, a, b) => both_words(a, b).saturating_add(4),
        Stm::Check(_, i) => tree_words(i).saturating_add(4),
        Stm::Read(_, _, i) => tree_words(i).saturating_add(9),
        Stm::Write(_, i, v) => both_words(i, v).saturating_add(8),
        Stm::Zero(_) => 7,
        Stm::If(t, a, b) => tree_words(t)
            .saturating_add(words_of(a))
            .saturating_add(words_of(b))
            .saturating_add(3),
        Stm::Loop(b) => words_of(b).saturating_add(1),
        Stm::Block(b) => words_of(b),
        Stm::Break(_) => 1,
        Stm::Back(_) => 1,
        Stm::Call(_, f, args) => goal_words(f).saturating_add(trees_words(args)),
        Stm::Known(_, _, args) => trees_words(args).saturating_add(7),
        Stm::Return(v) => tree_words(v).saturating_add(1),
    }
}

fn both_words(a: &Tree, b: &Tree) -> u64
    ensures { result ≡ up_to_greatest (2 * (nodes a.now + nodes b.now)) }
{
    tree_words(a).saturating_add(tree_words(b))
}
