// The numbers that stand in code fit the types of their fields, and each is read here so that a proof knows it.

ghost use Rattle.mv_ir.specs.Measures.{callee_trees};
ghost use Rattle.std.specs.Prelude.{[], ◌∷◌};
ghost use Rattle.mv_select.specs.Bodies.SelectedBodies.{tree_constants, constants_of_all, IsOrder, AreWords, HasWords};

use mv_ast::program::Known;
use mv_ir::stm::{Callee, Stm};
use mv_ir::tree::Tree;
use mv_num::list::List;

#[tactic(auto, using(crate::proofs::OfBodies::Holding::tree_words))]
fn tree_has_words(tree: &Tree)
    ensures { AreWords (tree_constants tree.now) }
{
    match tree {
        Tree::Number(n) => {
            let _constant = *n;
        }
        Tree::Temp(_) => {}
        Tree::Global(_) => {}
        Tree::Function(_) => {}
        Tree::Unary(_, a) => tree_has_words(a.get()),
        Tree::Binary(_, a, b) => {
            tree_has_words(a.get());
            tree_has_words(b.get());
        }
        Tree::Narrow(_, a) => tree_has_words(a.get()),
    }
}

fn trees_have_words(trees: &List<Tree>)
    ensures { AreWords (constants_of_all trees.now) }
{
    for tree in trees.as_slice() {
        tree_has_words(tree);
    }
}

#[tactic(auto, using(crate::proofs::OfBodies::Holding::callees))]
fn callee_has_words(callee: &Callee)
    ensures { AreWords (constants_of_all (callee_trees callee.now)) }
{
    match callee {
        Callee::Direct(_) | Callee::Switched(_) | Callee::Expanded => {}
        Callee::Through(tree) => tree_has_words(tree),
    }
}

fn known_has_words(known: Known)
    ensures { IsOrder known }
{
    match known {
        Known::Plan(_code, _index) => {}
        _ => {}
    }
}

/// The constants of code are words, and the numbers of its orders a byte and a word, since its types have no others. The walk
/// changes nothing; it is for the clause.
#[cycle(words)]
pub fn code_has_words(code: &List<Stm>)
    ensures { HasWords code.now }
{
    for stm in code.as_slice() {
        stm_has_words(stm);
    }
}

#[cycle(words)]
fn stm_has_words(stm: &Stm)
    ensures { HasWords (stm.now ∷ []) }
{
    match stm {
        Stm::Set(_, v) => tree_has_words(v),
        Stm::SetGlobal(_, v) => tree_has_words(v),
        Stm::Divide(_, _, a, b) => {
            tree_has_words(a);
            tree_has_words(b);
        }
        Stm::Check(_, i) => tree_has_words(i),
        Stm::Read(_, _, i) => tree_has_words(i),
        Stm::Write(_, i, v) => {
            tree_has_words(i);
            tree_has_words(v);
        }
        Stm::Zero(_) => {}
        Stm::If(t, a, b) => {
            tree_has_words(t);
            code_has_words(a);
            code_has_words(b);
        }
        Stm::Loop(b) => code_has_words(b),
        Stm::Block(b) => code_has_words(b),
        Stm::Break(_) => {}
        Stm::Back(_) => {}
        Stm::Call(_, f, args) => {
            callee_has_words(f);
            trees_have_words(args);
        }
        Stm::Known(_, k, args) => {
            known_has_words(*k);
            trees_have_words(args);
        }
        Stm::Return(v) => tree_has_words(v),
    }
}
