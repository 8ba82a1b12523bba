// What code names.
ghost use Rattle.std.specs.Prelude.{◌≡◌, true, IfOk, slice_set};
ghost use Rattle.mv_lower.specs.Naming.{seen_marks, marked, tree_names, trees_names, global_names, function_names, array_names, callee_names, stm_names, code_names};
ghost use Rattle.mv_ir.specs.Measures.{tree_reads};
ghost use Rattle.mv_ast.specs.Flags.{flagged};

use mv_ir::stm::{Array, Callee, Stm};
use mv_ir::tree::Tree;
use mv_num::list::List;

/// Flags of the globals that are read as scalars, of those that are stored to, named as arrays or called through as pointer switches, and of the
/// functions that are called.
#[derive(Drop)]
pub struct Marks {
    pub read: Vec<bool>,
    pub stored: Vec<bool>,
    pub called: Vec<bool>,
}

fn flag(flags: &mut Vec<bool>, number: u32)
    ensures { flags.new.items ≡ slice_set flags.old.items number true }
{
    let index = number as usize;
    if index < flags.len() {
        flags[index] = true;
    }
}

#[tactic(auto, using(crate::proofs::Marking::reads))]
fn mark_reads(tree: &Tree, flags: &mut Vec<bool>)
    ensures { flags.new.items ≡ flagged (tree_reads tree.now) flags.old.items }
{
    match tree {
        Tree::Number(_) => {}
        Tree::Temp(_) => {}
        Tree::Global(g) => flag(flags, *g),
        Tree::Function(_) => {}
        Tree::Unary(_, a) => mark_reads(a.get(), flags),
        Tree::Binary(_, a, b) => {
            mark_reads(a.get(), flags);
            mark_reads(b.get(), flags);
        }
        Tree::Narrow(_, a) => mark_reads(a.get(), flags),
    }
}

#[tactic(auto, unfolding(crate::specs::Naming::marked))]
fn mark_tree(tree: &Tree, marks: &mut Marks)
    ensures { seen_marks marks.new ≡ marked (tree_names tree.now) (seen_marks marks.old) }
{
    mark_reads(tree, &mut marks.read);
}

#[tactic(auto, using(crate::proofs::Marking::pushes))]
fn mark_trees(trees: &List<Tree>, marks: &mut Marks)
    ensures { seen_marks marks.new ≡ marked (trees_names trees.now) (seen_marks marks.old) }
{
    for tree in trees.as_slice() {
        mark_tree(tree, marks);
    }
}

#[tactic(auto, unfolding(crate::specs::Naming::marked))]
fn mark_global(global: u32, marks: &mut Marks)
    ensures { seen_marks marks.new ≡ marked (global_names global) (seen_marks marks.old) }
{
    flag(&mut marks.stored, global);
}

#[tactic(auto, unfolding(crate::specs::Naming::marked))]
fn mark_array(array: Array, marks: &mut Marks)
    ensures { seen_marks marks.new ≡ marked (array_names array) (seen_marks marks.old) }
{
    match array {
        Array::Global(g) => flag(&mut marks.stored, g),
        Array::Local(_) => {}
        Array::SureGlobal(g, _) => flag(&mut marks.stored, g),
        Array::SureLocal(_, _) => {}
    }
}

#[tactic(auto, using(crate::proofs::Marking::callees))]
fn mark_callee(callee: &Callee, marks: &mut Marks)
    ensures { seen_marks marks.new ≡ marked (callee_names callee.now) (seen_marks marks.old) }
{
    match callee {
        Callee::Direct(f) => mark_function(*f, marks),
        Callee::Through(tree) => mark_tree(tree, marks),
        Callee::Switched(g) => mark_global(*g, marks),
        Callee::Expanded => {}
    }
}

#[tactic(auto, unfolding(crate::specs::Naming::marked))]
fn mark_function(function: u32, marks: &mut Marks)
    ensures { seen_marks marks.new ≡ marked (function_names function) (seen_marks marks.old) }
{
    flag(&mut marks.called, function);
}

/// Marks what some code names, in one walk over it.
#[cycle(marks)]
#[tactic(auto, using(crate::proofs::Marking::pushes))]
pub fn mark_code(code: &List<Stm>, marks: &mut Marks)
    ensures { seen_marks marks.new ≡ marked (code_names code.now) (seen_marks marks.old) }
{
    for stm in code.as_slice() {
        mark_stm(stm, marks);
    }
}

#[cycle(marks)]
#[tactic(auto, using(crate::proofs::Marking::statements))]
fn mark_stm(stm: &Stm, marks: &mut Marks)
    ensures { seen_marks marks.new ≡ marked (stm_names stm.now) (seen_marks marks.old) }
{
    match stm {
        Stm::Set(_, v) => mark_tree(v, marks),
        Stm::SetGlobal(g, v) => {
            mark_global(*g, marks);
            mark_tree(v, marks);
        }
        Stm::Divide(_, _, a, b) => {
            mark_tree(a, marks);
            mark_tree(b, marks);
        }
        Stm::Check(a, i) => {
            mark_array(*a, marks);
            mark_tree(i, marks);
        }
        Stm::Read(_, a, i) => {
            mark_array(*a, marks);
            mark_tree(i, marks);
        }
        Stm::Write(a, i, v) => {
            mark_array(*a, marks);
            mark_tree(i, marks);
            mark_tree(v, marks);
        }
        Stm::Zero(_) => {}
        Stm::If(t, a, b) => {
            mark_tree(t, marks);
            mark_code(a, marks);
            mark_code(b, marks);
        }
        Stm::Loop(b) => mark_code(b, marks),
        Stm::Block(b) => mark_code(b, marks),
        Stm::Break(_) => {}
        Stm::Back(_) => {}
        Stm::Call(_, f, args) => {
            mark_callee(f, marks);
            mark_trees(args, marks);
        }
        Stm::Known(_, _, args) => mark_trees(args, marks),
        Stm::Return(v) => mark_tree(v, marks),
    }
}
