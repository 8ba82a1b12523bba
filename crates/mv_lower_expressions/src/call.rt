// Calls, with arguments that are lowered.
ghost use Rattle.std.specs.Prelude.{◌≡◌, ◌+◌, ◌<◌, ◌^◌, ◌∷◌, IfOk, map, length};
ghost use Rattle.mv_source_forms.specs.Names.{is_void};
ghost use Rattle.mv_lower_spec.specs.Lowered.{lower_call_to, last_of, but_last};
ghost use Rattle.mv_lower_expressions.specs.Values.{seen};
ghost use Rattle.mv_lower_expressions.specs.Calls.{seen_arguments, arguments_of, prepended, direct_of, through_of, switched_of, known_of};

use crate::value::{Value, followed_by, followed_by_all, is_empty, kept_if};
use mv_ast::program::{CType, Known};
use mv_ir::stm::{Callee, Stm};
use mv_ir::tree::Tree;
use mv_num::list::List;
use mv_num::results;
use std::alloc::{AllocError, Global};

/// The code of arguments, and their trees where it ends.
#[derive(Drop)]
pub struct Arguments {
    pub code: List<Stm>,
    pub trees: List<Tree>,
    pub top: u32,
}

/// Whether a type has no values.
pub fn is_void(ctype: CType) -> bool
    ensures { result ≡ is_void ctype }
{
    match ctype {
        CType::Void => true,
        CType::Scalar(_) => false,
        CType::Pointer(_) => false,
    }
}

fn front(tree: Tree, trees: List<Tree>) -> Result<List<Tree>, AllocError>
    ensures { IfOk result (λ all. all ≡ tree ∷ trees) }
{
    let mut all = trees.into_vec();
    all.insert(0, tree)?;
    Ok(List::from_vec(all))
}

// An argument before the others. It stays a tree only where they have no code.
#[tactic(auto, using(crate::proofs::Emitting::empties))]
fn prepend(value: Value, rest: Arguments, n: u32) -> Result<Arguments, AllocError>
    requires { n + 1 < 2 ^ 32 }
    ensures { IfOk result (λ all. seen_arguments all ≡ prepended (seen value) (seen_arguments rest) n) }
{
    let stays = is_empty(&rest.code);
    let (rest, value) = results::both(rest, kept_if(stays, value, n))?;
    let code = followed_by_all(value.code, rest.code);
    let ((tree, trees), code) = results::both((value.tree, rest.trees), code)?;
    let (code, trees) = results::both(code, front(tree, trees))?;
    Ok(Arguments {
        code,
        trees,
        top: value.top.max(rest.top),
    })
}

// Arguments, each lowered one temporary above the one before it.
fn all_arguments(alloc: Global, values: List<Value>, n: u32) -> Result<Arguments, AllocError>
    requires { n + length values < 2 ^ 32 }
    ensures { IfOk result (λ all. seen_arguments all ≡ arguments_of (map seen values) n) }
{
    let mut items = values.into_vec();
    let mut all = Arguments {
        code: List::new(alloc),
        trees: List::new(alloc),
        top: n + items.len() as u32,
    };
    while let Some(value) = items.pop() {
        all = prepend(value, all, n + items.len() as u32)?;
    }
    Ok(all)
}

#[tactic(auto, using(crate::proofs::Emitting::emitted))]
fn call_to(void: bool, callee: Callee, all: Arguments, n: u32) -> Result<Value, AllocError>
    requires { n + 1 < 2 ^ 32 }
    ensures { IfOk result (λ v. seen v ≡ lower_call_to void callee (seen_arguments all) all.trees n) }
{
    let Arguments { code, trees, top } = all;
    let top = (n + 1).max(top);
    if void {
        Ok(Value {
            code: followed_by(code, Stm::Call(None, callee, trees))?,
            tree: Tree::Number(0),
            top,
        })
    } else {
        Ok(Value {
            code: followed_by(code, Stm::Call(Some(n), callee, trees))?,
            tree: Tree::Temp(n),
            top,
        })
    }
}

/// A direct call (C11 6.5.2.2).
#[tactic(auto, unfolding(crate::specs::Calls::direct_of, crate::specs::Calls::arguments_of))]
pub fn direct(
    alloc: Global,
    void: bool,
    function: u32,
    values: List<Value>,
    n: u32,
) -> Result<Value, AllocError>
    requires { n + 1 + length values < 2 ^ 32 }
    ensures { IfOk result (λ v. seen v ≡ direct_of void function (map seen values) n) }
{
    let all = all_arguments(alloc, values, n)?;
    call_to(void, Callee::Direct(function), all, n)
}

/// A call through a pointer, which is the last of the values.
#[tactic(auto, unfolding(crate::specs::Calls::through_of))]
pub fn through(alloc: Global, void: bool, values: List<Value>, n: u32) -> Result<Value, AllocError>
    requires { n + 1 + length values < 2 ^ 32 }
    ensures { IfOk result (λ v. seen v ≡ through_of void (map seen values) n) }
{
    let Arguments { code, trees, top } = all_arguments(alloc, values, n)?;
    let mut args = trees.into_vec();
    let callee = last(&mut args);
    let all = Arguments {
        code,
        trees: List::from_vec(args),
        top,
    };
    call_to(void, Callee::Through(callee), all, n)
}

/// A call through a pointer switch.
#[tactic(auto, unfolding(crate::specs::Calls::switched_of, crate::specs::Calls::arguments_of))]
pub fn switched(
    alloc: Global,
    void: bool,
    global: u32,
    values: List<Value>,
    n: u32,
) -> Result<Value, AllocError>
    requires { n + 1 + length values < 2 ^ 32 }
    ensures { IfOk result (λ v. seen v ≡ switched_of void global (map seen values) n) }
{
    let all = all_arguments(alloc, values, n)?;
    call_to(void, Callee::Switched(global), all, n)
}

// Takes the last tree off.
#[tactic(auto, using(crate::proofs::Emitting::emitted, crate::proofs::Arguments::lasts))]
fn last(trees: &mut Vec<Tree>) -> Tree
    ensures last { result ≡ last_of trees.old.items }
    ensures rest { trees.new.items ≡ but_last trees.old.items }
{
    match trees.pop() {
        Some(tree) => tree,
        None => Tree::Number(0),
    }
}

/// A call of a known function.
#[tactic(auto, using(crate::proofs::Emitting::emitted), unfolding(crate::specs::Calls::known_of, crate::specs::Calls::arguments_of))]
pub fn known(alloc: Global, known: Known, values: List<Value>, n: u32) -> Result<Value, AllocError>
    requires { n + 1 + length values < 2 ^ 32 }
    ensures { IfOk result (λ v. seen v ≡ known_of known (map seen values) n) }
{
    let Arguments { code, trees, top } = all_arguments(alloc, values, n)?;
    Ok(Value {
        code: followed_by(code, Stm::Known(Some(n), known, trees))?,
        tree: Tree::Temp(n),
        top: (n + 1).max(top),
    })
}
