//! Which arguments of a call can stand themselves where a short body reads its parameters.
ghost use Rattle.std.specs.Prelude.{ℕ, ◌≡◌, ◌<◌, true, false, length, IfOk};
ghost use Rattle.mv_ast.specs.Flags.{is_set};
ghost use Rattle.mv_expand.specs.Placed.{stm_sets, sets_temp};

use crate::measures::depth;
use mv_ir::body::Body;
use mv_ir::stm::Stm;
use mv_ir::tree::Tree;
use mv_num::list::List;
use std::alloc::{AllocError, Global};

#[tactic(auto, using(crate::proofs::Equations::settings))]
fn stm_sets(temp: u32, stm: &Stm) -> bool
    ensures { result ≡ stm_sets temp stm.now }
{
    match stm {
        Stm::Set(t, _) => *t == temp,
        Stm::Divide(t, _, _, _) => *t == temp,
        Stm::SetGlobal(_, _) => false,
        Stm::Check(_, _) => false,
        Stm::Read(_, _, _) => false,
        Stm::Write(_, _, _) => false,
        Stm::Zero(_) => false,
        Stm::If(_, _, _) => false,
        Stm::Loop(_) => false,
        Stm::Block(_) => false,
        Stm::Break(_) => false,
        Stm::Back(_) => false,
        Stm::Call(_, _, _) => false,
        Stm::Known(_, _, _) => false,
        Stm::Return(_) => false,
    }
}

// Whether one of some statements sets a temporary.
#[tactic(auto, using(crate::proofs::Stepwise::sets_next))]
fn sets_temp(temp: u32, code: &List<Stm>) -> bool
    ensures { result ≡ sets_temp temp code.now }
{
    for stm in code.as_slice() {
        if stm_sets(temp, stm) {
            return true;
        }
    }
    false
}

// How often a tree reads a temporary.
fn reads(temp: u32, tree: &Tree) -> u64 {
    match tree {
        Tree::Number(_) => 0,
        Tree::Temp(t) => if *t == temp { 1 } else { 0 },
        Tree::Global(_) => 0,
        Tree::Function(_) => 0,
        Tree::Unary(_, a) => reads(temp, a.get()),
        Tree::Binary(_, a, b) => reads(temp, a.get()).saturating_add(reads(temp, b.get())),
        Tree::Narrow(_, a) => reads(temp, a.get()),
    }
}

// How often straight code reads a temporary.
fn code_reads(temp: u32, code: &List<Stm>) -> u64 {
    let mut count: u64 = 0;
    for stm in code.as_slice() {
        let here = match stm {
            Stm::Set(_, v) => reads(temp, v),
            Stm::Divide(_, _, a, b) => reads(temp, a).saturating_add(reads(temp, b)),
            Stm::Return(v) => reads(temp, v),
            _ => 0,
        };
        count = count.saturating_add(here);
    }
    count
}

// The greatest depth of a tree in straight code.
fn deepest(code: &List<Stm>) -> u64 {
    let mut most: u64 = 0;
    for stm in code.as_slice() {
        let here = match stm {
            Stm::Set(_, v) => depth(v),
            Stm::Divide(_, _, a, b) => depth(a).max(depth(b)),
            Stm::Return(v) => depth(v),
            _ => 0,
        };
        most = most.max(here);
    }
    most
}

fn is_leaf(tree: &Tree) -> bool {
    match tree {
        Tree::Number(_) => true,
        Tree::Temp(_) => true,
        _ => false,
    }
}

// Whether an argument is to stand for a parameter: one node, or one that is computed at most once even so, and leaves the trees shallow.
fn stays(temp: u32, argument: &Tree, code: &List<Stm>) -> bool
    ensures { result ≡ true → sets_temp temp code.now ≡ false }
{
    if sets_temp(temp, code) {
        return false;
    }
    is_leaf(argument)
        || (code_reads(temp, code) <= 1 && depth(argument).saturating_add(deepest(code)) <= 5)
}

/// For each argument of a call whether it stands itself for the parameter, which the body never sets.
pub fn kept(alloc: Global, args: &List<Tree>, body: &Body) -> Result<List<bool>, AllocError>
    requires { length args.now ≡ body.now.params }
    ensures { IfOk result (λ flags. (t : ℕ) → is_set flags t ≡ true → (t < body.now.params) × (sets_temp t body.now.code ≡ false)) }
{
    let items = args.as_slice();
    let mut flags = List::new(alloc);
    for t in 0..body.params {
        flags.push(stays(t, &items[t as usize], &body.code))?;
    }
    Ok(flags)
}
