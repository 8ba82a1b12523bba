// Loops and blocks that give way to their statements: where nothing in them leads out of them but a jump at their end.
ghost use Rattle.std.specs.Prelude.{◌≡◌, ◌++◌, ◌∷◌, [], IfOk, OnOk};
ghost use Rattle.mv_fold.specs.Opened.{levels, most_levels, leaves, without_leave, target, end_target, leave, from_outside, blocked, looped};

use mv_ir::stm::Stm;
use mv_num::list::List;
use std::alloc::{AllocError, Global};

/// Code of one statement.
pub fn alone(alloc: Global, stm: Stm) -> Result<List<Stm>, AllocError>
    ensures { IfOk result (λ code. code ≡ stm ∷ []) }
{
    let mut code = List::new(alloc);
    code.push(stm)?;
    Ok(code)
}

#[cycle(levels)]
fn most_levels(code: &List<Stm>) -> u64
    ensures { result ≡ most_levels code.now }
{
    let mut most = 0;
    for stm in code.as_slice() {
        most = levels(stm).max(most);
    }
    most
}

// How many of the loops and blocks around a statement its jumps leave, or start again.
#[cycle(levels)]
#[tactic(auto, using(crate::proofs::Levels::leveling))]
fn levels(stm: &Stm) -> u64
    ensures { result ≡ levels stm.now }
{
    match stm {
        Stm::If(_, a, b) => most_levels(a).max(most_levels(b)),
        Stm::Loop(b) => most_levels(b).saturating_sub(1),
        Stm::Block(b) => most_levels(b).saturating_sub(1),
        Stm::Break(n) => *n as u64 + 1,
        Stm::Back(n) => *n as u64 + 1,
        Stm::Set(_, _) => 0,
        Stm::SetGlobal(_, _) => 0,
        Stm::Divide(_, _, _, _) => 0,
        Stm::Check(_, _) => 0,
        Stm::Read(_, _, _) => 0,
        Stm::Write(_, _, _) => 0,
        Stm::Zero(_) => 0,
        Stm::Call(_, _, _) => 0,
        Stm::Known(_, _, _) => 0,
        Stm::Return(_) => 0,
    }
}

// Whether a statement leaves what stands around it.
#[tactic(auto, using(crate::proofs::Ends::leaving))]
fn leaves(stm: &Stm) -> bool
    ensures { result ≡ leaves stm.now }
{
    match stm {
        Stm::Break(_) => true,
        Stm::Set(_, _) => false,
        Stm::SetGlobal(_, _) => false,
        Stm::Divide(_, _, _, _) => false,
        Stm::Check(_, _) => false,
        Stm::Read(_, _, _) => false,
        Stm::Write(_, _, _) => false,
        Stm::Zero(_) => false,
        Stm::If(_, _, _) => false,
        Stm::Loop(_) => false,
        Stm::Block(_) => false,
        Stm::Back(_) => false,
        Stm::Call(_, _, _) => false,
        Stm::Known(_, _, _) => false,
        Stm::Return(_) => false,
    }
}

// Code without the `Break` that ends it.
fn without_leave(code: List<Stm>) -> List<Stm>
    ensures { result ≡ without_leave code }
{
    let mut stms = code.into_vec();
    let count = stms.len();
    if count > 0 && leaves(&stms[count - 1]) {
        stms.truncate(count - 1);
    }
    List::from_vec(stms)
}

// Which of the loops and blocks around it a `Break` leaves.
#[tactic(auto, using(crate::proofs::Levels::targets))]
fn target(stm: &Stm) -> Option<u32>
    ensures { result ≡ target stm.now }
{
    match stm {
        Stm::Break(n) => Some(*n),
        Stm::Set(_, _) => None,
        Stm::SetGlobal(_, _) => None,
        Stm::Divide(_, _, _, _) => None,
        Stm::Check(_, _) => None,
        Stm::Read(_, _, _) => None,
        Stm::Write(_, _, _) => None,
        Stm::Zero(_) => None,
        Stm::If(_, _, _) => None,
        Stm::Loop(_) => None,
        Stm::Block(_) => None,
        Stm::Back(_) => None,
        Stm::Call(_, _, _) => None,
        Stm::Known(_, _, _) => None,
        Stm::Return(_) => None,
    }
}

#[tactic(auto, using(crate::proofs::Levels::ends))]
fn end_target(code: &[Stm]) -> Option<u32>
    ensures { result ≡ end_target code.now }
{
    let count = code.len();
    if count == 0 {
        return None;
    }
    target(&code[count - 1])
}

#[tactic(auto, using(crate::proofs::Levels::outsides))]
fn from_outside(level: Option<u32>) -> Option<u32>
    ensures { result ≡ from_outside level }
{
    match level {
        Some(n) => { if n == 0 { None } else { Some(n - 1) } }
        None => None,
    }
}

#[tactic(auto, using(crate::proofs::Levels::leavings))]
fn add_leave(code: &mut List<Stm>, level: Option<u32>) -> Result<(), AllocError>
    ensures { OnOk result (code.new ≡ code.old ++ leave level) }
{
    match level {
        Some(n) => Ok(code.push(Stm::Break(n))?),
        None => Ok(()),
    }
}

/// A block, or its statements where nothing in it leads out of it but a `Break` at its end.
#[tactic(auto, using(crate::proofs::Levels::blocks))]
pub fn blocked(alloc: Global, b: List<Stm>) -> Result<List<Stm>, AllocError>
    ensures { IfOk result (λ code. code ≡ blocked b) }
{
    let end = end_target(b.as_slice());
    let mut front = without_leave(b);
    if most_levels(&front) == 0 {
        add_leave(&mut front, from_outside(end))?;
        Ok(front)
    } else {
        add_leave(&mut front, end)?;
        alone(alloc, Stm::Block(front))
    }
}

/// A loop, or its statements where a `Break` ends it and nothing else in it leads out of it.
#[tactic(auto, using(crate::proofs::Levels::loops))]
pub fn looped(alloc: Global, b: List<Stm>) -> Result<List<Stm>, AllocError>
    ensures { IfOk result (λ code. code ≡ looped b) }
{
    let end = end_target(b.as_slice());
    let mut front = without_leave(b);
    if end.is_some() && most_levels(&front) == 0 {
        add_leave(&mut front, from_outside(end))?;
        Ok(front)
    } else {
        add_leave(&mut front, end)?;
        alone(alloc, Stm::Loop(front))
    }
}
