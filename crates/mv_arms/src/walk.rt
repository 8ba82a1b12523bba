//! The walk over code.
ghost use Rattle.std.specs.Prelude.{◌≡◌, ◌∷◌, [], length, List, IfOk};
ghost use Rattle.mv_ir.specs.declared.stm.Stm.{Stm};
ghost use Rattle.mv_ir.specs.Rolled as rolled;
ghost use Rattle.mv_arms.specs.Arms.{Arms, Nests};
ghost use Rattle.mv_arms.specs.Walking.{Becomes, NestsCode, IsNextArm};

use crate::copies::copy_still;
use crate::levels::{level, within};
use crate::plan::{ARMS, plan};
use crate::stop::Stop;
use mv_fold::copies::copy_tree;
use mv_ir::stm::Stm;
use mv_num::list::List;
use std::alloc::Global;

/// The code with the arms of its `switch`es reached by one jump, where so many blocks may be added around a statement. `levels` has, for each loop and block
/// around the code, how many were added within that alone, the innermost first.
#[cycle(arms)]
pub fn arms_code(
    alloc: Global,
    temps: u32,
    blocks: usize,
    levels: &List<u32>,
    code: &List<Stm>,
) -> Result<List<Stm>, Stop>
    ensures { IfOk result (Arms temps levels.now code.now) }
{
    let mut made = List::new(alloc);
    for stm in code.as_slice() {
        made.push(arms_stm(alloc, temps, blocks, levels, stm)?)?;
    }
    Ok(made)
}

// What becomes of a statement.
#[cycle(arms)]
#[tactic(auto, using(crate::proofs::Walked::becoming))]
fn arms_stm(
    alloc: Global,
    temps: u32,
    blocks: usize,
    levels: &List<u32>,
    stm: &Stm,
) -> Result<Stm, Stop>
    ensures { IfOk result (λ made. Becomes temps levels.now (stm.now ∷ []) (made ∷ [])) }
{
    match stm {
        Stm::If(t, a, b) => {
            let a = arms_code(alloc, temps, blocks, levels, a)?;
            let b = arms_code(alloc, temps, blocks, levels, b)?;
            Ok(Stm::If(copy_tree(alloc, t)?, a, b))
        }
        Stm::Loop(b) => {
            let inner = within(alloc, 0, levels)?;
            Ok(Stm::Loop(arms_code(alloc, temps, blocks, &inner, b)?))
        }
        Stm::Block(b) => match plan(alloc, temps, blocks, b)? {
            Some(tests) => Ok(Stm::Block(arms_switch(alloc, temps, blocks, levels, b, tests)?)),
            None => {
                let inner = within(alloc, 0, levels)?;
                Ok(Stm::Block(arms_code(alloc, temps, blocks, &inner, b)?))
            }
        },
        Stm::Break(n) => match level(levels.as_slice(), *n) {
            Some(m) => Ok(Stm::Break(m)),
            None => Err(Stop::Unfit),
        },
        Stm::Back(n) => match level(levels.as_slice(), *n) {
            Some(m) => Ok(Stm::Back(m)),
            None => Err(Stop::Unfit),
        },
        _ => copy_still(alloc, stm),
    }
}

// Blocks within blocks, the innermost of the tests, behind each the statements of an arm.
#[cycle(arms)]
fn arms_switch(
    alloc: Global,
    temps: u32,
    blocks: usize,
    levels: &List<u32>,
    code: &List<Stm>,
    tests: List<Stm>,
) -> Result<List<Stm>, Stop>
    ensures { IfOk result (NestsCode temps levels.now tests code.now) }
{
    let stms = code.as_slice();
    let left = blocks.saturating_sub(stms.len().saturating_sub(2));
    let mut made = tests;
    for i in 1..stms.len() {
        let behind = stms.len() - 1 - i;
        made = arms_next(alloc, temps, left, levels, behind, &stms[i], made)?;
    }
    Ok(made)
}

// A block of what was made, and the statements of an arm behind it, where so many arms follow.
#[cycle(arms)]
fn arms_next(
    alloc: Global,
    temps: u32,
    blocks: usize,
    levels: &List<u32>,
    behind: usize,
    arm: &Stm,
    inner: List<Stm>,
) -> Result<List<Stm>, Stop>
    ensures { IfOk result (IsNextArm temps levels.now behind arm.now inner) }
{
    if behind > ARMS {
        return Err(Stop::Unfit);
    }
    match arm {
        Stm::If(_, _, b) => {
            let levels = within(alloc, behind as u32, levels)?;
            let code = arms_code(alloc, temps, blocks, &levels, b)?;
            let mut made = List::new(alloc);
            made.push(Stm::Block(inner))?;
            made.append(code)?;
            Ok(made)
        }
        _ => Err(Stop::Unfit),
    }
}
