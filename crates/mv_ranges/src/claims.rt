//! What is tried to be claimed of loops and blocks. Any claim is right: the walk shows whether it holds.

use crate::around::Claim;
use crate::facts::{Fact, upwards};
use crate::range::HALF;
use crate::trees::{range_of, range_of_division};
use mv_ir::operators::SUB;
use mv_ir::stm::Stm;
use mv_ir::tree::Tree;
use mv_num::list::List;
use std::alloc::{AllocError, Global};

/// How deep within others a loop or a block may stand, so that something is claimed of it.
const DEEPEST: usize = 8;

#[cycle(writes)]
fn writes(code: &List<Stm>, temp: u32) -> bool {
    for stm in code.as_slice() {
        if stm_writes(stm, temp) {
            return true;
        }
    }
    false
}

#[cycle(writes)]
fn stm_writes(stm: &Stm, temp: u32) -> bool {
    match stm {
        Stm::Set(t, _) => *t == temp,
        Stm::Divide(t, _, _, _) => *t == temp,
        Stm::Read(t, _, _) => *t == temp,
        Stm::Call(Some(t), _, _) => *t == temp,
        Stm::Known(Some(t), _, _) => *t == temp,
        Stm::If(_, a, b) => writes(a, temp) || writes(b, temp),
        Stm::Loop(b) => writes(b, temp),
        Stm::Block(b) => writes(b, temp),
        _ => false,
    }
}

// Whether some code puts a sum or a difference into a temporary.
#[cycle(counts)]
fn counts(code: &List<Stm>, temp: u32) -> bool {
    for stm in code.as_slice() {
        if stm_counts(stm, temp) {
            return true;
        }
    }
    false
}

#[cycle(counts)]
fn stm_counts(stm: &Stm, temp: u32) -> bool {
    match stm {
        Stm::Set(t, Tree::Binary(operator, _, _)) => *t == temp && *operator <= SUB,
        Stm::If(_, a, b) => counts(a, temp) || counts(b, temp),
        Stm::Loop(b) => counts(b, temp),
        Stm::Block(b) => counts(b, temp),
        _ => false,
    }
}

// What is known of temporaries that a statement doesn't write.
fn unwritten(alloc: Global, facts: &[Fact], stm: &Stm) -> Result<List<Fact>, AllocError> {
    let mut kept = List::new(alloc);
    for fact in facts {
        match fact {
            Fact::Within(temp, _) if !stm_writes(stm, *temp) => kept.push(*fact)?,
            _ => {}
        }
    }
    Ok(kept)
}

// What would be known behind a statement, where no jump leads there.
fn behind(alloc: Global, facts: &[Fact], stm: &Stm) -> Result<List<Fact>, AllocError> {
    let range = match stm {
        Stm::Set(_, v) => range_of(facts, v),
        Stm::Divide(_, operator, a, b) => range_of_division(facts, *operator, a, b),
        _ => None,
    };
    let mut kept = unwritten(alloc, facts, stm)?;
    match (stm, range) {
        (Stm::Set(temp, _), Some(range)) => kept.push(Fact::Within(*temp, range))?,
        (Stm::Divide(temp, _, _, _), Some(range)) => kept.push(Fact::Within(*temp, range))?,
        _ => {}
    }
    Ok(kept)
}

/// What is tried to be claimed of a block, so deep within others: behind it is known what its statements give one behind the other.
pub(crate) fn claim_of_block(
    alloc: Global,
    depth: usize,
    facts: &[Fact],
    code: &List<Stm>,
) -> Result<Claim, AllocError> {
    let mut claim = Claim::nothing(alloc);
    if depth < DEEPEST {
        let mut exit = copied(alloc, facts)?;
        for stm in code.as_slice() {
            exit = behind(alloc, exit.as_slice(), stm)?;
        }
        claim.exit = exit;
    }
    Ok(claim)
}

fn copied(alloc: Global, facts: &[Fact]) -> Result<List<Fact>, AllocError> {
    let mut copy = List::new(alloc);
    for fact in facts {
        match fact {
            Fact::Within(_, _) => copy.push(*fact)?,
            Fact::Below(_, _) => {}
        }
    }
    Ok(copy)
}

/// What is tried to be claimed of a loop, so deep within others: what was known before it, and of a temporary that counts, that it gets no less and isn't
/// negative; and the same behind it.
pub(crate) fn claim_of_loop(
    alloc: Global,
    depth: usize,
    facts: &[Fact],
    code: &List<Stm>,
) -> Result<Claim, AllocError> {
    let mut claim = Claim::nothing(alloc);
    if depth >= DEEPEST {
        return Ok(claim);
    }
    for fact in facts {
        match fact {
            Fact::Within(temp, range) if range.high < HALF && counts(code, *temp) => {
                claim.start.push(upwards(*temp, *range))?;
                claim.exit.push(upwards(*temp, *range))?;
            }
            Fact::Within(_, _) => {
                claim.start.push(*fact)?;
                claim.exit.push(*fact)?;
            }
            Fact::Below(_, _) => {}
        }
    }
    Ok(claim)
}
