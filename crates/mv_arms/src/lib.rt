//! The arms of a `switch` reached by one jump.
//!
//! - `with_arms`: the body that is made means what the given one means, traps included, at no greater cost, in each frame, whatever it holds at first, and
//!   under each numbering (`KeepsBody`). A `switch` is a block of tests, which put the place of an arm into a temporary, and of arms, each of which is skipped
//!   where its place is before that. It becomes blocks within blocks, behind each of which stand the statements of an arm, and the tests in the innermost leave
//!   as many of them as lead to the arm that they have chosen (`specs/Arms.antt`).
//! - What skips an arm goes, and all else stays: the tests, the arms, and what they set. A later pass drops what nothing reads.
//! - A whole body stays whole, and a well-formed one well formed. It reads no global scalar and no global array that the given one doesn't read. Its
//!   greatest tree depth, statements, tree nodes and calls are at most those of the given one. `params`, `temps`, `arrays`, `rooms`, `marked` and `switches`
//!   are the same.
//! - It takes a `switch` that is all that stands in its block, as the lowering gives it, with 2 to 32 arms that aren't empty, unless more than 200 blocks would
//!   be added around a statement in all. None is made where no block looks like such a `switch`, or where a jump's number would pass 32 bits.
#![tactic(auto)]

ghost use Rattle.std.specs.Prelude.{◌≡◌, IfOk, IfSome};
ghost use Rattle.mv_arms.specs.Armed.{IsArmed};
ghost use Rattle.mv_arms.specs.Walking.{with_code};

mod copies;
mod levels;
mod plan;
mod stop;
mod walk;

use crate::plan::may_have_arms;
use crate::stop::Stop;
use crate::walk::arms_code;
use mv_ir::body::Body;
use mv_ir::stm::Stm;
use mv_num::list::List;
use std::alloc::{AllocError, Global};

/// How many blocks are added around a statement at most.
const BLOCKS: usize = 200;

/// The body with the arms of its `switch`es reached by one jump, where a block looks like such a `switch` and no jump's number would pass 32 bits.
#[tactic(auto, using(crate::proofs::BodyArmed::made_is))]
pub fn with_arms(alloc: Global, body: &Body) -> Result<Option<Body>, AllocError>
    ensures { IfOk result (λ made. IfSome made (IsArmed body.now)) }
{
    if !may_have_arms(&body.code) {
        return Ok(None);
    }
    let none = List::new(alloc);
    match arms_code(alloc, body.temps, BLOCKS, &none, &body.code) {
        Ok(code) => Ok(Some(with_code(alloc, body, code)?)),
        Err(Stop::Memory) => Err(AllocError),
        Err(Stop::Unfit) => Ok(None),
    }
}

// The body with other code.
fn with_code(alloc: Global, body: &Body, code: List<Stm>) -> Result<Body, AllocError>
    ensures { IfOk result (λ made. made ≡ with_code body.now code) }
{
    Ok(Body {
        params: body.params,
        temps: body.temps,
        arrays: body.arrays.copied(alloc)?,
        code,
        rooms: body.rooms.copied(alloc)?,
        marked: body.marked.copied(alloc)?,
        switches: body.switches.copied(alloc)?,
    })
}
