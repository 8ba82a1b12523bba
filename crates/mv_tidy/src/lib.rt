//! Bodies whose code takes fewer steps.
//!
//! - `tidy`: the body means what the given one means, traps included, at no greater cost, in each frame, whatever it holds at first, and under each numbering
//!   (`KeepsBody`). In three steps (`specs/Tidied.antt`):
//!   1. Plainer trees: constants computed, and operators and conversions that change nothing left out (`mv_plain`).
//!   2. Statements joined: a result that is only moved to another temporary is made there, and a value that was put into a temporary for the next statement
//!      alone, or that this one sets again, stands in that statement, where it is all that the statement computes, or one node, or a truth of which the
//!      statement only asks whether it is one. A set of a temporary goes that nothing reads, or that gives it what it has, and so does what stands behind a
//!      jump, unless it calls (`specs/Tidying.antt`).
//!   3. Two choices as one, where both sides of the first end by setting what alone the second asks for, one of them to a number (`specs/Choosing.antt`).
//! - `join`: the same after the first two steps alone, with no choices put together.
//! - A whole body stays whole, and a well-formed one well formed. It reads no global scalar and no global array that the given one doesn't read. Its
//!   greatest tree depth, statements, tree nodes and calls are at most those of the given one. `params`, `temps`, `arrays`, `rooms`, `marked` and `switches`
//!   are the same.
//! - Nothing is said of how many intervals stand over one position: a place that a result is made in may be in use while the result's operands are. Who
//!   tidies a body compares (`mv_variants`).
#![tactic(auto)]

ghost use Rattle.std.specs.Prelude.{◌≡◌, IfOk};
ghost use Rattle.mv_tidy.specs.Tidied.{IsPlainJoined, IsTidied, IsTidiedCode};

mod attach;
mod choices;
mod one;
mod quiet;
mod trees;
mod walk;

use crate::choices::choose;
use crate::walk::tidy_code;
use mv_ir::body::Body;
use mv_ir::stm::Stm;
use mv_num::list::List;
use mv_plain::plain_code;
use mv_regalloc::liveness::Liveness;
use std::alloc::{AllocError, Global};

/// The body with tidied code.
pub fn tidy(alloc: Global, body: &Body) -> Result<Body, AllocError>
    ensures { IfOk result (λ tidied. IsTidied body.now tidied) }
{
    let code = tidied(alloc, body.temps, &body.code)?;
    with_code(alloc, body, code)
}

/// The body after the first two of the three steps alone: it is what is done first where `tidy` follows after another step.
pub fn join(alloc: Global, body: &Body) -> Result<Body, AllocError>
    ensures { IfOk result (λ joined. IsTidied body.now joined) }
{
    let code = plain_joined(alloc, body.temps, &body.code)?;
    with_code(alloc, body, code)
}

// The three steps.
fn tidied(alloc: Global, temps: u32, code: &List<Stm>) -> Result<List<Stm>, AllocError>
    ensures { IfOk result (IsTidiedCode temps code.now) }
{
    let joined = plain_joined(alloc, temps, code)?;
    choose(alloc, temps, joined)
}

// The first two steps.
fn plain_joined(alloc: Global, temps: u32, code: &List<Stm>) -> Result<List<Stm>, AllocError>
    ensures { IfOk result (IsPlainJoined temps code.now) }
{
    let mut liveness = Liveness::new(alloc, temps as usize)?;
    let plain = plain_code(alloc, code)?;
    tidy_code(alloc, temps, plain, &mut liveness)
}

// The body with other code.
fn with_code(alloc: Global, body: &Body, code: List<Stm>) -> Result<Body, AllocError>
    ensures { IfOk result (λ made. made ≡ record body.now { code = code }) }
{
    Ok(Body {
        params: body.params,
        temps: body.temps,
        arrays: body.arrays.copied(alloc)?,
        code,
        rooms: body.rooms.copied(alloc)?,
        marked: body.marked.copied(alloc)?,
        switches: body.switches.copied(alloc)?,
    })
}
