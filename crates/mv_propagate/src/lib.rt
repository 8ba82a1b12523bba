//! What temporaries hold, read in their place: copy propagation, and elements that aren't loaded again.
//!
//! - `propagate`: the body means what the given one means, traps included, at no greater cost, in each frame, whatever it holds at first, and under each
//!   numbering (`KeepsBody`). The code is walked in the order in which it runs (`specs/Propagating.antt`). Behind `Set(t, v)`, where v is a number or a
//!   temporary before t, this is read in place of t until one of them is written; and behind `Read(t, a, i)`, where i is such a value, another `Read` of the
//!   same element is a `Set` of what t holds, until one of them is written, the array is, or something is called.
//! - Behind a choice is known what is known behind both sides. Within a loop and behind a loop or a block nothing is known. At most 16 facts are kept, the newest.
//! - What is set stays set, for tidying to take where nothing reads it any more.
//! - A whole body stays whole, and a well-formed one well formed. It reads no global scalar and no global array that the given one doesn't read. Its
//!   greatest tree depth, statements, tree nodes and calls are at most those of the given one. `params`, `temps`, `arrays`, `rooms`, `marked` and `switches`
//!   are the same.
#![tactic(auto)]

ghost use Rattle.std.specs.Prelude.{IfOk};
ghost use Rattle.mv_propagate.specs.Propagated.{IsPropagated};

mod facts;
mod trees;
mod walk;

use crate::walk::propagate_code;
use mv_ir::body::Body;
use mv_num::list::List;
use std::alloc::{AllocError, Global};

/// The body with what temporaries are known to hold in place of reads of them.
pub fn propagate(alloc: Global, body: &Body) -> Result<Body, AllocError>
    ensures { IfOk result (λ made. IsPropagated body.now made) }
{
    let none = List::new(alloc);
    let walk = propagate_code(alloc, body.temps, &none, &body.code)?;
    Ok(Body {
        params: body.params,
        temps: body.temps,
        arrays: body.arrays.copied(alloc)?,
        code: walk.code,
        rooms: body.rooms.copied(alloc)?,
        marked: body.marked.copied(alloc)?,
        switches: body.switches.copied(alloc)?,
    })
}
