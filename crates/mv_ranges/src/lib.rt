//! Indices that are below the length of their array.
//!
//! - `with_promises`: the body means what the given one means, traps included, at no greater cost, in each frame, whatever it holds at first, and under each
//!   numbering (`KeepsBody`). It is the same but for arrays: where the index of an access is known to be below the array's length, the array is one whose index is
//!   promised to be below a number (`specs/Marked.antt`). Which accesses these are is not said.
//! - What is known is found in one walk over the code in the order in which it runs: ranges of temporaries, by what is put into them and by the choices that
//!   led there, and temporaries that were an index of an array. What is claimed of a loop or a block is shown wherever it starts again and is left; what isn't
//!   so is claimed no more, and the loop walked again.
#![tactic(auto)]

ghost use Rattle.std.specs.Prelude.{◌≡◌, IfOk};
ghost use Rattle.mv_ranges.specs.Marked.{IsMarkedBody};

mod around;
mod claims;
mod facts;
mod range;
mod trees;
mod walk;

use crate::around::Around;
use crate::walk::{Ground, Stop, walk_code};
use mv_ir::body::Body;
use mv_ir::stm::Stm;
use mv_num::list::List;
use std::alloc::{AllocError, Global};

/// The body with promises of indices where they are known to hold.
#[tactic(auto, using(crate::proofs::Codes::marked_body, crate::proofs::Codes::same_body))]
pub fn with_promises(alloc: Global, body: Body) -> Result<Body, AllocError>
    ensures { IfOk result (IsMarkedBody body) }
{
    let ground = Ground {
        temps: body.temps,
        rooms: body.rooms.as_slice(),
        arrays: body.arrays.as_slice(),
    };
    let mut around = Around::new(alloc);
    match walk_code(alloc, ground, &mut around, List::new(alloc), &body.code) {
        Ok((code, _)) => Ok(with_code(body, code)),
        Err(Stop::Refuted(_, _, _)) => Ok(body),
        Err(Stop::Memory(error)) => Err(error),
    }
}

// A body with other code.
fn with_code(body: Body, code: List<Stm>) -> Body
    ensures { result ≡ record body { code = code } }
{
    let Body {
        params,
        temps,
        arrays,
        code: _,
        rooms,
        marked,
        switches,
    } = body;
    Body {
        params,
        temps,
        arrays,
        code,
        rooms,
        marked,
        switches,
    }
}
