//! Numbers carried through temporaries: what is read of a temporary whose number is known is that number.
//!
//! - `carry`: the body means what the given one means, traps included, at no greater cost, in each frame, whatever it holds at first, and under each
//!   numbering (`KeepsBody`). It has the same statements in the same places; only trees differ: a temporary that a constant was set to is that constant
//!   there, and operators on constants are computed (`specs/Carrying.antt` is exact).
//! - A whole body stays whole, and a well-formed one well formed. It reads no global scalar and no global array that the given one doesn't read. Its
//!   greatest tree depth, statements, tree nodes, calls and the greatest number of intervals over one position are at most those of the given one.
//!   `params`, `temps`, `arrays`, `rooms`, `marked` and `switches` are the same.
//! - A choice on a constant stays, for `mv_fold` to take. What is known behind it is what is known on the side that runs.
#![tactic(auto)]

ghost use Rattle.std.specs.Prelude.{◌≡◌, [], IfOk};
ghost use Rattle.mv_carry.specs.declared.facts.Reach.TheVariants.{Knowing};
ghost use Rattle.mv_carry.specs.Carried.{IsCarried};
ghost use Rattle.mv_carry.specs.Carrying.{outermost, carried_code};

mod facts;
mod trees;
mod walk;
mod writes;

use crate::facts::Reach;
use crate::walk::{Within, carry_code};
use mv_ir::body::Body;
use mv_ir::stm::Stm;
use mv_num::list::List;
use std::alloc::{AllocError, Global};

/// The body with each read of a temporary that is known to hold a number replaced by the number, from its start on. At most 32 temporaries are known at
/// a time, those that were set last.
pub fn carry(alloc: Global, body: &Body) -> Result<Body, AllocError>
    ensures { IfOk result (λ carried. IsCarried body.now carried) }
{
    Ok(Body {
        params: body.params,
        temps: body.temps,
        arrays: body.arrays.copied(alloc)?,
        code: carried(alloc, body.temps, &body.code)?,
        rooms: body.rooms.copied(alloc)?,
        marked: body.marked.copied(alloc)?,
        switches: body.switches.copied(alloc)?,
    })
}

fn carried(alloc: Global, temps: u32, code: &List<Stm>) -> Result<List<Stm>, AllocError>
    ensures { IfOk result (λ carried. carried ≡ (carried_code temps outermost (Knowing []) code.now).code) }
{
    let outermost = Within {
        looks: 4,
        start: Reach::Knowing(List::new(alloc)),
    };
    let walk = carry_code(alloc, temps, &outermost, &outermost.start, code)?;
    Ok(walk.code)
}
