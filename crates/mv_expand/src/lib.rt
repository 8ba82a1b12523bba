//! Short functions in place of calls of them.
//!
//! - `is_short`: whether a body can stand in place of a call: its code sets temporaries one after the other, over constants, parameters and what was set
//!   before, and returns a value (`specs/Straight.antt`). So it never traps, and means the same in each frame.
//! - `expand`: the body means what the given one means, traps included, at no greater cost, in each frame, whatever it holds at first, and under each
//!   numbering, over callees of which it is known that they do what the short bodies do (`KeepsBodyWith`). In place of a call of a short body stand the
//!   statements of that body, on temporaries of their own behind those of the caller, where they cost no more than the call (`specs/Placed.antt`). Before the
//!   first of them in a list the depth of the call is tested; a later one behind it, in the same turn of a loop, needs no other (`specs/Expanding.antt`).
//! - An argument is put into the temporary that stands for its parameter, or stands itself where the parameter is read. Which of the two is not said.
//! - A whole body stays whole, and a well-formed one well formed. It reads no global scalar and no global array that the given one doesn't read, it has no more
//!   calls, and no tree of it is too deep to be selected for, where none of the given one is. `params`, `arrays`, `rooms`, `marked` and `switches` are the same.
//! - A body with more than 2 ^ 31 temporaries stays as it is, and so does one whose code would become too long for a well-formed body.
#![tactic(auto)]

ghost use Rattle.std.specs.Prelude.{◌≡◌, ◌≤◌, ◌+◌, ◌^◌, true, IfOk};
ghost use Rattle.mv_ir.specs.Measures.{statements, tree_nodes};
ghost use Rattle.mv_ir.specs.WellFormed.{IsWellFormed};
ghost use Rattle.mv_expand.specs.Straight.{AllShort};
ghost use Rattle.mv_expand.specs.Expanded.{IsExpanded};
ghost use Rattle.mv_expand.specs.Walking.{with_code};

mod arguments;
mod expanding;
mod measures;
mod placed;
mod short;

use crate::expanding::expand_code;
use crate::measures::straight_cost;
use crate::short::TEMPS;
pub use crate::short::is_short;
use mv_ir::body::Body;
use mv_ir::stm::Stm;
use mv_num::list::List;
use std::alloc::{AllocError, Global};

/// The body with short bodies in place of calls. `shorts` has at the number of a function a body that does what the function does, where there is a short one.
pub fn expand(alloc: Global, shorts: &[Option<Body>], body: &Body) -> Result<Body, AllocError>
    requires well_formed { IsWellFormed body.now }
    requires short { AllShort shorts.now }
    ensures { IfOk result (IsExpanded shorts.now body.now) }
{
    if body.temps <= 0x8000_0000 {
        let code = expand_code(alloc, shorts, body.temps, false, &body.code)?;
        if is_small(&code) {
            return with_code(alloc, body, body.temps + TEMPS, code);
        }
    }
    // where nothing can be placed, what is made is a copy
    let none: List<Option<Body>> = List::new(alloc);
    let code = expand_code(alloc, none.as_slice(), 0, false, &body.code)?;
    with_code(alloc, body, body.temps, code)
}

// Whether code is within the size of well-formed bodies.
fn is_small(code: &List<Stm>) -> bool
    ensures { result ≡ true → statements code.now + tree_nodes code.now ≤ 2 ^ 30 }
{
    straight_cost(code) <= 0x4000_0000
}

// The body with other code, and so many temporaries.
fn with_code(alloc: Global, body: &Body, temps: u32, code: List<Stm>) -> Result<Body, AllocError>
    ensures { IfOk result (λ made. made ≡ with_code body.now temps code) }
{
    Ok(Body {
        params: body.params,
        temps,
        arrays: body.arrays.copied(alloc)?,
        code,
        rooms: body.rooms.copied(alloc)?,
        marked: body.marked.copied(alloc)?,
        switches: body.switches.copied(alloc)?,
    })
}
