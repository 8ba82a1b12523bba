// Temporaries that are never live together share a number.

ghost use Rattle.std.specs.Prelude.{IfOk};
ghost use Rattle.mv_ir.specs.Live.{IsWhole, HasTemps};
ghost use Rattle.mv_regalloc.specs.Intervals.{IsRenamed};

use crate::apply::apply;
use crate::number::number;
use crate::spans::spans_of;
use mv_ir::body::Body;
use std::alloc::{AllocError, Global};

/// The body with its temporaries renamed by a linear scan over their live intervals, taken in the order of their
/// first positions, parameters first: each gets the lowest number that is free there.
pub fn rename(alloc: Global, body: &Body) -> Result<Body, AllocError>
    requires whole { IsWhole body.now }
    requires has_temps { HasTemps body.now }
    ensures { IfOk result (λ other. IsRenamed body.now other) }
{
    let spans = spans_of(alloc, body)?;
    let numbering = number(alloc, body, &spans)?;
    apply(alloc, numbering.numbers.as_slice(), numbering.used, body)
}
