//! The body of which a function's own code is made, whose switches aren't bound.
//!
//! - `general`: the body made ready, with the arms of a `switch` reached by one jump, and then with its temporaries renamed (`IsGeneral`). Where its frame may
//!   be too large by that, or that of the body as it is, the temporaries are renamed alone: so each count of a frame that passes the limit is that of the body
//!   as it is.

ghost use Rattle.std.specs.Prelude.{◌≡◌, ◌+◌, ◌≤◌, true, IfOk, IfSome};
ghost use Rattle.mv_num.specs.Limits.{slot_limit};
ghost use Rattle.mv_ir.specs.Live.{IsWhole};
ghost use Rattle.mv_ir.specs.Measures.{total};
ghost use Rattle.mv_ir.specs.WellFormed.{IsWellFormed};
ghost use Rattle.mv_expand.specs.Straight.{AllShort};
ghost use Rattle.mv_select.specs.Bodies.SelectedBodies.{HasWords};
ghost use Rattle.mv_variants.specs.Bound.General.{IsGeneral};
ghost use Rattle.mv_variants.specs.Sizes.{HasSmallFrame};

use crate::ready::ready;
use mv_ir::body::Body;
use mv_regalloc::rename::rename;
use mv_select::bodies::code_has_words;
use std::alloc::{AllocError, Global};

/// How many temporaries and words of arrays fit a frame in any case.
const MOST: u32 = 480;

/// The body of which a function's own code is made, given short bodies of functions by their numbers.
#[tactic(auto, using(crate::proofs::Tidied::plain_general, crate::proofs::Tidied::fits_small, crate::proofs::Tidied::plain_small))]
pub fn general(alloc: Global, shorts: &[Option<Body>], body: &Body) -> Result<Body, AllocError>
    requires formed { IsWellFormed body.now }
    requires whole { IsWhole body.now }
    requires short { AllShort shorts.now }
    ensures { IfOk result (IsGeneral shorts.now body.now) }
{
    code_has_words(&body.code);
    // With its temporaries renamed it has no more of them, so it needn't be renamed to see that it fits.
    if fits_frame(body) {
        return match shorter(alloc, shorts, body)? {
            Some(made) => Ok(made),
            None => rename(alloc, body),
        };
    }
    let plain = rename(alloc, body)?;
    if !fits_frame(&plain) {
        return Ok(plain);
    }
    match shorter(alloc, shorts, body)? {
        Some(made) => Ok(made),
        None => Ok(plain),
    }
}

// The body made ready and renamed, if its frame is small enough.
fn shorter(alloc: Global, shorts: &[Option<Body>], body: &Body) -> Result<Option<Body>, AllocError>
    requires formed { IsWellFormed body.now }
    requires whole { IsWhole body.now }
    requires short { AllShort shorts.now }
    requires words { HasWords body.now.code }
    requires small { HasSmallFrame body.now }
    ensures { IfOk result (λ made. IfSome made (IsGeneral shorts.now body.now)) }
{
    let ready = ready(alloc, shorts, body, true)?;
    let made = rename(alloc, &ready)?;
    if fits_frame(&made) {
        Ok(Some(made))
    } else {
        Ok(None)
    }
}

/// Whether a body has so few temporaries and words of arrays that they fit a frame in any case.
pub(crate) fn fits_frame(body: &Body) -> bool
    ensures { result ≡ true → body.now.temps + total body.now.arrays ≤ slot_limit }
{
    if body.temps > MOST {
        return false;
    }
    let mut left = MOST - body.temps;
    for size in body.arrays.as_slice() {
        if *size > left {
            return false;
        }
        left -= *size;
    }
    true
}
