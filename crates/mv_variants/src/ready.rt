//! What a body is before its switches are bound, and its temporaries renamed.
ghost use Rattle.std.specs.Prelude.{IfOk};
ghost use Rattle.mv_ir.specs.WellFormed.{IsWellFormed};
ghost use Rattle.mv_expand.specs.Straight.{AllShort};
ghost use Rattle.mv_variants.specs.Bound.Shorts.{IsReady, IsFinished, IsCleaned};

use crate::words::is_no_longer;
use mv_arms::with_arms;
use mv_expand::expand;
use mv_ir::body::Body;
use mv_propagate::propagate;
use mv_ranges::with_promises;
use mv_tidy::{join, tidy};
use std::alloc::{AllocError, Global};

/// The body with short bodies in place of calls, tidied and with promises of indices, where its code has no more words by that; else without short bodies.
/// The arms of a `switch` are reached by one jump where no switch is to be bound (`is_general`): else those that are never reached couldn't be left out.
#[tactic(auto, using(crate::proofs::Tidied::expanded_ready, crate::proofs::Tidied::finished_ready))]
pub(crate) fn ready(
    alloc: Global,
    shorts: &[Option<Body>],
    body: &Body,
    is_general: bool,
) -> Result<Body, AllocError>
    requires formed { IsWellFormed body.now }
    requires short { AllShort shorts.now }
    ensures { IfOk result (IsReady shorts.now body.now) }
{
    let expanded = expand(alloc, shorts, body)?;
    let made = finished(alloc, &expanded, is_general)?;
    if is_no_longer(&made.code, &body.code) {
        Ok(made)
    } else {
        finished(alloc, body, is_general)
    }
}

// The steps behind that.
#[tactic(auto, using(crate::proofs::Tidied::arms_finished, crate::proofs::Tidied::plain_finished))]
fn finished(alloc: Global, body: &Body, is_general: bool) -> Result<Body, AllocError>
    ensures { IfOk result (IsFinished body.now) }
{
    if is_general {
        if let Some(arms) = with_arms(alloc, body)? {
            return with_promises(alloc, cleaned(alloc, &arms)?);
        }
    }
    with_promises(alloc, cleaned(alloc, body)?)
}

// What temporaries hold is read in their place between two tidyings: it leaves sets that nothing reads any more. Choices are put together by the second alone.
#[tactic(auto, using(crate::proofs::Tidied::steps_cleaned))]
fn cleaned(alloc: Global, body: &Body) -> Result<Body, AllocError>
    ensures { IfOk result (IsCleaned body.now) }
{
    let joined = join(alloc, body)?;
    let propagated = propagate(alloc, &joined)?;
    tidy(alloc, &propagated)
}
