//! One instruction of a hart, with what its poll took.

ghost use Rattle.std.specs.Prelude.{◌≡◌, ◌≤◌, ◌<◌, ℕ, Some, None, Option, List, MatchResult, OnOk, option_map, length};
ghost use Rattle.mv_bindings.specs.declared.binding.Binding.{Binding};
ghost use Rattle.mv_bindings.specs.Acts.{act_of};
ghost use Rattle.mv_image.specs.Spelling.{Fields};
ghost use Rattle.mv_patch.specs.Orders.{binding_count};
ghost use Rattle.mv_probe.specs.Ways.{way_after, Follows};
ghost use Rattle.mv_harts_runs.specs.Harts.{Hart, move, last_of};
ghost use Rattle.mv_harts_one.specs.Seats.{is_under, mode_of};
ghost use Rattle.mv_harts_turns.specs.Groups.{IsSeat, IsGlance, CanCount, IsLast, Stepped, StepRefused, beside, held, adopts_last, bindings_of};

use crate::group::Committed;
use crate::poll::{skips, taken_of};
use mv_bindings::action::Action;
use mv_harts_one::{Glance, Mode, Place, Seat, Taken};
use mv_io::{Sink, Source};
use mv_num::list::List;
use mv_probe::FetchOracle;
use std::alloc::{AllocError, Global};

/// One instruction, where the hart stands at this place, with this action for a poll of it; and whether hart 0's commit is under way behind it.
pub(crate) fn step<I: Source, O: Sink>(
    seat: &mut Seat,
    alloc: Global,
    glance: Glance,
    action: Action,
    under: bool,
    source: &mut I,
    sink: &mut O,
    oracle: &mut Box<dyn FetchOracle>,
) -> Result<bool, AllocError>
    requires on { seat.old.stop ≡ None }
    requires few { CanCount seat.old }
    ensures steps { (image : Fields) (commits : List (List Binding)) (number : ℕ) (bytes : List ℕ) (o : Hart) (was_under : Option (List Binding)) →
        IsSeat image commits number bytes seat.old o → IsGlance glance o → I.left source.old ≡ Some bytes → is_under was_under ≡ under →
        let a = act_of action in let m = move o.state a was_under 0 in
        let x = beside (I.left source.new) (O.written sink.old) (O.written sink.new) (way oracle.old) (way oracle.new) (I.faults source.old) (I.faults source.new) (O.faults sink.old) (O.faults sink.new) in
        MatchResult result (λ b. Stepped image commits number o a m was_under x seat.new b) (λ e. StepRefused o a m x) }
    ensures input { I.faults source.old ≤ I.faults source.new }
    ensures output { O.faults sink.old ≤ O.faults sink.new }
{
    if skips(glance.place, action) {
        seat.skip(oracle);
        seat.taken.push(Taken::Skip)?;
        return Ok(under);
    }
    let behind = seat.execute(alloc, action, under, source, sink, oracle)?;
    let Place::AtPoll = glance.place else {
        return Ok(behind);
    };
    seat.taken.push(taken_of(action))?;
    Ok(behind)
}

/// A hart waits at its poll, and stands so.
pub(crate) fn hold(seat: &mut Seat, mode: Mode)
    ensures holds { (image : Fields) (commits : List (List Binding)) (number : ℕ) (bytes : List ℕ) (o : Hart) →
        IsSeat image commits number bytes seat.old o → IsSeat image commits number bytes seat.new (held o (mode_of mode)) }
    ensures stop { seat.new.stop ≡ seat.old.stop }
{
    seat.mode = mode;
    seat.waited = true;
}

// The oracle's pick for a fetch that has one choice.
fn picked(oracle: &mut Box<dyn FetchOracle>, address: u32) -> u64
    ensures { Follows (way oracle.old) (way oracle.new) 1 result }
{
    oracle.pick(address, 1)
}

/// A hart takes on what the last commit left, at its poll.
pub(crate) fn adopt(
    seat: &mut Seat,
    commits: &List<Committed>,
    oracle: &mut Box<dyn FetchOracle>,
) -> Result<(), AllocError>
    requires on { seat.old.stop ≡ None }
    requires few { CanCount seat.old }
    requires ready { IsLast commits.now (binding_count seat.old.engine.image) }
    ensures adopts { OnOk result ((image : Fields) (number : ℕ) (bytes : List ℕ) (o : Hart) →
        IsSeat image (bindings_of commits.now) number bytes seat.old o → IsSeat image (bindings_of commits.now) number bytes seat.new (adopts_last o (last_of (bindings_of commits.now)))) }
    ensures way { way oracle.new ≡ option_map (λ w. way_after w 1) (way oracle.old) }
{
    let last = commits.len() - 1;
    let _pick = picked(oracle, seat.engine.hart.pc);
    seat.adopt(&commits.as_slice()[last].all);
    seat.taken.push(Taken::Adopt(last as u64))?;
    Ok(())
}
