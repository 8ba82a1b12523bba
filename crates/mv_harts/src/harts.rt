//! The run of several harts on the image of a program.

ghost use Rattle.std.specs.Prelude.{◌≡◌, ◌≤◌, ◌<◌, All, IsTrue, MatchResult, vec_len};
ghost use Rattle.mv_bindings.specs.Acts.{IsOfWord};
ghost use Rattle.mv_machine.specs.Actions.{fits_rows};
ghost use Rattle.mv_harts_meant.specs.Runnable.{IsRunnable};
ghost use Rattle.mv_harts_turns.specs.Runs.{outside, Broken};
ghost use Rattle.mv_harts.specs.HartsRan.{HartsRan, TellsBytes};

use crate::ends::{HartsEnd, ends_of};
use mv_bindings::action::Action;
use mv_build::Built;
use mv_harts_meant::{fitting_law, harts_mean};
use mv_harts_turns::run;
use mv_io::{Sink, Source};
use mv_probe::FetchOracle;
use std::alloc::{AllocError, Global};

/// Runs the image of a program in several harts, by a schedule: each number is a turn of that hart. Hart h reads from source h and writes to sink h; a read or
/// a write that fails ends the hart. The actions are for the polls of hart 0. An error is want of memory; what was written by then stays.
pub fn run_harts<I: Source, O: Sink>(
    alloc: Global,
    built: &Built,
    schedule: &[u8],
    sources: &mut Vec<I>,
    sinks: &mut Vec<O>,
    oracle: &mut Box<dyn FetchOracle>,
    actions: &[Action],
) -> Result<HartsEnd, AllocError>
    requires some { 1 ≤ vec_len sources.old }
    requires few { vec_len sources.old ≤ 4 }
    requires paired { vec_len sinks.old ≡ vec_len sources.old }
    requires numbered { All (λ hart. hart < vec_len sources.old) schedule.now }
    requires told { All (λ source. TellsBytes (I.left source)) sources.old.items }
    requires sound { IsRunnable built.now.program built.now.image }
    requires fit { All (λ action. IsTrue (fits_rows built.now.image.switches action)) actions.now }
    ensures ran { let was = outside (λ s. I.left s) (λ k. O.written k) (λ s. I.faults s) (λ k. O.faults k) sources.old.items sinks.old.items (way oracle.old) in
        let is = outside (λ s. I.left s) (λ k. O.written k) (λ s. I.faults s) (λ k. O.faults k) sources.new.items sinks.new.items (way oracle.new) in
        MatchResult result (HartsRan built.now.program built.now.image actions.now (vec_len sources.old) schedule.now was is)
        (λ error. Broken built.now.image actions.now (vec_len sources.old) schedule.now was is) }
{
    fitting_law();
    harts_mean();
    are_of_words(actions);
    let group = run(
        alloc,
        &built.image,
        schedule,
        sources,
        sinks,
        oracle,
        actions,
    )?;
    ends_of(alloc, group)
}

// The values of actions have 32 bits. The walk changes nothing; it is for the clause.
fn are_of_words(actions: &[Action])
    ensures { All IsOfWord actions.now }
{
    for action in actions {
        is_of_word(action);
    }
}

// The value of an action has 32 bits.
fn is_of_word(action: &Action)
    ensures { IsOfWord action.now }
{
    if let Action::Flip { value, .. } = action {
        let _read = *value;
    }
}
