//! The run of a schedule.

ghost use Rattle.std.specs.Prelude.{◌≡◌, ◌≤◌, ◌<◌, ◌+◌, ◌-◌, ℕ, Some, List, map, vec_len, IsSome, MatchResult, length, ◌^◌};
ghost use Rattle.std.specs.List.{All};
ghost use Rattle.mv_image.specs.Spelling.{Fields};
ghost use Rattle.mv_bindings.specs.Acts.{act_of};
ghost use Rattle.mv_harts_runs.specs.Harts.{Harts, turn_of};
ghost use Rattle.mv_harts_turns.specs.Groups.{Shows, IsReady, FetchesAre, Turned, MayFail, beside};
ghost use Rattle.mv_harts_turns.specs.Runs.{IsReadyFor, Ran, Broken, outside, inputs_of};

use crate::group::Group;
use mv_bindings::action::Action;
use mv_harts_runs::harts_are_right;
use mv_image::Image;
use mv_io::{Sink, Source};
use mv_probe::FetchOracle;
use std::alloc::{AllocError, Global};

impl Group {
    /// A turn of a hart, with its source and its sink; nothing where it has ended.
    fn turn<I: Source, O: Sink>(
        &mut self,
        alloc: Global,
        hart: usize,
        actions: &[Action],
        source: &mut I,
        sink: &mut O,
        oracle: &mut Box<dyn FetchOracle>,
    ) -> Result<(), AllocError>
        requires there { hart ≤ vec_len self.old.others }
        requires ready { IsReady self.old }
        ensures turns { (image : Fields) (bytes : ℕ → List ℕ) (hs : Harts) → Shows image actions.now bytes self.old hs → FetchesAre hs → I.left source.old ≡ Some (bytes hart) →
            let x = beside (I.left source.new) (O.written sink.old) (O.written sink.new) (way oracle.old) (way oracle.new) (I.faults source.old) (I.faults source.new) (O.faults sink.old) (O.faults sink.new) in
            Turned image actions.now hart bytes x self.old self.new hs MayFail (turn_of hs hart 0) result }
        ensures input { I.faults source.old ≤ I.faults source.new }
        ensures output { O.faults sink.old ≤ O.faults sink.new }
    {
        if hart == 0 {
            if self.leader.stop.is_some() {
                return Ok(());
            }
            return self.lead(alloc, actions, source, sink, oracle);
        }
        let place = hart - 1;
        if self.others[place].stop.is_some() {
            return Ok(());
        }
        self.follow(alloc, place, source, sink, oracle)
    }
}

/// How many turns a schedule has: no more than a hart can count instructions.
pub(crate) fn turns_of(schedule: &[u8]) -> usize
    ensures count { result ≡ length schedule.now }
    ensures few { result < 2 ^ 64 }
{
    schedule.len()
}

/// Gives the harts of an image their turns: each number of the schedule is a turn of that hart. Hart h reads from source h and writes to sink h. An error is
/// want of memory.
pub fn run<I: Source, O: Sink>(
    alloc: Global,
    image: &Image,
    schedule: &[u8],
    sources: &mut Vec<I>,
    sinks: &mut Vec<O>,
    oracle: &mut Box<dyn FetchOracle>,
    actions: &[Action],
) -> Result<Group, AllocError>
    requires some { 1 ≤ vec_len sources.old }
    requires few { vec_len sources.old ≤ 4 }
    requires paired { vec_len sinks.old ≡ vec_len sources.old }
    requires numbered { All (λ hart. hart < vec_len sources.old) schedule.now }
    requires told { All (λ source. IsSome (I.left source)) sources.old.items }
    requires fitting { IsReadyFor image.now (inputs_of (outside (λ s. I.left s) (λ k. O.written k) (λ s. I.faults s) (λ k. O.faults k) sources.old.items sinks.old.items (way oracle.old))) (map act_of actions.now) }
    ensures { let was = outside (λ s. I.left s) (λ k. O.written k) (λ s. I.faults s) (λ k. O.faults k) sources.old.items sinks.old.items (way oracle.old) in
        let is = outside (λ s. I.left s) (λ k. O.written k) (λ s. I.faults s) (λ k. O.faults k) sources.new.items sinks.new.items (way oracle.new) in
        MatchResult result (Ran image.now actions.now (vec_len sources.old) schedule.now was is) (λ error. Broken image.now actions.now (vec_len sources.old) schedule.now was is) }
{
    harts_are_right();
    let mut group = Group::start(alloc, image, sources.len() as u32 - 1)?;
    let turns = turns_of(schedule);
    let mut time = 0;
    while time < turns {
        let hart = usize::from(schedule[time]);
        group.turn(
            alloc,
            hart,
            actions,
            &mut sources[hart],
            &mut sinks[hart],
            oracle,
        )?;
        time = group.go_on(schedule, time + 1, oracle);
    }
    Ok(group)
}
