//! A turn of hart 0.

ghost use Rattle.std.specs.Prelude.{◌≡◌, ◌≤◌, ◌<◌, ◌∷◌, [], ◌++◌, ℕ, Some, None, Option, List, map, false, OnOk, IfOk};
ghost use Rattle.mv_image.specs.Spelling.{Fields};
ghost use Rattle.mv_bindings.specs.declared.action.Action.{Action};
ghost use Rattle.mv_machine.specs.Runs.{choices_at};
ghost use Rattle.mv_harts_runs.specs.Harts.{Harts, move, next_act, freed, waits, leader_waits, leader_turn};
ghost use Rattle.mv_harts_turns.specs.Groups.{Shows, IsGlance, CanCount, Turned, IsDevice, MayFail, IsFreed, leader_acts, committed, beside};
ghost use Rattle.mv_harts_turns.specs.Pairs.{Pairs};

use crate::group::{Committed, Group};
use crate::poll::{commits, next_action, played_behind};
use crate::share::{all_away, free, share};
use crate::step::step;
use mv_bindings::action::Action;
use mv_harts_one::Glance;
use mv_io::{Sink, Source};
use mv_probe::FetchOracle;
use std::alloc::{AllocError, Global};

impl Group {
    // Hart 0 waits to commit.
    fn wait(&mut self)
        ensures shows { (image : Fields) (actions : List Action) (bytes : ℕ → List ℕ) (hs : Harts) → Shows image actions bytes self.old hs → Shows image actions bytes self.new (leader_waits hs) }
        ensures stop { self.new.leader.stop ≡ self.old.leader.stop }
        ensures others { self.new.others ≡ self.old.others }
    {
        self.wanted = true;
        self.leader.waited = true;
    }

    // One instruction of hart 0.
    fn go<I: Source, O: Sink>(
        &mut self,
        alloc: Global,
        glance: Glance,
        actions: &[Action],
        source: &mut I,
        sink: &mut O,
        oracle: &mut Box<dyn FetchOracle>,
    ) -> Result<(), AllocError>
        requires on { self.old.leader.stop ≡ None }
        requires few { CanCount self.old.leader }
        ensures goes { (image : Fields) (bytes : ℕ → List ℕ) (hs : Harts) → Shows image actions.now bytes self.old hs → IsGlance glance hs.leader → I.left source.old ≡ Some (bytes 0) →
            let a = next_act hs.actions in let m = move hs.leader.state a hs.under 0 in
            let x = beside (I.left source.new) (O.written sink.old) (O.written sink.new) (way oracle.old) (way oracle.new) (I.faults source.old) (I.faults source.new) (O.faults sink.old) (O.faults sink.new) in
            Turned image actions.now 0 bytes x self.old self.new hs (IsDevice m) (leader_acts hs a m) result }
        ensures input { I.faults source.old ≤ I.faults source.new }
        ensures output { O.faults sink.old ≤ O.faults sink.new }
    {
        let action = next_action(actions, self.played);
        self.under = step(
            &mut self.leader,
            alloc,
            glance,
            action,
            self.under,
            source,
            sink,
            oracle,
        )?;
        self.played = played_behind(glance.place, actions, self.played);
        share(&mut self.others, 0, glance.store)?;
        Ok(())
    }

    // A commit was made by the last instruction: it is noted, and the parked harts are freed.
    fn note_commit(&mut self, alloc: Global) -> Result<(), AllocError>
        ensures shows { OnOk result ((image : Fields) (actions : List Action) (bytes : ℕ → List ℕ) (hs : Harts) → Shows image actions bytes self.old hs → Shows image actions bytes self.new (committed hs)) }
        ensures leader { self.new.leader ≡ self.old.leader }
        ensures others { OnOk result (Pairs (λ n. IsFreed) self.old.others.items self.new.others.items) }
    {
        let all = self.leader.engine.bindings.copied(alloc)?;
        self.commits.push(Committed { all })?;
        self.wanted = false;
        free(&mut self.others);
        Ok(())
    }

    /// A turn of hart 0, which has not ended.
    pub(crate) fn lead<I: Source, O: Sink>(
        &mut self,
        alloc: Global,
        actions: &[Action],
        source: &mut I,
        sink: &mut O,
        oracle: &mut Box<dyn FetchOracle>,
    ) -> Result<(), AllocError>
        requires on { self.old.leader.stop ≡ None }
        requires few { CanCount self.old.leader }
        ensures leads { (image : Fields) (bytes : ℕ → List ℕ) (hs : Harts) → Shows image actions.now bytes self.old hs → choices_at hs.leader.state ≡ 1 → I.left source.old ≡ Some (bytes 0) →
            let x = beside (I.left source.new) (O.written sink.old) (O.written sink.new) (way oracle.old) (way oracle.new) (I.faults source.old) (I.faults source.new) (O.faults sink.old) (O.faults sink.new) in
            Turned image actions.now 0 bytes x self.old self.new hs MayFail (leader_turn hs 0) result }
        ensures input { I.faults source.old ≤ I.faults source.new }
        ensures output { O.faults sink.old ≤ O.faults sink.new }
    {
        let glance = self.leader.glance();
        let action = next_action(actions, self.played);
        if !commits(glance.place, action) {
            return self.go(alloc, glance, actions, source, sink, oracle);
        }
        if !all_away(self.others.as_slice()) {
            self.wait();
            return Ok(());
        }
        self.go(alloc, glance, actions, source, sink, oracle)?;
        self.note_commit(alloc)
    }
}
