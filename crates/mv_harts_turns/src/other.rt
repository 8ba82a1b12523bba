//! A turn of another hart.

ghost use Rattle.std.specs.Prelude.{◌≡◌, ◌≤◌, ◌<◌, ℕ, suc, Some, None, Option, List, slice_get, vec_len};
ghost use Rattle.mv_image.specs.Spelling.{Fields};
ghost use Rattle.mv_bindings.specs.Acts.{Skip};
ghost use Rattle.mv_bindings.specs.declared.action.Action.{Action};
ghost use Rattle.mv_machine.specs.Runs.{choices_at};
ghost use Rattle.mv_harts_runs.specs.Harts.{Hart, Harts, move, other_at};
ghost use Rattle.mv_harts_turns.specs.Groups.{Shows, IsGlance, IsReady, IsOnAt, Turned, IsDevice, MayFail, other_acts, beside};

use crate::group::Group;
use crate::poll::{PollAnswer, answer_at};
use crate::share::share;
use crate::step::{adopt, hold, step};
use mv_bindings::action::Action;
use mv_harts_one::Glance;
use mv_io::{Sink, Source};
use mv_probe::FetchOracle;
use std::alloc::{AllocError, Global};

impl Group {
    // One instruction of the hart at a place, whose poll takes nothing.
    fn run_on<I: Source, O: Sink>(
        &mut self,
        alloc: Global,
        place: usize,
        glance: Glance,
        source: &mut I,
        sink: &mut O,
        oracle: &mut Box<dyn FetchOracle>,
    ) -> Result<(), AllocError>
        requires there { place < vec_len self.old.others }
        requires ready { IsReady self.old }
        requires on { IsOnAt self.old.others.items place }
        ensures goes { (image : Fields) (actions : List Action) (bytes : ℕ → List ℕ) (hs : Harts) (o : Hart) → Shows image actions bytes self.old hs → slice_get hs.others place ≡ Some o → IsGlance glance o → I.left source.old ≡ Some (bytes (suc place)) →
            let m = move o.state Skip None 0 in
            let x = beside (I.left source.new) (O.written sink.old) (O.written sink.new) (way oracle.old) (way oracle.new) (I.faults source.old) (I.faults source.new) (O.faults sink.old) (O.faults sink.new) in
            Turned image actions (suc place) bytes x self.old self.new hs (IsDevice m) (other_acts hs place o m) result }
        ensures input { I.faults source.old ≤ I.faults source.new }
        ensures output { O.faults sink.old ≤ O.faults sink.new }
    {
        step(
            &mut self.others[place],
            alloc,
            glance,
            Action::Skip,
            false,
            source,
            sink,
            oracle,
        )?;
        self.leader.take_store(glance.store)?;
        share(&mut self.others, place + 1, glance.store)?;
        Ok(())
    }

    /// A turn of the hart at a place among those beside hart 0, which has not ended.
    pub(crate) fn follow<I: Source, O: Sink>(
        &mut self,
        alloc: Global,
        place: usize,
        source: &mut I,
        sink: &mut O,
        oracle: &mut Box<dyn FetchOracle>,
    ) -> Result<(), AllocError>
        requires there { place < vec_len self.old.others }
        requires ready { IsReady self.old }
        requires on { IsOnAt self.old.others.items place }
        ensures follows { (image : Fields) (actions : List Action) (bytes : ℕ → List ℕ) (hs : Harts) (o : Hart) → Shows image actions bytes self.old hs → slice_get hs.others place ≡ Some o → choices_at o.state ≡ 1 → I.left source.old ≡ Some (bytes (suc place)) →
            let x = beside (I.left source.new) (O.written sink.old) (O.written sink.new) (way oracle.old) (way oracle.new) (I.faults source.old) (I.faults source.new) (O.faults sink.old) (O.faults sink.new) in
            Turned image actions (suc place) bytes x self.old self.new hs MayFail (other_at hs place o 0) result }
        ensures input { I.faults source.old ≤ I.faults source.new }
        ensures output { O.faults sink.old ≤ O.faults sink.new }
    {
        let seat = &self.others[place];
        let glance = seat.glance();
        match answer_at(glance.place, seat.mode, self.wanted, self.under) {
            PollAnswer::Waits(mode) => {
                hold(&mut self.others[place], mode);
                Ok(())
            }
            PollAnswer::Adopts => {
                adopt(&mut self.others[place], &self.commits, oracle)?;
                Ok(())
            }
            PollAnswer::Goes => self.run_on(alloc, place, glance, source, sink, oracle),
        }
    }
}
