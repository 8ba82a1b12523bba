//! One instruction of a hart.

ghost use Rattle.std.specs.Prelude.{◌≡◌, ◌+◌, ◌<◌, ◌≤◌, ◌^◌, ◌∷◌, [], ◌&&◌, not, false, ℕ, List, Option, Some, None, OnErr};
ghost use Rattle.mv_bindings.specs.declared.binding.Binding.{Binding};
ghost use Rattle.mv_bindings.specs.Acts.{act_of};
ghost use Rattle.mv_fetch.specs.Held.{choices};
ghost use Rattle.mv_io.specs.Outside.{CountAfter, Rose};
ghost use Rattle.mv_isa.specs.Encoding.{decode};
ghost use Rattle.mv_machine.specs.Runs.{choices_at};
ghost use Rattle.mv_machine.specs.Moves.{input_failed, output_failed};
ghost use Rattle.mv_harts_runs.specs.Harts.{Hart, move};
ghost use Rattle.mv_harts_one.specs.Seats.{Sits, is_under};
ghost use Rattle.mv_harts_one.specs.Executions.{is_fence_i, counted, wants_memory, Did};

use crate::fields::{funct3, opcode};
use crate::seat::Seat;
use mv_bindings::action::Action;
use mv_io::{Sink, Source};
use mv_machine::{Operator, Stopped, turn};
use mv_probe::FetchOracle;
use std::alloc::{AllocError, Global};

/// The opcode of FENCE and FENCE.I.
const FENCES: u32 = 0x0f;

// Whether a word is that of FENCE.I.
#[inline(always)]
fn is_fence(word: u32) -> bool
    ensures { result ≡ is_fence_i (decode word) }
{
    if opcode(word) != FENCES {
        return false;
    }
    funct3(word) == 1
}

// Whether a store into text found no memory for the word that it replaces.
#[inline(always)]
fn wants_memory(stopped: Option<Stopped>) -> bool
    ensures { result ≡ wants_memory stopped }
{
    matches!(stopped, Some(Stopped::Memory))
}

impl Seat {
    // Whether a commit that is under way is so behind the instruction at pc, unless that begins another.
    #[inline(always)]
    fn remains(&self, under: bool) -> bool
        ensures { (word : ℕ) → choices self.now.engine.memory.held self.now.engine.hart.pc ≡ word ∷ [] → result ≡ (under && not (is_fence_i (decode word))) }
    {
        if !under {
            return false;
        }
        match self.engine.memory.only_choice(self.engine.hart.pc) {
            None => false,
            Some(word) => !is_fence(word),
        }
    }

    // Notes what an instruction came to.
    #[inline(always)]
    fn note(&mut self, stopped: Option<Stopped>)
        requires { self.old.instructions + 1 < 2 ^ 64 }
        ensures { self.new ≡ record self.old { waited = false; stop = stopped; instructions = self.old.instructions + counted stopped } }
    {
        self.waited = false;
        self.stop = stopped;
        match stopped {
            Some(Stopped::InputFault | Stopped::OutputFault) => {}
            _ => self.instructions += 1,
        }
    }

    /// One instruction of a hart that has not ended, whose poll would take `act`: `Skip` of another hart than 0, which takes a commit on by `adopt`.
    /// `under` says whether the commit of hart 0 is under way, and the answer says it of the time behind the instruction. Where a read or a write failed,
    /// the hart has ended, and the count of that device alone may have risen. An error is want of memory for a word that a store into text replaces; the hart
    /// has not ended then.
    #[inline(always)]
    pub fn execute<I: Source, O: Sink>(
        &mut self,
        alloc: Global,
        act: Action,
        under: bool,
        source: &mut I,
        sink: &mut O,
        oracle: &mut Box<dyn FetchOracle>,
    ) -> Result<bool, AllocError>
        requires on { self.old.stop ≡ None }
        requires room { self.old.instructions + 1 < 2 ^ 64 }
        ensures does { (number : ℕ) (bytes : List ℕ) (o : Hart) (was : Option (List Binding)) → Sits number self.old bytes o → I.left source.old ≡ Some bytes → choices_at o.state ≡ 1 → is_under was ≡ under →
            Did result number o (act_of act) (move o.state (act_of act) was 0) self.new under bytes (I.left source.new) (O.written sink.old) (O.written sink.new) (way oracle.old) (way oracle.new)
            (Rose (I.faults source.old) (I.faults source.new)) (Rose (O.faults sink.old) (O.faults sink.new)) }
        ensures taken { self.new.taken ≡ self.old.taken }
        ensures image { self.new.engine.image ≡ self.old.engine.image }
        ensures input { I.faults source.old ≤ I.faults source.new }
        ensures output { O.faults sink.old ≤ O.faults sink.new }
        ensures going { OnErr result (self.new.stop ≡ None) }
        ensures reading { CountAfter (input_failed self.new.stop) (I.faults source.old) (I.faults source.new) }
        ensures writing { CountAfter (output_failed self.new.stop) (O.faults sink.old) (O.faults sink.new) }
    {
        let remains = self.remains(under);
        let acts = [act];
        let mut operator = Operator::new(&acts);
        let mut probes = Vec::new(alloc);
        let stopped = turn(
            &mut self.engine,
            &mut operator,
            source,
            sink,
            oracle,
            &mut probes,
        );
        if wants_memory(stopped) {
            return Err(AllocError);
        }
        self.note(stopped);
        Ok(self.engine.opened || remains)
    }
}
