//! An instruction of a hart that concerns no other hart and no device.

ghost use Rattle.std.specs.Prelude.{◌≡◌, ◌+◌, ◌<◌, ◌≤◌, ◌^◌, true, false, ℕ, List, Option, Some, None, option_map};
ghost use Rattle.mv_bindings.specs.declared.binding.Binding.{Binding};
ghost use Rattle.mv_bindings.specs.Acts.{Act, Skip};
ghost use Rattle.mv_probe.specs.Ways.{way_after, Follows};
ghost use Rattle.mv_machine.specs.Runs.{choices_at};
ghost use Rattle.mv_harts_runs.specs.Harts.{AtPoll, Hart, move, place, told};
ghost use Rattle.mv_harts_one.specs.Seats.{Sits, is_under};
ghost use Rattle.mv_harts_one.specs.Executions.{HasAdvanced, HasExecuted, is_into_text};

use crate::seat::Seat;
use mv_machine::refuse;
use mv_probe::FetchOracle;
use mv_rv32::{Stepped, step_word};

// The oracle's pick for a fetch that has one choice.
#[inline(always)]
fn picked(oracle: &mut Box<dyn FetchOracle>, address: u32) -> u64
    ensures { Follows (way oracle.old) (way oracle.new) 1 result }
{
    oracle.pick(address, 1)
}

impl Seat {
    /// The instruction at pc of a hart that has not ended, where that just goes on; then the answer is yes. Else nothing happens, and `execute` is to
    /// carry it out. No store into text is looked for, which is the caller's to know. `Caller` is that of `step_word`.
    #[inline(always)]
    pub fn advance<Caller>(&mut self, oracle: &mut Box<dyn FetchOracle>) -> bool
        requires { self.old.instructions + 1 < 2 ^ 64 }
        ensures advances { result ≡ true → (number : ℕ) (bytes : List ℕ) (o : Hart) (act : Act) → Sits number self.old bytes o → choices_at o.state ≡ 1 → is_into_text (told o.state 0) ≡ false → HasAdvanced number o act (move o.state act None 0) self.new bytes }
        ensures asks { result ≡ true → way oracle.new ≡ option_map (λ w. way_after w 1) (way oracle.old) }
        ensures stays { result ≡ false → ((number : ℕ) (bytes : List ℕ) (o : Hart) → Sits number self.old bytes o → Sits number self.new bytes o) × (way oracle.new ≡ way oracle.old) }
        ensures stop { self.new.stop ≡ self.old.stop }
        ensures on { result ≡ true → self.old.stop ≡ None }
        ensures instructions { self.new.instructions ≤ self.old.instructions + 1 }
        ensures taken { self.new.taken ≡ self.old.taken }
        ensures image { self.new.engine.image ≡ self.old.engine.image }
    {
        if self.stop.is_some() {
            return false;
        }
        let pc = self.engine.hart.pc;
        let Some(word) = self.engine.memory.only_choice(pc) else {
            return false;
        };
        let Stepped::Next = step_word::<Caller>(
            &mut self.engine.hart,
            &mut self.engine.memory,
            word,
        ) else {
            return false;
        };
        let _pick = picked(oracle, pc);
        self.waited = false;
        self.instructions += 1;
        true
    }

    /// The poll at pc of a hart that has not ended, where no frame is live and it takes nothing: what `execute` of `Skip` does there. A commit that is under
    /// way stays so.
    #[inline(always)]
    pub fn skip(&mut self, oracle: &mut Box<dyn FetchOracle>)
        requires on { self.old.stop ≡ None }
        requires room { self.old.instructions + 1 < 2 ^ 64 }
        ensures skips { (number : ℕ) (bytes : List ℕ) (o : Hart) (was : Option (List Binding)) (written : Option (List ℕ)) → Sits number self.old bytes o → choices_at o.state ≡ 1 → place o.state 0 ≡ AtPoll →
            HasExecuted number o Skip (move o.state Skip was 0) self.new (is_under was) (Some bytes) written written }
        ensures asks { way oracle.new ≡ option_map (λ w. way_after w 1) (way oracle.old) }
        ensures stop { self.new.stop ≡ self.old.stop }
        ensures taken { self.new.taken ≡ self.old.taken }
        ensures image { self.new.engine.image ≡ self.old.engine.image }
    {
        let _pick = picked(oracle, self.engine.hart.pc);
        refuse(&mut self.engine, 0);
        self.waited = false;
        self.instructions += 1;
    }
}
