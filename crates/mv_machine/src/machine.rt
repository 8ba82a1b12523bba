//! A machine and its runs.

ghost use Rattle.std.specs.Prelude.{◌≡◌, ◌≤◌, List, [], false, Some, None, IfOk, IsTrue, All};
ghost use Rattle.mv_bindings.specs.declared.binding.Event.{Event};
ghost use Rattle.std.specs.Result.{result_ok};
ghost use Rattle.mv_fetch.specs.Held.{load};
ghost use Rattle.mv_io.specs.Outside.{Rose, CountAfter};
ghost use Rattle.mv_probe.specs.Hearing.{hearing, IsPatient, object_at, Becomes};
ghost use Rattle.mv_probe.specs.Fates.{Fates};
ghost use Rattle.mv_machine.specs.Actions.{fits_rows};
ghost use Rattle.mv_machine.specs.Acts.{polls_of};
ghost use Rattle.mv_machine.specs.Runs.{first};
ghost use Rattle.mv_machine.specs.Snapshots.{kept, Logs, Ran, Unless, last_of, is_input_fault, is_output_fault};

use crate::engine::Engine;
use crate::logging::{events_of, log_from};
use crate::operator::Operator;
use crate::run_loop::walk;
use mv_bindings::action::Action;
use mv_bindings::binding::{Binding, Event};
use mv_image::Image;
use mv_io::{Sink, Source};
use mv_num::list::List;
use mv_probe::{FetchOracle, Probe};
use mv_rv32::Cause;
use std::alloc::{AllocError, Global};
use std::marker::Model;

/// Why a run stopped.
#[derive(Clone, Copy, Debug, PartialEq, Eq, Drop)]
pub enum Stopped {
    /// The program ended with this exit status.
    Ended(u8),
    /// The program trapped with this code, 1 to 4.
    Trapped(u8),
    /// The given number of instructions was executed, and the program goes on.
    Steps,
    /// A read failed. The program stands before it.
    InputFault,
    /// A write failed. The program stands before it.
    OutputFault,
    /// The instruction at this address faults.
    Fault(u32, Cause),
    /// There was no memory to remember the word that a store into text replaces.
    Memory,
}

/// What a call of `run` did.
#[derive(Drop)]
pub struct Report {
    /// Why it stopped.
    pub stopped: Stopped,
    /// How many instructions were executed: also one that faults, but none that `InputFault`, `OutputFault` or `Memory` names.
    pub executed: u64,
    /// The changed bindings in order, where the log was wanted and there was memory for all of it.
    pub log: Option<List<Event>>,
    /// Where the place was wanted, the address of the last executed instruction in the words of functions behind which the run went on elsewhere than at the
    /// next; none where there is no such instruction.
    pub departed: Option<u32>,
}

/// An image, hart 0, its memory and the bindings of the attributed functions, and the last answer where a run has ended.
#[derive(Drop)]
pub struct Machine {
    engine: Engine,
    last: Option<Stopped>,
}

impl Model for Machine {
    ghost use Rattle.mv_machine.specs.Snapshots.{Snapshot};

    ghost Value = { Snapshot };

    ghost view = { λ m. record { image = m.engine.image; regs = m.engine.hart.regs; pc = m.engine.hart.pc; room = m.engine.memory; bindings = m.engine.bindings; last = m.last } };

    ghost use Rattle.std.specs.Prelude.{◌≡◌};

    ghost invariant = { λ m. m.engine.number ≡ 0 };
}

impl Machine {
    /// The machine of an image before its first instruction. From here on memory can be wanting only where a program stores into its text more
    /// often between two FENCE.I than a plan of the image would.
    pub fn start(alloc: Global, image: &Image) -> Result<Machine, AllocError>
        ensures { IfOk result (λ machine. machine ≡ kept (first image.now [] (polls_of [])) None) }
    {
        Ok(Machine {
            engine: Engine::start(alloc, image, 0)?,
            last: None,
        })
    }

    /// Runs so many instructions, or up to the one that ends the run. After `Steps` a further call goes on; after any other answer it gives this
    /// answer again and does nothing, without a log or a departure. A poll takes the next of the actions. Each probe is told each changed binding at the
    /// environment call that changes it, until it leaves. Where the log is wanted, the report has it, unless memory lacked for it; else it has none.
    /// Where places are wanted, it has the departure of the run; else none.
    pub fn run<I: Source, O: Sink>(
        &mut self,
        alloc: Global,
        logs: bool,
        places: bool,
        steps: u64,
        source: &mut I,
        sink: &mut O,
        oracle: &mut Box<dyn FetchOracle>,
        probes: &mut Vec<Box<dyn Probe>>,
        actions: &[Action],
    ) -> Report
        requires patient { All (λ probe. IsPatient (hearing (told probe) (patience probe))) probes.old.items }
        requires fit { All (λ action. IsTrue (fits_rows self.old.image.switches action)) actions.now }

        ensures runs { Unless self.old.last ((events : List Event) × Logs result.log events × Ran steps result.stopped result.executed places result.departed self.old self.new actions.now
            (I.left source.old) (I.left source.new) (O.written sink.old) (O.written sink.new) (way oracle.old) (way oracle.new)
            (Rose (I.faults source.old) (I.faults source.new)) (Rose (O.faults sink.old) (O.faults sink.new))
            (λ news. Fates (Becomes (λ probe. object_at probe.ptr probe.vtable) (λ probe. hearing (told probe) (patience probe)) news) probes.old.items probes.new.items × (events ≡ news))) }
        ensures unwanted { logs ≡ false → result.log ≡ None }
        ensures quiet { self.old.image.functions ≡ [] → self.old.image.pointers ≡ [] → probes.new ≡ probes.old }
        ensures last { self.old.last ≡ None → self.new.last ≡ last_of result.stopped }
        ensures again { (last : Stopped) → self.old.last ≡ Some last → (result.stopped ≡ last) × (result.executed ≡ 0) × (result.log ≡ None) × (result.departed ≡ None) × (self.new ≡ self.old) × (source.new ≡ source.old) × (sink.new ≡ sink.old) × (way oracle.new ≡ way oracle.old) × (probes.new ≡ probes.old) }
        ensures input { I.faults source.old ≤ I.faults source.new }
        ensures output { O.faults sink.old ≤ O.faults sink.new }
        ensures reading { CountAfter (is_input_fault result.stopped) (I.faults source.old) (I.faults source.new) }
        ensures writing { CountAfter (is_output_fault result.stopped) (O.faults sink.old) (O.faults sink.new) }
    {
        if let Some(last) = self.last {
            return Report {
                stopped: last,
                executed: 0,
                log: None,
                departed: None,
            };
        }
        let mut operator = Operator::new(actions);
        let mut log = log_from(alloc, logs, &self.engine.bindings);
        let walked = walk(
            &mut self.engine,
            &mut operator,
            &mut log,
            places,
            steps,
            source,
            sink,
            oracle,
            probes,
        );
        self.last = walked.stopped;
        Report {
            stopped: walked.stopped.unwrap_or(Stopped::Steps),
            executed: walked.executed(),
            log: events_of(log),
            departed: walked.place,
        }
    }

    /// What each attributed function is bound to, in order of declaration.
    pub fn bindings(&self) -> &List<Binding>
        ensures { result.now ≡ self.now.bindings }
    {
        &self.engine.bindings
    }

    /// The present word at an address, and none outside the regions of memory or where the address is no multiple of 4.
    pub fn word(&self, address: u32) -> Option<u32>
        ensures { result ≡ result_ok (load self.now.room.held address 4) }
    {
        self.engine.memory.load(address, 4).ok()
    }
}
