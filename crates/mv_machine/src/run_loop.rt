//! One instruction after the other.

ghost use Rattle.std.specs.Prelude.{ℕ, ◌≡◌, ◌≤◌, ◌<◌, [], false, true, length, All, IfSome, List, Option};
ghost use Rattle.mv_bindings.specs.declared.binding.Event.{Event};
ghost use Rattle.mv_fetch.specs.Held.{choices};
ghost use Rattle.mv_io.specs.Outside.{Rose, CountAfter};
ghost use Rattle.mv_probe.specs.Ways.{Follows};
ghost use Rattle.mv_probe.specs.Hearing.{hearing, IsPatient, object_at, Becomes};
ghost use Rattle.mv_probe.specs.Fates.{Fates};
ghost use Rattle.mv_patch.specs.Orders.{binding_count};
ghost use Rattle.mv_machine.specs.Logging.{Adds, HasCome, Notes};
ghost use Rattle.mv_machine.specs.Moves.{Fetched, Steps, Strides, Settles, Turns, TellsOpened, Walked, WithEvents, executed_of, seen, FaultAt, input_failed, output_failed};

use crate::call::call;
use crate::departures::{floor_of, note_departure};
use crate::engine::Engine;
use crate::logging::{Log, note};
use crate::machine::Stopped;
use crate::operator::Operator;
use mv_fetch::Memory;
use mv_image::facts::within_limits;
use mv_io::{Sink, Source};
use mv_probe::{FetchOracle, Probe};
use mv_rv32::{Cause, Hart, Stepped, step_word};

// What the oracle picks for a fetch.
#[inline(always)]
fn picked(oracle: &mut Box<dyn FetchOracle>, address: u32, choices: u64) -> u64
    requires { 1 ≤ choices }
    ensures below { result < choices }
    ensures follows { Follows (way oracle.old) (way oracle.new) choices result }
{
    oracle.pick(address, choices)
}

// The word that is fetched at an address, by the oracle's pick; none where there is no choice.
#[inline(always)]
fn fetched(memory: &Memory, address: u32, oracle: &mut Box<dyn FetchOracle>) -> Option<u32>
    ensures { Fetched result (choices memory.now.held address) (way oracle.old) (way oracle.new) }
{
    if let Some(word) = memory.only_choice(address) {
        let _pick = picked(oracle, address, 1);
        return Some(word);
    }
    let choices = memory.choices(address);
    if choices == 0 {
        return None;
    }
    let pick = picked(oracle, address, choices);
    Some(memory.fetch(address, pick))
}

// The callers of `step`.
struct ByGoOn;

struct ByGoOnNoting;

struct ByTurn;

// The instruction at pc, up to what the environment has to do of it.
#[inline(always)]
fn step<Caller>(hart: &mut Hart, memory: &mut Memory, oracle: &mut Box<dyn FetchOracle>) -> Stepped
    ensures { Steps result hart.old hart.new memory.old memory.new (way oracle.old) (way oracle.new) }
{
    match fetched(memory, hart.pc, oracle) {
        None => Stepped::Fault(Cause::Fetch),
        Some(word) => step_word::<Caller>(hart, memory, word),
    }
}

// What an instruction came to, with how many may still be executed behind it.
struct Stride {
    stepped: Stepped,
    left: u64,
}

// Instructions, up to the first that doesn't just go on, and at most so many; what the last of them came to. It isn't generic, so that a program has
// one copy of it and the compiler inlines the instruction there.
#[inline(never)]
fn go_on(
    hart: &mut Hart,
    memory: &mut Memory,
    oracle: &mut Box<dyn FetchOracle>,
    steps: u64,
) -> Stride
    requires { 0 < steps }
    ensures { (floor : ℕ) (place : Option ℕ) → Strides false floor steps result hart.old hart.new memory.old memory.new (way oracle.old) (way oracle.new) place place }
{
    let mut left = steps;
    while left > 0 {
        left -= 1;
        let stepped = step::<ByGoOn>(hart, memory, oracle);
        match stepped {
            Stepped::Next => {}
            _ => return Stride { stepped, left },
        }
    }
    Stride {
        stepped: Stepped::Next,
        left: 0,
    }
}

// The same, and takes from each that just goes on whether the run departed there.
#[inline(never)]
fn go_on_noting(
    hart: &mut Hart,
    memory: &mut Memory,
    oracle: &mut Box<dyn FetchOracle>,
    steps: u64,
    floor: u32,
    place: &mut Option<u32>,
) -> Stride
    requires { 0 < steps }
    ensures { Strides true floor steps result hart.old hart.new memory.old memory.new (way oracle.old) (way oracle.new) place.old place.new }
{
    let mut left = steps;
    while left > 0 {
        left -= 1;
        let from = hart.pc;
        let stepped = step::<ByGoOnNoting>(hart, memory, oracle);
        match stepped {
            Stepped::Next => note_departure(place, floor, from, hart.pc),
            _ => return Stride { stepped, left },
        }
    }
    Stride {
        stepped: Stepped::Next,
        left: 0,
    }
}

// One of these two: the place is kept where it is wanted.
fn take_stride(
    hart: &mut Hart,
    memory: &mut Memory,
    oracle: &mut Box<dyn FetchOracle>,
    steps: u64,
    places: bool,
    floor: u32,
    place: &mut Option<u32>,
) -> Stride
    requires { 0 < steps }
    ensures { Strides places floor steps result hart.old hart.new memory.old memory.new (way oracle.old) (way oracle.new) place.old place.new }
{
    if places {
        go_on_noting(hart, memory, oracle, steps, floor, place)
    } else {
        go_on(hart, memory, oracle, steps)
    }
}

// What follows an instruction: nothing where it just goes on, else an environment call or the answer of the run.
#[cold]
#[inline(never)]
fn settle<I: Source, O: Sink>(
    stepped: Stepped,
    engine: &mut Engine,
    operator: &mut Operator,
    source: &mut I,
    sink: &mut O,
    probes: &mut Vec<Box<dyn Probe>>,
) -> Option<Stopped>
    requires { All (λ probe. IsPatient (hearing (told probe) (patience probe))) probes.old.items }
    ensures moves { Settles stepped result (seen engine.old operator.old (I.left source.old) (O.written sink.old)) (seen engine.new operator.new (I.left source.new) (O.written sink.new))
        (Rose (I.faults source.old) (I.faults source.new)) (Rose (O.faults sink.old) (O.faults sink.new))
        (λ events. Fates (Becomes (λ probe. object_at probe.ptr probe.vtable) (λ probe. hearing (told probe) (patience probe)) events) probes.old.items probes.new.items) }
    ensures place { IfSome result (λ stopped. FaultAt stopped engine.new.hart.pc) }
    ensures quiet { engine.old.image.functions ≡ [] → engine.old.image.pointers ≡ [] → probes.new ≡ probes.old }
    ensures image { engine.new.image ≡ engine.old.image }
    ensures number { engine.new.number ≡ engine.old.number }
    ensures opened { engine.old.opened ≡ false → TellsOpened engine.old engine.new }
    ensures input { I.faults source.old ≤ I.faults source.new }
    ensures output { O.faults sink.old ≤ O.faults sink.new }
    ensures reading { CountAfter (input_failed result) (I.faults source.old) (I.faults source.new) }
    ensures writing { CountAfter (output_failed result) (O.faults sink.old) (O.faults sink.new) }
{
    match stepped {
        Stepped::Next => None,
        Stepped::Call => call(engine, operator, source, sink, probes),
        Stepped::Fault(cause) => Some(Stopped::Fault(engine.hart.pc, cause)),
        Stepped::Memory => Some(Stopped::Memory),
    }
}

/// One instruction, and the answer of the run where it doesn't go on. The instruction that `InputFault`, `OutputFault` or `Memory` names wasn't carried
/// out, and `Steps` never comes.
pub fn turn<I: Source, O: Sink>(
    engine: &mut Engine,
    operator: &mut Operator,
    source: &mut I,
    sink: &mut O,
    oracle: &mut Box<dyn FetchOracle>,
    probes: &mut Vec<Box<dyn Probe>>,
) -> Option<Stopped>
    requires { All (λ probe. IsPatient (hearing (told probe) (patience probe))) probes.old.items }
    ensures turns { Turns result (seen engine.old operator.old (I.left source.old) (O.written sink.old)) (seen engine.new operator.new (I.left source.new) (O.written sink.new)) (way oracle.old) (way oracle.new)
        (Rose (I.faults source.old) (I.faults source.new)) (Rose (O.faults sink.old) (O.faults sink.new))
        (λ events. Fates (Becomes (λ probe. object_at probe.ptr probe.vtable) (λ probe. hearing (told probe) (patience probe)) events) probes.old.items probes.new.items) }
    ensures opened { TellsOpened engine.old engine.new }
    ensures place { IfSome result (λ stopped. FaultAt stopped engine.new.hart.pc) }
    ensures image { engine.new.image ≡ engine.old.image }
    ensures number { engine.new.number ≡ engine.old.number }
    ensures input { I.faults source.old ≤ I.faults source.new }
    ensures output { O.faults sink.old ≤ O.faults sink.new }
    ensures reading { CountAfter (input_failed result) (I.faults source.old) (I.faults source.new) }
    ensures writing { CountAfter (output_failed result) (O.faults sink.old) (O.faults sink.new) }
{
    engine.opened = false;
    let stepped = step::<ByTurn>(&mut engine.hart, &mut engine.memory, oracle);
    settle(stepped, engine, operator, source, sink, probes)
}

// Takes what has become of the bindings into the log.
fn note_bindings(log: &mut Option<Log>, engine: &Engine)
    requires { IfSome log.old (λ kept. length kept.bindings ≡ binding_count engine.now.image) }
    ensures { Notes engine.now.bindings log.old log.new }
{
    within_limits(&engine.image);
    note(log, engine.bindings.as_slice());
}

/// How a walk of instructions ended.
#[derive(Clone, Copy)]
pub(crate) struct Halt {
    /// The answer of the run, where an instruction didn't go on.
    pub(crate) stopped: Option<Stopped>,
    /// How many instructions were fetched.
    pub(crate) fetched: u64,
    /// The departure of those that were executed, where it is wanted.
    pub(crate) place: Option<u32>,
}

impl Halt {
    /// How many instructions were executed: not the one that wasn't carried out.
    pub(crate) fn executed(&self) -> u64
        requires { IfSome self.now.stopped (λ stopped. 1 ≤ self.now.fetched) }
        ensures { result ≡ executed_of self.now.stopped self.now.fetched }
    {
        match self.stopped {
            Some(Stopped::InputFault | Stopped::OutputFault | Stopped::Memory) => self.fetched - 1,
            _ => self.fetched,
        }
    }
}

/// So many instructions, and the answer of the run where one of them doesn't go on. A log that is kept has the event of each changed binding; the place is
/// kept where it is wanted.
pub(crate) fn walk<I: Source, O: Sink>(
    engine: &mut Engine,
    operator: &mut Operator,
    log: &mut Option<Log>,
    places: bool,
    steps: u64,
    source: &mut I,
    sink: &mut O,
    oracle: &mut Box<dyn FetchOracle>,
    probes: &mut Vec<Box<dyn Probe>>,
) -> Halt
    requires patient { All (λ probe. IsPatient (hearing (told probe) (patience probe))) probes.old.items }
    requires come { HasCome engine.old.bindings log.old }
    ensures walked { (events : List Event) × Adds events log.old log.new
        × Walked (WithEvents (λ was now events. Fates (Becomes (λ probe. object_at probe.ptr probe.vtable) (λ probe. hearing (told probe) (patience probe)) events) was now)) (probes.old.items, []) (probes.new.items, events)
        places result.place steps result.stopped result.fetched (seen engine.old operator.old (I.left source.old) (O.written sink.old)) (seen engine.new operator.new (I.left source.new) (O.written sink.new)) (way oracle.old) (way oracle.new)
        (Rose (I.faults source.old) (I.faults source.new)) (Rose (O.faults sink.old) (O.faults sink.new)) }
    ensures some { IfSome result.stopped (λ stopped. 1 ≤ result.fetched) }
    ensures place { IfSome result.stopped (λ stopped. FaultAt stopped engine.new.hart.pc) }
    ensures quiet { engine.old.image.functions ≡ [] → engine.old.image.pointers ≡ [] → probes.new ≡ probes.old }
    ensures image { engine.new.image ≡ engine.old.image }
    ensures number { engine.new.number ≡ engine.old.number }
    ensures input { I.faults source.old ≤ I.faults source.new }
    ensures output { O.faults sink.old ≤ O.faults sink.new }
    ensures reading { CountAfter (input_failed result.stopped) (I.faults source.old) (I.faults source.new) }
    ensures writing { CountAfter (output_failed result.stopped) (O.faults sink.old) (O.faults sink.new) }
{
    let floor = floor_of(&engine.image);
    let mut place = None;
    let mut left = steps;
    while left > 0 {
        let Stride {
            stepped,
            left: behind,
        } = take_stride(
            &mut engine.hart,
            &mut engine.memory,
            oracle,
            left,
            places,
            floor,
            &mut place,
        );
        left = behind;
        let stopped = settle(stepped, engine, operator, source, sink, probes);
        note_bindings(log, engine);
        if let Some(stopped) = stopped {
            return Halt {
                stopped: Some(stopped),
                fetched: steps - left,
                place,
            };
        }
    }
    Halt {
        stopped: None,
        fetched: steps,
        place,
    }
}
