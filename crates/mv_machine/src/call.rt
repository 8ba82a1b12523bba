//! Environment calls.

ghost use Rattle.std.specs.Prelude.{◌≡◌, ◌≤◌, [], false, All, OnOk, OnErr, IfSome, is_err};
ghost use Rattle.mv_isa.specs.Execution.{reg};
ghost use Rattle.mv_io.specs.Outside.{Rose, CountAfter};
ghost use Rattle.mv_probe.specs.Hearing.{hearing, IsPatient, object_at, Becomes};
ghost use Rattle.mv_probe.specs.Fates.{Fates};
ghost use Rattle.mv_machine.specs.Runs.{trap_of};
ghost use Rattle.mv_machine.specs.Moves.{Gets, Puts, FromCall, TellsOpened, seen, FaultAt, IsStop, input_failed, output_failed};

use crate::engine::Engine;
use crate::machine::Stopped;
use crate::operator::Operator;
use crate::patching::{order, poll};
use crate::registers::{answer, argument, number};
use mv_io::{Failed, Sink, Source};
use mv_isa::requests::{EXIT, PLAN, POLL, READ, TRAP, WRITE};
use mv_probe::Probe;
use mv_rv32::{Cause, Hart};

// Takes a byte of the input into a0, and all ones at its end.
fn getchar<I: Source>(hart: &mut Hart, source: &mut I) -> Result<(), Failed>
    ensures read { OnOk result (Gets hart.old hart.new (I.left source.old) (I.left source.new)) }
    ensures hart { OnErr result (hart.new ≡ hart.old) }
    ensures left { OnErr result (I.left source.new ≡ I.left source.old) }
    ensures rose { OnErr result (Rose (I.faults source.old) (I.faults source.new)) }
    ensures later { I.faults source.old ≤ I.faults source.new }
    ensures count { CountAfter (is_err result) (I.faults source.old) (I.faults source.new) }
{
    match source.read_byte()? {
        None => answer(hart, u32::MAX),
        Some(byte) => answer(hart, u32::from(byte)),
    }
    Ok(())
}

// Writes the low byte of a0, which is the answer.
fn putchar<O: Sink>(hart: &mut Hart, sink: &mut O) -> Result<(), Failed>
    ensures written { OnOk result (Puts hart.old hart.new (O.written sink.old) (O.written sink.new)) }
    ensures hart { OnErr result (hart.new ≡ hart.old) }
    ensures kept { OnErr result (O.written sink.new ≡ O.written sink.old) }
    ensures rose { OnErr result (Rose (O.faults sink.old) (O.faults sink.new)) }
    ensures later { O.faults sink.old ≤ O.faults sink.new }
    ensures count { CountAfter (is_err result) (O.faults sink.old) (O.faults sink.new) }
{
    let byte = (argument(hart) % 0x100) as u8;
    sink.write(&[byte])?;
    answer(hart, u32::from(byte));
    Ok(())
}

// The trap whose code a0 holds.
#[tactic(auto, unfolding(crate::specs::Runs::trap_of))]
fn trap(hart: &Hart) -> Stopped
    ensures stop { IsStop result (trap_of (reg hart.now.regs 10)) }
    ensures place { FaultAt result hart.now.pc }
{
    let code = argument(hart);
    if code == 0 || code >= 5 {
        return Stopped::Fault(hart.pc, Cause::Call);
    }
    Stopped::Trapped(code as u8)
}

/// The environment call that stands at pc, and the answer of the run where it doesn't go on.
pub(crate) fn call<I: Source, O: Sink>(
    engine: &mut Engine,
    operator: &mut Operator,
    source: &mut I,
    sink: &mut O,
    probes: &mut Vec<Box<dyn Probe>>,
) -> Option<Stopped>
    requires { All (λ probe. IsPatient (hearing (told probe) (patience probe))) probes.old.items }
    ensures place { IfSome result (λ stopped. FaultAt stopped engine.new.hart.pc) }
    ensures quiet { engine.old.image.functions ≡ [] → engine.old.image.pointers ≡ [] → probes.new ≡ probes.old }
    ensures image { engine.new.image ≡ engine.old.image }
    ensures number { engine.new.number ≡ engine.old.number }
    ensures opened { engine.old.opened ≡ false → TellsOpened engine.old engine.new }
    ensures input { I.faults source.old ≤ I.faults source.new }
    ensures output { O.faults sink.old ≤ O.faults sink.new }
    ensures reading { CountAfter (input_failed result) (I.faults source.old) (I.faults source.new) }
    ensures writing { CountAfter (output_failed result) (O.faults sink.old) (O.faults sink.new) }
    ensures moves { FromCall result (seen engine.old operator.old (I.left source.old) (O.written sink.old)) (seen engine.new operator.new (I.left source.new) (O.written sink.new))
        (Rose (I.faults source.old) (I.faults source.new)) (Rose (O.faults sink.old) (O.faults sink.new))
        (λ events. Fates (Becomes (λ probe. object_at probe.ptr probe.vtable) (λ probe. hearing (told probe) (patience probe)) events) probes.old.items probes.new.items) }
{
    let number = number(&engine.hart);
    if number == EXIT {
        return Some(Stopped::Ended((argument(&engine.hart) % 0x100) as u8));
    }
    if number == READ {
        return match getchar(&mut engine.hart, source) {
            Ok(()) => None,
            Err(_) => Some(Stopped::InputFault),
        };
    }
    if number == WRITE {
        return match putchar(&mut engine.hart, sink) {
            Ok(()) => None,
            Err(_) => Some(Stopped::OutputFault),
        };
    }
    if number == TRAP {
        return Some(trap(&engine.hart));
    }
    if number == PLAN {
        return order(engine, probes);
    }
    if number == POLL {
        poll(engine, operator, probes);
        return None;
    }
    Some(Stopped::Fault(engine.hart.pc, Cause::Call))
}
