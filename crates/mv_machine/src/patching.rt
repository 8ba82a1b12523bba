//! Environment calls that commit, revert and poll.

ghost use Rattle.std.specs.Prelude.{◌≡◌, ◌≤◌, ◌<◌, [], ◌++◌, All, IfSome, length, ℕ, false, Option, List};
ghost use Rattle.mv_bindings.specs.OrderNumbers as orders;
ghost use Rattle.mv_bindings.specs.Bindings.{events_from};
ghost use Rattle.mv_bindings.specs.declared.binding.Event.{Event};
ghost use Rattle.mv_bindings.specs.declared.action.Action.{Action};
ghost use Rattle.mv_bindings.specs.Acts.{act_of};
ghost use Rattle.mv_isa.specs.Execution.{reg};
ghost use Rattle.mv_patch.specs.Orders.{is_known_order, binding_count};
ghost use Rattle.mv_patch.specs.Tables.{patchable};
ghost use Rattle.mv_machine.specs.Engines.{IsAsked};
ghost use Rattle.mv_probe.specs.Hearing.{hearing, IsPatient, object_at, Becomes};
ghost use Rattle.mv_probe.specs.Fates.{Fates};
ghost use Rattle.mv_machine.specs.Runs.{Going, Plans, Polls, environment_call, with_value, carried_out, refused, flipped, act, adopts};
ghost use Rattle.mv_machine.specs.Commits.{is_some_pair};
ghost use Rattle.mv_machine.specs.Moves.{Does, Moves, Outcomes, TellsOpened, seen, shown, FaultAt};

use crate::engine::Engine;
use crate::machine::Stopped;
use crate::operator::Operator;
use crate::plans::{store_word, take_on, tell_changes, write_plan};
use crate::registers::{answer, argument, index, live_frames};
use mv_bindings::action::Action;
use mv_bindings::binding::Binding;
use mv_bindings::orders;
use mv_fetch::Memory;
use mv_image::Image;
use mv_image::facts::{rows_fit, within_limits};
use mv_patch::{Order, plan};
use mv_probe::Probe;
use mv_rv32::Cause;

/// The answer to a call that changes nothing, as a poll that takes nothing is answered 0; the plan area has no pairs then.
pub fn refuse(engine: &mut Engine, value: u32)
    ensures does { (actions : List Action) → Does (λ s. refused s value) engine.old actions engine.new actions Going [] }
    ensures image { engine.new.image ≡ engine.old.image }
    ensures number { engine.new.number ≡ engine.old.number }
    ensures opened { TellsOpened engine.old engine.new }
{
    write_plan(&mut engine.memory, &[]);
    answer(&mut engine.hart, value);
    engine.opened = false;
}

// Carries out the plan, and tells the probes of each binding that changes.
fn carry_out(engine: &mut Engine, value: u32, probes: &mut Vec<Box<dyn Probe>>)
    requires few { length engine.old.plan.planned.pairs ≤ patchable engine.old.image }
    requires patient { All (λ probe. IsPatient (hearing (told probe) (patience probe))) probes.old.items }
    ensures does { (actions : List Action) → Does (λ s. carried_out s engine.old.plan.planned value) engine.old actions engine.new actions Going (events_from 0 engine.old.bindings engine.old.plan.planned.bound) }
    ensures quiet { engine.old.image.functions ≡ [] → engine.old.image.pointers ≡ [] → probes.new ≡ probes.old }
    ensures image { engine.new.image ≡ engine.old.image }
    ensures number { engine.new.number ≡ engine.old.number }
    ensures opened { engine.new.opened ≡ is_some_pair engine.old.plan.planned.pairs }
    ensures bindings { engine.new.bindings ≡ engine.old.plan.planned.bound }
    ensures told { Fates (Becomes (λ probe. object_at probe.ptr probe.vtable) (λ probe. hearing (told probe) (patience probe)) (events_from 0 engine.old.bindings engine.old.plan.planned.bound)) probes.old.items probes.new.items }
{
    within_limits(&engine.image);
    tell_changes(engine.bindings.as_slice(), engine.plan.bound(), probes);
    take_on(&mut engine.bindings, engine.plan.bound());
    write_plan(&mut engine.memory, engine.plan.pairs());
    answer(&mut engine.hart, value);
    engine.opened = !engine.plan.pairs().is_empty();
}

/// Whether there is an order with a code, and the image has the function, or the switch or pointer switch.
#[tactic(auto, unfolding(mv_patch::specs::Orders::is_known_order))]
pub fn is_known(image: &Image, code: u32, index: u32) -> bool
    ensures { result ≡ is_known_order image.now code index }
{
    within_limits(image);
    if code < u32::from(orders::COMMIT_FUNCTION) {
        return true;
    }
    if code < u32::from(orders::COMMIT_REFERENCES) {
        return (index as usize) < image.functions().len();
    }
    code < u32::from(orders::COUNT)
        && (index as usize) < image.switches().len() + image.pointers().len()
}

// The order of a code and an index.
fn order_of(code: u32, index: u32) -> Order
    requires { code < orders.count }
    ensures { IsAsked code index result }
{
    match code as u8 {
        orders::COMMIT => Order::CommitAll,
        orders::REVERT => Order::RevertAll,
        orders::COMMIT_FUNCTION => Order::CommitFunction(index),
        orders::REVERT_FUNCTION => Order::RevertFunction(index),
        orders::COMMIT_REFERENCES => Order::CommitRefs(index),
        _ => Order::RevertRefs(index),
    }
}

/// The commit or revert that a program asks for, and a fault where there is no such order. In another hart than 0 it is refused.
pub(crate) fn order(engine: &mut Engine, probes: &mut Vec<Box<dyn Probe>>) -> Option<Stopped>
    requires { All (λ probe. IsPatient (hearing (told probe) (patience probe))) probes.old.items }
    ensures place { IfSome result (λ stopped. FaultAt stopped engine.new.hart.pc) }
    ensures quiet { engine.old.image.functions ≡ [] → engine.old.image.pointers ≡ [] → probes.new ≡ probes.old }
    ensures image { engine.new.image ≡ engine.old.image }
    ensures number { engine.new.number ≡ engine.old.number }
    ensures opened { engine.old.opened ≡ false → TellsOpened engine.old engine.new }
    ensures moves { (actions : List Action) (left written : Option (List ℕ)) → Outcomes result
        (λ stop. Moves (environment_call Plans) (seen engine.old actions left written) (seen engine.new actions left written) stop
        (λ events. Fates (Becomes (λ probe. object_at probe.ptr probe.vtable) (λ probe. hearing (told probe) (patience probe)) events) probes.old.items probes.new.items))
        ⊥ ⊥ ⊥ }
{
    let code = argument(&engine.hart);
    let index = index(&engine.hart);
    if !is_known(&engine.image, code, index) {
        return Some(Stopped::Fault(engine.hart.pc, Cause::Call));
    }
    if engine.number != 0 {
        refuse(engine, u32::MAX);
        return None;
    }
    let order = order_of(code, index);
    let live = live_frames(&engine.hart);
    match plan(
        &engine.image,
        &engine.memory,
        &engine.bindings,
        live,
        order,
        &mut engine.plan,
    ) {
        Ok(()) => {
            let value = engine.plan.answer();
            carry_out(engine, value, probes);
            None
        }
        Err(_) => {
            refuse(engine, u32::MAX);
            None
        }
    }
}

// Stores a value in a switch.
fn set_switch(image: &Image, memory: &mut Memory, switch: u32, value: u32)
    ensures { memory.new ≡ with_value image.now memory.old switch value }
{
    rows_fit(image);
    if let Some(row) = image.switches().get(switch as usize) {
        store_word(memory, row.address, value);
    }
}

// Stores a value in a switch, and commits all functions and pointer switches.
fn flip(engine: &mut Engine, switch: u32, value: u32, probes: &mut Vec<Box<dyn Probe>>)
    requires { All (λ probe. IsPatient (hearing (told probe) (patience probe))) probes.old.items }
    ensures quiet { engine.old.image.functions ≡ [] → engine.old.image.pointers ≡ [] → probes.new ≡ probes.old }
    ensures image { engine.new.image ≡ engine.old.image }
    ensures number { engine.new.number ≡ engine.old.number }
    ensures opened { TellsOpened engine.old engine.new }
    ensures moves { (actions : List Action) (left written : Option (List ℕ)) → Moves (λ s. flipped s switch value) (seen engine.old actions left written) (seen engine.new actions left written) Going
        (λ events. Fates (Becomes (λ probe. object_at probe.ptr probe.vtable) (λ probe. hearing (told probe) (patience probe)) events) probes.old.items probes.new.items) }
{
    set_switch(&engine.image, &mut engine.memory, switch, value);
    let _planned = plan(
        &engine.image,
        &engine.memory,
        &engine.bindings,
        0,
        Order::CommitAll,
        &mut engine.plan,
    );
    carry_out(engine, 1, probes);
}

// What the operator does.
fn act(engine: &mut Engine, action: Action, probes: &mut Vec<Box<dyn Probe>>)
    requires { All (λ probe. IsPatient (hearing (told probe) (patience probe))) probes.old.items }
    ensures quiet { engine.old.image.functions ≡ [] → engine.old.image.pointers ≡ [] → probes.new ≡ probes.old }
    ensures image { engine.new.image ≡ engine.old.image }
    ensures number { engine.new.number ≡ engine.old.number }
    ensures opened { TellsOpened engine.old engine.new }
    ensures moves { (actions : List Action) (left written : Option (List ℕ)) → Moves (act (act_of action)) (seen engine.old actions left written) (seen engine.new actions left written) Going
        (λ events. Fates (Becomes (λ probe. object_at probe.ptr probe.vtable) (λ probe. hearing (told probe) (patience probe)) events) probes.old.items probes.new.items) }
{
    match action {
        Action::Skip => refuse(engine, 0),
        Action::Flip { switch, value } => flip(engine, switch, value, probes),
    }
}

/// A poll: the operator's next action, and none while a frame of an attributed function is live.
pub(crate) fn poll(engine: &mut Engine, operator: &mut Operator, probes: &mut Vec<Box<dyn Probe>>)
    requires { All (λ probe. IsPatient (hearing (told probe) (patience probe))) probes.old.items }
    ensures quiet { engine.old.image.functions ≡ [] → engine.old.image.pointers ≡ [] → probes.new ≡ probes.old }
    ensures image { engine.new.image ≡ engine.old.image }
    ensures number { engine.new.number ≡ engine.old.number }
    ensures opened { TellsOpened engine.old engine.new }
    ensures moves { (left written : Option (List ℕ)) → Moves (environment_call Polls) (seen engine.old operator.old left written) (seen engine.new operator.new left written) Going
        (λ events. Fates (Becomes (λ probe. object_at probe.ptr probe.vtable) (λ probe. hearing (told probe) (patience probe)) events) probes.old.items probes.new.items) }
{
    let live = live_frames(&engine.hart);
    if live != 0 {
        return refuse(engine, 0);
    }
    match operator.next() {
        None => refuse(engine, 0),
        Some(action) => act(engine, action, probes),
    }
}

/// Takes on bindings that a commit of hart 0 has made, of which text has the words already: in place of a poll, with the answer 1.
pub fn adopt(engine: &mut Engine, bindings: &[Binding])
    requires { length bindings.now ≡ binding_count engine.old.image }
    ensures image { engine.new.image ≡ engine.old.image }
    ensures number { engine.new.number ≡ engine.old.number }
    ensures opened { engine.new.opened ≡ engine.old.opened }
    ensures adopts { (left written : Option (List ℕ)) (input : List (Option ℕ)) (output : List ℕ) (log : List Event) →
        adopts (shown (seen engine.old [] left written) Going input output log) bindings.now
        ≡ shown (seen engine.new [] left written) Going input output (log ++ events_from 0 engine.old.bindings bindings.now) }
{
    write_plan(&mut engine.memory, &[]);
    take_on(&mut engine.bindings, bindings);
    answer(&mut engine.hart, 1);
}
