//! The plan area, and new bindings.

ghost use Rattle.std.specs.Prelude.{◌≡◌, ◌≤◌, ◌<◌, ◌^◌, [], All, length};
ghost use Rattle.mv_bindings.specs.Bindings.{events_from};
ghost use Rattle.mv_probe.specs.Hearing.{hearing, IsPatient, object_at, Becomes};
ghost use Rattle.mv_probe.specs.Fates.{Fates};
ghost use Rattle.mv_machine.specs.Runs.{stored_word, with_plan};
ghost use Rattle.mv_num.specs.Regions.{data_start};
ghost use Rattle.mv_machine.specs.Engines.{change};

use mv_bindings::binding::{Binding, Event};
use mv_fetch::Memory;
use mv_num::list::List;
use mv_num::regions::PLAN_AREA;
use mv_patch::Pair;
use mv_probe::{Probe, tell_all};

/// Stores a word outside text; nothing where there is no region.
pub(crate) fn store_word(memory: &mut Memory, address: u32, word: u32)
    requires { data_start ≤ address }
    ensures { memory.new ≡ stored_word memory.old address word }
{
    let _stored = memory.store(address, 4, word);
}

/// Writes pairs into the plan area: how many there are, and then the address and the word of each.
pub(crate) fn write_plan(memory: &mut Memory, pairs: &[Pair])
    requires few { length pairs.now ≤ 0x0001_0000 }
    ensures { memory.new ≡ with_plan memory.old pairs.now }
{
    store_word(memory, PLAN_AREA, pairs.len() as u32);
    let mut address = PLAN_AREA + 4;
    for pair in pairs {
        store_word(memory, address, pair.address);
        store_word(memory, address + 4, pair.word);
        address += 8;
    }
}

// Tells the probes of a function's binding, where it differs.
fn tell_change(function: u32, old: &Binding, new: &Binding, probes: &mut Vec<Box<dyn Probe>>)
    requires { All (λ probe. IsPatient (hearing (told probe) (patience probe))) probes.old.items }
    ensures { Fates (Becomes (λ probe. object_at probe.ptr probe.vtable) (λ probe. hearing (told probe) (patience probe)) (change function old.now new.now)) probes.old.items probes.new.items }
{
    if old != new {
        let event = Event {
            function,
            binding: *new,
        };
        tell_all(probes, &event);
    }
}

/// Tells the probes of each binding that differs, in order.
pub(crate) fn tell_changes(old: &[Binding], new: &[Binding], probes: &mut Vec<Box<dyn Probe>>)
    requires patient { All (λ probe. IsPatient (hearing (told probe) (patience probe))) probes.old.items }
    requires count { length old.now ≡ length new.now }
    requires few { length new.now < 2 ^ 32 }
    ensures quiet { new.now ≡ [] → probes.new ≡ probes.old }
    ensures told { Fates (Becomes (λ probe. object_at probe.ptr probe.vtable) (λ probe. hearing (told probe) (patience probe)) (events_from 0 old.now new.now)) probes.old.items probes.new.items }
{
    for (place, binding) in new.iter().enumerate() {
        tell_change(place as u32, &old[place], binding, probes);
    }
}

/// Takes on new bindings.
pub(crate) fn take_on(bindings: &mut List<Binding>, new: &[Binding])
    requires count { length bindings.old ≡ length new.now }
    ensures { bindings.new ≡ new.now }
{
    for (place, binding) in new.iter().enumerate() {
        bindings.set(place, *binding);
    }
}
