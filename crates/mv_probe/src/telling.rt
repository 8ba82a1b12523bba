ghost use Rattle.std.specs.Prelude.{◌≡◌, [], ◌∷◌, All};
ghost use Rattle.mv_probe.specs.Hearing.{hearing, Hears, Answers, IsPatient, object_at, Becomes};
ghost use Rattle.mv_probe.specs.Fates.{Fates};

use crate::probe::{Probe, Verdict};
use mv_bindings::binding::Event;

// Tells one probe an event.
fn tell_one(probe: &mut Box<dyn Probe>, event: &Event) -> Verdict
    requires { IsPatient (hearing (told probe.old) (patience probe.old)) }
    ensures hears { Hears (event.now ∷ []) (hearing (told probe.old) (patience probe.old)) (hearing (told probe.new) (patience probe.new)) }
    ensures verdict { Answers (hearing (told probe.old) (patience probe.old)) result }
    ensures same { object_at probe.new.ptr probe.new.vtable ≡ object_at probe.old.ptr probe.old.vtable }
{
    probe.tell(event)
}

/// Tells each probe an event, in order, and drops those that leave.
pub fn tell_all(probes: &mut Vec<Box<dyn Probe>>, event: &Event)
    requires { All (λ probe. IsPatient (hearing (told probe) (patience probe))) probes.old.items }
    ensures { Fates (Becomes (λ probe. object_at probe.ptr probe.vtable) (λ probe. hearing (told probe) (patience probe)) (event.now ∷ [])) probes.old.items probes.new.items }
{
    let mut place = 0;
    while place < probes.len() {
        match tell_one(&mut probes[place], event) {
            Verdict::Keep => place += 1,
            Verdict::Leave => drop(probes.remove(place)),
        }
    }
}

/// Tells each probe these events, in order, up to the one at which it leaves.
pub fn tell_each(probes: &mut Vec<Box<dyn Probe>>, events: &[Event])
    requires { All (λ probe. IsPatient (hearing (told probe) (patience probe))) probes.old.items }
    ensures { Fates (Becomes (λ probe. object_at probe.ptr probe.vtable) (λ probe. hearing (told probe) (patience probe)) events.now) probes.old.items probes.new.items }
{
    for event in events {
        tell_all(probes, event);
    }
}
