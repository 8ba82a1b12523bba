ghost use Rattle.std.specs.Prelude.{◌≡◌, ◌≤◌, ◌↔◌, ℕ, List, [], ◌∷◌, Option, Some, IfSome, IsNone, length, min, slice_get};
ghost use Rattle.mv_probe.specs.Hearing.{hearing, Hears, Answers, IsPatient};
ghost use Rattle.mv_bindings.specs.declared.binding.Event.{Event};

use mv_bindings::binding::Event;

/// What a probe answers to an event.
#[derive(Clone, Copy, Debug, Drop, PartialEq, Eq)]
pub enum Verdict {
    Keep,
    Leave,
}

/// Is told each event, until it leaves.
pub trait Probe: Drop {
    /// The events that it was told, where it tells them.
    ghost told: { Self → Option (List Event) };

    /// The number of events until the one at which it leaves, where it tells it.
    ghost patience: { Self → Option ℕ };

    /// Tells it an event.
    fn tell(&mut self, event: &Event) -> Verdict
        requires { IsPatient (hearing (told self.old) (patience self.old)) }
        ensures hears { Hears (event.now ∷ []) (hearing (told self.old) (patience self.old)) (hearing (told self.new) (patience self.new)) }
        ensures verdict { Answers (hearing (told self.old) (patience self.old)) result };

    /// How many events it heard, or the largest number where they are more.
    fn heard(&self) -> u32
        ensures { IfSome (told self.now) (λ events. result ≡ min (length events) 4294967295) };

    /// The event at a place in the order in which it heard them, where the place is below `heard`.
    fn event(&self, index: u32) -> Option<Event>
        ensures element { IfSome (told self.now) (λ events. IfSome result (λ event. slice_get events index ≡ Some event)) }
        ensures none { IfSome (told self.now) (λ events. IsNone result ↔ (min (length events) 4294967295 ≤ index)) };
}
