ghost use Rattle.std.specs.Prelude.{◌≡◌, ◌-◌, ◌≤◌, [], Some, IfOk, vec_len, vec_capacity};
ghost use Rattle.mv_probe.specs.Hearing.{hearing};

use crate::probe::{Probe, Verdict};
use mv_bindings::binding::Event;
use std::alloc::{AllocError, Global};

/// Keeps the events in memory that it takes at the start, and leaves once this is full.
#[derive(Debug, Drop)]
pub struct Recorder {
    events: Vec<Event>,
    room: u32,
    ghost reserved: { room ≤ vec_capacity events },
    ghost within: { vec_len events ≤ room },
    ghost countable: { room ≤ 4294967295 },
}

impl Recorder {
    /// Takes the memory for so many events, and leaves at the last of them. An error is want of memory.
    pub fn new(alloc: Global, room: u32) -> Result<Recorder, AllocError>
        requires { 1 ≤ room }
        ensures told { IfOk result (λ recorder. ⟦<Recorder as Probe>⟧.told recorder ≡ Some []) }
        ensures patience { IfOk result (λ recorder. ⟦<Recorder as Probe>⟧.patience recorder ≡ Some room) }
    {
        Ok(Recorder {
            events: Vec::with_capacity(alloc, room as usize)?,
            room,
        })
    }
}

impl Probe for Recorder {
    ghost told = { λ recorder. Some recorder.events.items };

    ghost patience = { λ recorder. Some (recorder.room - vec_len recorder.events) };

    fn tell(&mut self, event: &Event) -> Verdict {
        // There is room for it.
        let _stored = self.events.push(*event);
        if self.events.len() < self.room as usize {
            Verdict::Keep
        } else {
            Verdict::Leave
        }
    }

    fn heard(&self) -> u32 {
        u32::try_from(self.events.len()).unwrap_or(u32::MAX)
    }

    fn event(&self, index: u32) -> Option<Event> {
        self.events.get(index as usize).copied()
    }
}
