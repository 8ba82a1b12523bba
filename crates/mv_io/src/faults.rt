//! Counting faults, and the calls that are to fail.
ghost use Rattle.std.specs.Prelude.{◌≡◌, ◌+◌, ◌≤◌, ◌==◌, ◌||◌, is_err};
ghost use Rattle.std.specs.List.{list_any};
ghost use Rattle.mv_io.specs.Outside.{CountAfter};
ghost use Rattle.mv_io.specs.Schedules.{unused, fails_next, called, counted};

use crate::outside::Failed;
use std::marker::Model;

/// Counts a fault. The count stops at the last value of a `u64`.
pub fn count_fault(faults: &mut u64) -> Failed
    ensures counts { faults.new ≡ counted faults.old }
    ensures later { faults.old ≤ faults.new }
    ensures once { faults.new ≤ faults.old + 1 }
{
    *faults = faults.saturating_add(1);
    Failed
}

/// The calls that are to fail, by their numbers from 1, with the counts of calls and of faults.
/// A call beyond the last value of a `u32` can't be listed.
#[derive(Debug, Drop)]
pub struct FaultSchedule {
    failing: Vec<u32>,
    calls: u64,
    faults: u64,
}

impl Model for FaultSchedule {
    ghost use Rattle.mv_io.specs.Schedules.{Schedule};

    ghost Value = { Schedule };

    ghost view = { λ s. record { failing = s.failing.items; calls = s.calls; faults = s.faults } };
}

impl FaultSchedule {
    /// A schedule of which no call was made yet. A number 0 is that of no call.
    pub fn new(failing: Vec<u32>) -> FaultSchedule
        ensures { result ≡ unused failing.items }
    {
        FaultSchedule {
            failing,
            calls: 0,
            faults: 0,
        }
    }

    /// Counts a call, which fails where it is listed or `broken`.
    pub fn call(&mut self, broken: bool) -> Result<(), Failed>
        ensures fails { is_err result ≡ (broken || fails_next self.old) }
        ensures counts { self.new ≡ called self.old (is_err result) }
        ensures later { self.old.faults ≤ self.new.faults }
        ensures count { CountAfter (is_err result) self.old.faults self.new.faults }
    {
        self.calls = self.calls.saturating_add(1);
        if broken || is_listed(&self.failing, self.calls) {
            return Err(count_fault(&mut self.faults));
        }
        Ok(())
    }
}

fn is_listed(failing: &[u32], call: u64) -> bool
    ensures { result ≡ list_any (λ number. number == call) failing.now }
{
    failing.iter().any(|number| u64::from(*number) == call)
}
