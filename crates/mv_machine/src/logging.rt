//! The log of a run.

ghost use Rattle.std.specs.Prelude.{◌≡◌, ◌<◌, ◌^◌, [], ◌++◌, length, false, None, IfOk, IfSome, OnOk};
ghost use Rattle.mv_bindings.specs.Bindings.{events_from};
ghost use Rattle.mv_machine.specs.Engines.{change};
ghost use Rattle.mv_machine.specs.Logging.{HasCome, Notes, events_of};

use crate::plans::take_on;
use mv_bindings::binding::{Binding, Event};
use mv_num::list::List;
use std::alloc::{AllocError, Global};

/// The changed bindings of a run so far, and the bindings that it has come to.
#[derive(Drop)]
pub(crate) struct Log {
    events: List<Event>,
    bindings: List<Binding>,
}

impl Log {
    // Nothing has changed since these bindings.
    fn start(alloc: Global, bindings: &List<Binding>) -> Result<Log, AllocError>
        ensures events { IfOk result (λ log. log.events ≡ []) }
        ensures bindings { IfOk result (λ log. log.bindings ≡ bindings.now) }
    {
        Ok(Log {
            events: List::new(alloc),
            bindings: bindings.copied(alloc)?,
        })
    }

    // Adds an event for each binding that differs, in order, and comes to these.
    fn add(&mut self, bindings: &[Binding]) -> Result<(), AllocError>
        requires count { length self.old.bindings ≡ length bindings.now }
        requires few { length bindings.now < 2 ^ 32 }
        ensures events { OnOk result (self.new.events ≡ self.old.events ++ events_from 0 self.old.bindings bindings.now) }
        ensures bindings { OnOk result (self.new.bindings ≡ bindings.now) }
    {
        push_changes(&mut self.events, self.bindings.as_slice(), bindings)?;
        take_on(&mut self.bindings, bindings);
        Ok(())
    }
}

// Adds the event of a function's binding, where it differs.
fn push_change(
    events: &mut List<Event>,
    function: u32,
    old: &Binding,
    new: &Binding,
) -> Result<(), AllocError>
    ensures { OnOk result (events.new ≡ events.old ++ change function old.now new.now) }
{
    if old != new {
        events.push(Event {
            function,
            binding: *new,
        })?;
    }
    Ok(())
}

// Adds an event for each binding that differs, in order.
fn push_changes(
    events: &mut List<Event>,
    old: &[Binding],
    new: &[Binding],
) -> Result<(), AllocError>
    requires count { length old.now ≡ length new.now }
    requires few { length new.now < 2 ^ 32 }
    ensures { OnOk result (events.new ≡ events.old ++ events_from 0 old.now new.now) }
{
    for (place, binding) in new.iter().enumerate() {
        push_change(events, place as u32, &old[place], binding)?;
    }
    Ok(())
}

/// A log from these bindings on, where it is wanted and there is memory for it.
pub(crate) fn log_from(alloc: Global, wanted: bool, bindings: &List<Binding>) -> Option<Log>
    ensures events { IfSome result (λ log. log.events ≡ []) }
    ensures come { HasCome bindings.now result }
    ensures unwanted { wanted ≡ false → result ≡ None }
{
    if wanted {
        Log::start(alloc, bindings).ok()
    } else {
        None
    }
}

/// Adds an event for each binding that differs from those that the log has come to. Where memory lacks, the log is no longer kept.
pub(crate) fn note(log: &mut Option<Log>, bindings: &[Binding])
    requires count { IfSome log.old (λ kept. length kept.bindings ≡ length bindings.now) }
    requires few { length bindings.now < 2 ^ 32 }
    ensures { Notes bindings.now log.old log.new }
{
    let Some(kept) = log else {
        return;
    };
    if kept.add(bindings).is_err() {
        *log = None;
    }
}

/// The events of a log.
pub(crate) fn events_of(log: Option<Log>) -> Option<List<Event>>
    ensures { result ≡ events_of log }
{
    match log {
        Some(log) => Some(log.events),
        None => None,
    }
}
