//! Narrowed machines: the same run, calm in fewer worlds, over another text.
//!
//! Words that stand only while some bindings hold are the text of a machine that is calm only in worlds with these bindings. What they do there, they do on
//! the machine itself in such worlds.
//!
//! A machine can be narrowed: the same run, calm in fewer worlds, over another text. Under some bindings its text is
//! the words that stand while these hold.
//!
//! - `narrow_runs_law`: a call that is followed on a narrowed machine is followed on the machine, and the other way round
//!   where it leaves the test true; a slot whose words stand in the narrowed text calls its target; an entry with a jump
//!   goes to the jump's target; and an entry with a function's first instruction moves sp down. None of these loads
//!   anything.

ghost use Rattle.mv_select.specs.Slots.Laws.{BindingsAreTold, FirstsUnder, JumpsUnder, NarrowedAreAlike, NarrowedRuns, SlotsUnder};
ghost use Rattle.mv_select.specs.Slots.Points.{ArrivalsFollow, PointsUnder};

/// What words do whose text stands in some worlds only, over any memory `M`. The call does nothing: its contract is the law.
///
/// `told`: a test tells equal bindings. `alike`: a call that is followed on a narrowed machine is followed on the machine, and the other way round where it
/// leaves the test true. `runs`: a machine that is narrowed over its own text runs what it ran, and its memory stays. `slots`: a slot calls its target. `jumps`: an entry
/// with a jump goes to its target. `firsts`: an entry with a function's first instruction moves sp down. `points`: a slot of four words goes by way of the
/// stub that tests it to where its pointer says, or to what that is bound to. `arrivals`: what follows there follows for the slot.
pub fn narrow_runs_law<M>()
    ensures told { BindingsAreTold }
    ensures alike { NarrowedAreAlike M }
    ensures runs { NarrowedRuns M }
    ensures slots { SlotsUnder M }
    ensures jumps { JumpsUnder M }
    ensures firsts { FirstsUnder M }
    ensures points { PointsUnder M }
    ensures arrivals { ArrivalsFollow M }
{}
