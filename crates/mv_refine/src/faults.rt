//! Runs that a failing device cut off: what their next instruction would have done.

ghost use Rattle.mv_refine.specs.CutRuns.{TakenIsEnough, ReadTakesMore, WriteWritesMore};

/// What a run does that was cut off before a read or a write. The call does nothing: its contract is the law.
///
/// `taken`: what a run does depends on no more of its input than it has taken. `reads`: the read that comes next takes what is
/// given behind that. `writes`: the write that comes next writes one byte.
pub fn cut_runs_law()
    ensures taken { TakenIsEnough }
    ensures reads { ReadTakesMore }
    ensures writes { WriteWritesMore }
{}
