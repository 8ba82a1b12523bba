ghost use Rattle.mv_refine_machine.specs.Stubs.Laws.{StartIsRight, ExitIsRight, TrapIsRight, ChecksStand};

use crate::{calm_is_tested, environment_calls, runs_are_runs, runs_begin_in_calm};

/// A run that begins at the start stub is at `main` after seven instructions, with the globals in memory. The call does
/// nothing: its contract is the law.
pub fn start_is_right()
    ensures { StartIsRight }
{
    calm_is_tested();
    runs_are_runs();
    runs_begin_in_calm();
}

/// Where `main` returns to, a run exits with what `main` returned, modulo 256.
pub fn exit_is_right()
    ensures { ExitIsRight }
{
    calm_is_tested();
    runs_are_runs();
    environment_calls();
}

/// At the stub of a trap, a run ends with its code.
pub fn trap_is_right()
    ensures { TrapIsRight }
{
    calm_is_tested();
    runs_are_runs();
    environment_calls();
}

/// The stub of calls through pointer switches stands where its lines are placed, and so do those of its traps.
pub fn checks_stand()
    ensures { ChecksStand }
{}
