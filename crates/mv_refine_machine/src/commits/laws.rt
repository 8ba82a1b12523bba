//! What runs do while commits are made. The calls do nothing: their contracts are the laws.

ghost use Rattle.mv_refine_machine.specs.Commits.Known.{Known};
ghost use Rattle.mv_refine_machine.specs.Commits.Laws.{QuietIsTested, StubServes};
ghost use Rattle.mv_refine_machine.specs.Commits.Ends.{WatchedExitIsRight, WatchedStartIsRight, WatchedTrapIsRight};
ghost use Rattle.mv_refine_machine.specs.Commits.Hosted.{WatchedCallsAreServed, WatchedMemory, WatchedRunsBegin};
ghost use Rattle.mv_refine_machine.specs.Commits.Tabled.{TabledOrdersAreServed};
ghost use Rattle.mv_refine_machine.specs.Commits.Tells.{SoundPlacesTell};
ghost use Rattle.mv_refine_machine.specs.Commits.WatchedRuns.{WatchedRunsAreRuns, WatchedRunsAreRunsAlone, WatchedRunsAreRunsUnder, WatchedStepsAreTaken};

use crate::stores::{text_between_law, texts_of_images_law};
use crate::stubs::{exit_is_right, start_is_right, trap_is_right};
use crate::{calm_is_tested, runs_are_runs, runs_begin_in_calm, texts_are_found};
use mv_ir_worlds::fit_worlds_law;
use mv_patch::laws::{pairs_law, tables_law};

// The laws of the crates below on which these stand, as one premise.
fn laws_below()
    ensures { Known }
{
    calm_is_tested();
    runs_are_runs();
    runs_begin_in_calm();
    texts_are_found();
    text_between_law();
    texts_of_images_law();
    pairs_law();
    tables_law();
    fit_worlds_law();
}

/// The test of calm is true exactly where the machine is calm and no commit is under way.
pub fn quiet_is_tested()
    ensures { QuietIsTested }
{
    laws_below();
}

/// The stub that stands in an image's text carries out each call for a plan.
pub fn stub_serves()
    ensures { StubServes }
{
    laws_below();
}

/// The run whose memory tells the commit that is under way is one on which code runs, each instruction from a place with settled text and room for its
/// store. `runs`: so it is for code that loads nothing that is closed anywhere. `alone`: for code that loads nothing that is closed to a part of text, over this
/// part. `under`: over a part of the words that stand under some bindings. `steps`: from calm, the word that stands there under the bindings is executed.
pub fn watched_runs_law()
    ensures runs { WatchedRunsAreRuns }
    ensures alone { WatchedRunsAreRunsAlone }
    ensures under { WatchedRunsAreRunsUnder }
    ensures steps { WatchedStepsAreTaken }
{
    laws_below();
}

/// With the tables of a program in the image, the stub serves the orders and polls of the program, as the calling convention says.
pub fn tabled_orders_are_served()
    ensures { TabledOrdersAreServed }
{
    laws_below();
}

/// What code needs of that run beside it. `begins`: it begins in calm. `memory`: memory has the words of globals and stack. `calls`: the machine serves `getchar` and
/// `putchar` as generated code asks for them.
pub fn watched_machine_law()
    ensures begins { WatchedRunsBegin }
    ensures memory { WatchedMemory }
    ensures calls { WatchedCallsAreServed }
{
    laws_below();
}

/// What a sound place tells of a state.
pub fn sound_places_tell()
    ensures { SoundPlacesTell }
{}

/// How that run starts and ends. `starts`: where the start stub stands at an image's entry, it is at `main` after seven instructions. `exits` and `traps`: behind
/// `main`, and at the stub of a trap, it ends. Each place on the way is sound.
pub fn watched_ends_law()
    ensures starts { WatchedStartIsRight }
    ensures exits { WatchedExitIsRight }
    ensures traps { WatchedTrapIsRight }
{
    laws_below();
    start_is_right();
    exit_is_right();
    trap_is_right();
}
