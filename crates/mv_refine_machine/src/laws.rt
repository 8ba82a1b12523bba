ghost use Rattle.mv_refine_machine.specs.Laws.{CalmIsTested, RunsAreRuns, RunsAreRunsAlone, RunsAreRunsUnder, BoundStepsAreTaken, TextsAreFound, CodeIsPlaced, FreeLinesStand, BindingsAreShown, RunsBeginInCalm, KnownCallsAreServed, PackedIsLaidOut, EnvironmentCalls, BoundWordsAreInstructions};
ghost use Rattle.mv_refine_machine.specs.Shown.{BindingsHaveValues, BoundFunctionsShow, BoundPointsShow, FreeFunctionsShow};

/// The test of calm is true exactly where the machine is calm. The call does nothing: its contract is the law.
pub fn calm_is_tested()
    ensures { CalmIsTested }
{}

/// The machine is one on which code runs that loads from no address that is closed.
pub fn runs_are_runs()
    ensures { RunsAreRuns }
{}

/// So it is where only a part of text stands, for code that loads from no address that is closed there.
pub fn runs_are_runs_alone()
    ensures { RunsAreRunsAlone }
{}

/// From a calm time, the word that stands under the bindings is executed, also where text may be patched.
pub fn bound_steps_are_taken()
    ensures { BoundStepsAreTaken }
{}

/// The machine under some bindings, over a part of the words that stand under these, is one on which code runs that loads from no address that is closed
/// there.
pub fn runs_are_runs_under()
    ensures { RunsAreRunsUnder }
{}

/// The words of an image's text are found at their addresses, and stand there under all bindings where none show.
pub fn texts_are_found()
    ensures { TextsAreFound }
{}

/// Assembled code that stands in an image's text is placed there, apart from words that may be patched.
pub fn code_is_placed()
    ensures { CodeIsPlaced }
{}

/// Each line of assembled code stands under bindings where those that show there are free.
pub fn free_lines_stand()
    ensures { FreeLinesStand }
{}

/// The words that bindings put into text are those of instructions, jumps and NOP.
pub fn bound_words_are_instructions()
    ensures { BoundWordsAreInstructions }
{}

/// Where the binding of a function shows, a jump to its variant stands, a call of it, or its inline body.
pub fn bindings_are_shown()
    ensures { BindingsAreShown }
{}

/// What stands at entries and sites while a function is free or bound. `values`: an image reads what it is bound to. `free`: the lines of
/// the code stand. `bound`: its variant shows, by a jump at the entry, and at a site by a call or the inline words. `points`: while a pointer
/// switch is bound to a target, its pointer sites call that.
pub fn functions_show()
    ensures values { BindingsHaveValues }
    ensures free { FreeFunctionsShow }
    ensures bound { BoundFunctionsShow }
    ensures points { BoundPointsShow }
{}

/// A run begins in calm.
pub fn runs_begin_in_calm()
    ensures { RunsBeginInCalm }
{}

/// From a calm time, environment calls read, write, and end the run.
pub fn environment_calls()
    ensures { EnvironmentCalls }
{}

/// The machine serves `getchar` and `putchar` as generated code asks for them.
pub fn known_calls_are_served()
    ensures { KnownCallsAreServed }
{}

/// Globals and arrays that stand one behind the other are laid out.
pub fn packed_is_laid_out()
    ensures { PackedIsLaidOut }
{}
