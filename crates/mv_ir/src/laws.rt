// What holds of the meanings, whatever the code is.

ghost use Rattle.mv_ir.specs.KeptPrograms.{LevelsKeep, ProgramsKeep};
ghost use Rattle.mv_ir.specs.Keeps.{KeepsOrder};
ghost use Rattle.mv_ir.specs.Reached.{EndsAreReached};

/// To keep the meaning of each body is to keep that of the program. The call does nothing: its contract is the law.
///
/// `order`: each body keeps its own meaning, and what is kept twice is kept. `levels`: functions that keep their
/// meanings over any callees do so over one another, at each bound and under each numbering. `programs`: two
/// programs that differ in such bodies give the same output, take the same input, and end with the same bindings and
/// log, and the second doesn't cost more.
pub fn meanings_law()
    ensures order { KeepsOrder }
    ensures levels { LevelsKeep }
    ensures programs { ProgramsKeep }
{}

/// Whatever a program's code is, its traps have codes 1 to 4, and the bytes that it has taken and those that are left of its
/// input are as many as before. The call does nothing: its contract is the law.
pub fn ends_are_reached()
    ensures { EndsAreReached }
{}
