ghost use Rattle.mv_select.specs.Functions.Encoded.{FramesAreEncoded};
ghost use Rattle.mv_select.specs.Functions.Functions.{FunctionsKeep, LaterKeeps, MainKeeps};

/// The code of a function keeps the calling convention, over any memory `M`, any machine that runs it and any functions that
/// keep it at each lower bound. The call does nothing: its contract is the law.
///
/// `each`: a function called with as many arguments as it has parameters does what its body means, given what its frame
/// holds at first. `later`: so does an attributed one, whose first instruction stands in text that may be patched. `main`: so does the
/// main function, which no other calls. The machine has to run their code only where it loads no more than the words of the
/// stack and of the globals that the function reads, and stores no more than to the stack and to the globals that it writes.
/// `encoded`: the instructions of entry and return have encodings, and are at most 20 and 13 words, where pins have few.
pub fn function_code_law<M>()
    ensures each { FunctionsKeep M }
    ensures later { LaterKeeps M }
    ensures main { MainKeeps M }
    ensures encoded { FramesAreEncoded }
{}
