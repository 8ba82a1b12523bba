ghost use Rattle.mv_select_code.specs.Control.Encoded.{FlowIsEncoded};
ghost use Rattle.mv_select_code.specs.Control.Labels.{LabelsAreFew, LabelsAreOwn, TargetsStand};
ghost use Rattle.mv_select_code.specs.Control.Laws.{FlowIsDone};

/// The code of statements does what they mean, at every bound, over any memory `M` and any machine that runs it. The call does
/// nothing: its contract is the law.
///
/// `done`: from a time of the run at which a state is shown at the code's place, a later time follows with what the statements
/// leave: where control goes behind the code, or where a `Break` or `Back` leads, or at the end of the function with the value,
/// or at the stub of a trap. That is so after no more instructions than the cost, and one for a jump behind the code; and where
/// the bound is used up, after no fewer than the bound. It takes for granted that the code of each call does what the call means.
///
/// `encoded`: where the code of each call has encodings, all instructions have, with what `push_statements` asks; and they have at
/// most two words for each node of the trees and so many for each form of statement, each branch taken for two, and one for a jump
/// behind them.
///
/// `labels`: each label from the first free one up to the next free one stands once in the code, and no other label does, if
/// none does in the code of calls. `few`: these are at most three for each statement. `targets`: each label that the code names
/// stands once in any lines where its own labels do, that where control goes behind it, those of what encloses it, of the end of
/// the function, of the stubs of the traps 1 and 2 and of the functions that it names, if that is so for the code of calls.
pub fn flow_code_law<M>()
    ensures done { FlowIsDone M }
    ensures encoded { FlowIsEncoded }
    ensures labels { LabelsAreOwn }
    ensures few { LabelsAreFew }
    ensures targets { TargetsStand }
{}
