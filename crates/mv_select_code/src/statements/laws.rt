ghost use Rattle.mv_select_code.specs.Statements.Encoded.{StatementsAreEncoded};
ghost use Rattle.mv_select_code.specs.Statements.Laws.{StatementsAreDone};

/// The code of statements without control does what they mean, over any memory `M`. The call does nothing: its contract is the
/// law.
///
/// `done`: wherever the code stands, it leads from what shows a state to what shows the state after the statement, or to the
/// stub of its trap, or to the end of the function, in no more instructions than the statement costs, and stores only to cells
/// of the frame. Of the loop that makes an array 0 that is said of what comes before it and of one turn, which go on to a state of
/// which one more word is 0. `encoded`: its instructions have encodings, and its words are bounded by the nodes of the trees.
pub fn statement_code_law<M>()
    ensures done { StatementsAreDone M }
    ensures encoded { StatementsAreEncoded }
{}
