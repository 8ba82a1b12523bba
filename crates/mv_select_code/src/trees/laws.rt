ghost use Rattle.mv_select_code.specs.Trees.Laws.{TreesRun, TreesLeave, OperandsStand, TreesAreShort, TreesFit};

/// The code of trees does what trees mean, over any memory `M`. The call does nothing: its contract is the law.
///
/// `runs`: the code leads straight to registers of which one holds the tree's value, and changes no others but as many behind
/// it as the tree is deep. `leave`: the same for a register apart from these, other than gp and tp. `stand`: an operand's value stands in its own
/// register, if it has one, and no line is spent on it. `short`: it has at most two words for each node. `fits`: its instructions have encodings.
pub fn tree_code_law<M>()
    ensures runs { TreesRun M }
    ensures leave { TreesLeave M }
    ensures stand { OperandsStand M }
    ensures short { TreesAreShort }
    ensures fits { TreesFit }
{}
