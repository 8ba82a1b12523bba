ghost use Rattle.mv_select.specs.Laws.{SelectedIsEncoded, SelectedLabelsAreOwn, SelectedTargetsStand, SelectedOpens, SelectedBegins};

/// The code that `select` gives for a body. The call does nothing: its contract is the law.
///
/// `encoded`: where a body keeps the conditions of `select` and its frame is small enough, all instructions have encodings; and
/// they have at most two words for each node of the trees, so many for each form of statement and 33 for entry and return, each
/// branch taken for two. `labels`: each label from 0 up to the number of labels stands once in the code,
/// and no other label does. `targets`: each label that the code names stands once in any lines where its own labels do, the
/// stubs of the traps and of orders and polls, and the functions that it names and their entries. `opens`: there is a first line,
/// which has words and is no slot. `begins`: that of an attributed body is the instruction that moves sp.
pub fn selection_law()
    ensures encoded { SelectedIsEncoded }
    ensures labels { SelectedLabelsAreOwn }
    ensures targets { SelectedTargetsStand }
    ensures opens { SelectedOpens }
    ensures begins { SelectedBegins }
{}
