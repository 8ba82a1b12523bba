ghost use Rattle.mv_select.specs.Calls.Laws.{CallsAreDone};
ghost use Rattle.mv_select.specs.Calls.Lines.{CallTargetsStand, CallsHaveCode, CallsHaveNoLabels};

/// The code of calls does what they mean, over any memory `M`. The call does nothing: its contract is the law. Its clauses have
/// the forms that `flow_code_law` of `mv_select_code::control` takes for granted of calls.
///
/// `done`: it does so at every bound, on any machine that runs it and serves the known functions, over any callees that keep the
/// calling convention. `encoded`: all its instructions have encodings, with what `CallCode` asks of calls; and a call has at most
/// 16 words besides two for each node of its trees. `labels`: no label stands in it. `targets`: each label that it names stands
/// once in any lines where the functions that it names and their entries do, the stubs of the traps 3 and 4, and the stub of orders
/// and polls.
pub fn call_code_law<M>()
    ensures done { CallsAreDone M }
    ensures encoded { CallsHaveCode }
    ensures labels { CallsHaveNoLabels }
    ensures targets { CallTargetsStand }
{}
