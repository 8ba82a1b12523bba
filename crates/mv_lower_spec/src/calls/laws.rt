// The laws of lowered code whose callees do what the source's functions do.

ghost use Rattle.mv_lower_spec.specs.Calls.Laws.{BodiesAreRight, CallsKeepBindings, GlobalsKeepTheirSizes, MainEndsAlike, MainIsRight};

use mv_meaning_numbering::numbering_law;

/// The lowered body of a function does what the function does by the source's meaning, if its callees do, wherever what they do has a meaning (C11
/// 6.5.2.2): at each bound, under each numbering of the functions, in each world, and whatever its temporaries and arrays hold when it begins, it ends in
/// the same way, at a cost of at most 20 and 100 for one of work. Nothing is said of a call that goes, through a pointer, to no function that fits. The
/// call does nothing: its contract is the law.
pub fn bodies_are_right()
    ensures { BodiesAreRight }
{}

/// A function that returns, by the source's meaning, leaves each global with the number of words that it is declared with. The call does nothing: its
/// contract is the law.
pub fn globals_keep_their_sizes()
    ensures { GlobalsKeepTheirSizes }
{}

/// A call of an attributed function leaves all bindings as they are, whether it returns, traps or is cut off by the bound: while its frame is live,
/// commits, reverts and polls change nothing. The call does nothing: its contract is the law.
pub fn calls_keep_bindings()
    ensures { CallsKeepBindings }
{}

/// The lowered body of `main` does what the program means, if its callees do what they do by the source's meaning, wherever that says anything (C11
/// 5.1.2.3): under each numbering of the functions, on each input, with all actions of the operator that fit, at each bound, and whatever its temporaries
/// and arrays hold when it begins, it has the same output, bytes taken, end, bindings and log, at a cost of at most 20 and 100 for one of work. The call
/// does nothing: its contract is the law.
pub fn main_is_right()
    ensures { MainIsRight }
{
    numbering_law();
}

/// And it ends as the lowered program does, and returns a value where it returns. The call does nothing: its contract is the law.
pub fn main_ends_alike()
    ensures { MainEndsAlike }
{
    numbering_law();
}
