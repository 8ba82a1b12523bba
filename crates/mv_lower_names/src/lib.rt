//! What the code that functions are lowered to names: functions, known functions and constants that are there.
//!
//! - `lowered_names_are_there`: the code of a well-formed program's functions names only functions, pointer switches,
//!   orders and switches that the program has; without commits, reverts and polls it calls only `getchar` and `putchar`; its constants are
//!   words where the source's numbers are.
#![tactic(auto)]

ghost use Rattle.mv_lower_names.specs.Laws.{ConstantsAreWords, FunctionsAreThere, NothingIsMarked, OnlyInputAndOutput, OrdersAreThere, PointersAreThere};

/// The code of a well-formed program's functions names what the program has. The call does nothing: its contract is the law.
///
/// `functions`: the functions that it calls by name, and those whose addresses it takes, are functions of the program. `pointers`: the globals through which it
/// calls by name are pointer switches. `orders`: an order for one function or one switch is for one that the program has. `direct`: where the program never commits, reverts or polls, the code calls no known functions but those
/// for input and output. `marked`: where no function is attributed, none is marked. `words`: where the constants, labels, order numbers and counts of the
/// program are in range (`specs/Sources.antt`), the constants in the code are below 2^32, and the numbers of its orders are a byte and a word.
pub fn lowered_names_are_there()
    ensures functions { FunctionsAreThere }
    ensures pointers { PointersAreThere }
    ensures orders { OrdersAreThere }
    ensures direct { OnlyInputAndOutput }
    ensures marked { NothingIsMarked }
    ensures words { ConstantsAreWords }
{}
