//! That code has one slot for each direct call of an attributed function, and one of four words for each call through a pointer switch.
//!
//! - `each_call_has_a_slot`, of the code of a body: it has one slot for each direct call of a function that the body marks
//!   (`marked`). Where the body is one of a function of a program, its own or a variant, these are the calls of attributed
//!   functions in it (`attributed`); and where it is what the function is lowered to, made ready or not, and
//!   renamed, they are as many as in the source, as no attributed function has a short body (`source`), of each function as many slots as direct
//!   calls (`callees`), and of each pointer switch as many slots of four words as calls through it (`pointers`).
//! - A crate of one law, without a test.
#![tactic(auto)]

ghost use Rattle.mv_count_slots.specs.Calls.{AttributedCallsHaveSlots, CalleesHaveSlots, MarkedCallsHaveSlots, PointersHaveSlots, SourceCallsHaveSlots};

use mv_lower_spec::shape::lowered_forms_are_right;
use mv_variants::bound::slots_are_counted;

/// The code of a body has one slot for each direct call of an attributed function in it, so no such call misses a commit, and no other has a slot. The call
/// does nothing: its contract is the law.
///
/// `marked`: of any body, and the functions that it marks. `attributed`: of each body of a program's function, its own or a variant, folded or not, and the
/// attributed functions of the program. `source`: of a function's own body, whose code is neither bound nor folded, and the calls in the source. `callees`: the same of
/// each attributed function that is called. `pointers`: of a function's own body, the slots of four words through each pointer switch and the calls through it
/// in the source; a variant has none where the source has none.
pub fn each_call_has_a_slot()
    ensures marked { MarkedCallsHaveSlots }
    ensures attributed { AttributedCallsHaveSlots }
    ensures source { SourceCallsHaveSlots }
    ensures callees { CalleesHaveSlots }
    ensures pointers { PointersHaveSlots }
{
    slots_are_counted();
    lowered_forms_are_right();
}
