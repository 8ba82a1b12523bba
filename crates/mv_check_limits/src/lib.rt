//! The limits on the number and the size of a program's parts.
//!
//! - `exceeded`: the least limit that the program of a unit passes, with the count of the first part in order of
//!   declaration that passes it, and `None` exactly where it passes none. `exceeded_by_counts`: the same for limits 1 to
//!   4 alone, by the numbers of functions, globals and switches and the first number of parameters that is too many. They
//!   take no memory. `specs/Limits.antt` has the limits over a program, `specs/Ordered.antt` the order in which the text
//!   of its unit has the parts; behind the counts that the text tells it has those of the program, which decide nothing
//!   where the unit breaks no rule (`mv_accepts_texts` has the law). `mv_test_top` has each limit at its value and one above it.
#![tactic(auto)]

pub mod counts;
mod elements;
pub mod excess;
pub mod limits;
pub mod parameters;
