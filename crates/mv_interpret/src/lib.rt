//! The reference interpreter: a program's meaning, computed.
//!
//! - `program::evaluate` answers exactly the meaning of a program at a bound (`mv_meaning`): output, bytes taken, end, bindings,
//!   log, and the work, which stops at the greatest number of 64 bits; and at every greater bound the meaning begins
//!   with the answer, and is the answer where that has ended. The one condition is that the program has fewer than 2^32
//!   functions and pointer switches.
//! - It gives up for want of memory where more than 10,000 expressions and blocks are within one another, over all calls, so that
//!   the stack of the host is enough (measured, no clause says it).
//! - `specs/Runs.antt` says how its own values show the world of the meaning.
//! - `mv_test_top` runs worked programs on it.
#![tactic(auto)]

pub mod arguments;
pub mod arms;
pub mod commits;
pub mod interpreter;
pub mod known;
pub mod numbers;
pub mod objects;
pub mod program;
pub mod reads;
pub mod state;
pub mod work;
