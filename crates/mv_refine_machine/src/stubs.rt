//! The stubs of a program in the text of an image: how a run starts, how it exits or traps, and the test of calls through pointer switches.
//!
//! - `start_is_right`: where the start stub stands at an image's entry, and the data are the globals one behind the
//!   other, the run is at `main` after seven instructions, with an empty stack, 512 calls left and no live attributed
//!   frame. `exit_is_right`: where `main` returns to, two instructions end the run with its result modulo 256.
//!   `trap_is_right`: at the stub of a trap, three instructions end the run with its code.
//! - `checks_stand`: the stub of calls through pointer switches stands where its lines are placed; what it does is shown
//!   in `mv_select::slots`.

mod laws;

pub use laws::{checks_stand, exit_is_right, start_is_right, trap_is_right};
