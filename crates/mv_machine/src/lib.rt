//! The machine that runs an image.
//!
//! - `specs/Runs.antt` defines the run: the state of an image after n instructions in a hart, with what its polls take and
//!   under a list of picks. `Machine` runs hart 0, whose polls take the operator's actions (`polls_of`).
//! - `Machine::start` gives the first state. `Machine::run` is that definition for the given number of instructions,
//!   under the oracle's way or, where it tells none, one list of picks, one for each executed instruction but for one
//!   that can't be fetched; a told list's place goes on by as many. `Ended`, `Trapped` and `Fault` are its stop; `Steps`
//!   comes where that many were executed and none ended the run. After a failed read or write the state is the one before
//!   that call, which is a read or a write, and the count of the source's or the sink's faults rose, by one; with each other
//!   answer both counts are as before, so a device that failed is asked nothing more. A machine that has ended gives its
//!   answer again and does nothing. Each probe that is left was told the log of the state, in order, up to the event at
//!   which it left. A report has how many instructions were executed and, where it was asked for and there was memory
//!   for it, exactly that log; and where it was asked for, exactly the departure of these instructions, which is from
//!   where they went last to another place than the next in the words of functions (`specs/Departures.antt`).
//!   `bindings` and `word` are the state's.
//! - An order and a poll are part of that definition: with a live frame they change nothing, nor does an order in another
//!   hart than 0; else the plan of `mv_patch` is in the plan area, the bindings are its own, and the log has an event for
//!   each that differs. Text is stored by the program alone, but for the words that come with bindings which a poll of
//!   another hart adopts. On an image without attributed functions and pointer switches the probes are left as they were,
//!   a clause says.
//! - For several harts the engine of one is exported: `Engine::start` gives the first state of any hart, `turn` is one instruction of the
//!   definition or a failed read or write, and tells whether it left bindings with another text, and `adopt` takes on the bindings of a commit that hart 0
//!   has made, which `Machine` never does. `refuse` answers a call that changes nothing. `Operator` holds what polls take; `is_known` and `registers` tell what
//!   stands before a call.
//! - `specs/Commits.antt` says which commit is under way in a run. It is a definition for the laws above.
//! - `laws::upgrade_law`: the runs of an image and of the image in version 2 differ in nothing but the image (`specs/Upgrades.antt`).
//! - Only tested: that each pick is told the address of its instruction; two images that store over their own words under
//!   three oracles, seven faults with their places, and an echo whose read or write fails (`mv_test_top`).
#![tactic(auto)]

mod call;
mod departures;
mod engine;
pub mod laws;
mod logging;
mod machine;
mod operator;
mod patching;
mod plans;
pub mod registers;
mod run_loop;
mod starting;

pub use engine::Engine;
pub use machine::{Machine, Report, Stopped};
pub use operator::Operator;
pub use patching::{adopt, is_known, refuse};
pub use run_loop::turn;
