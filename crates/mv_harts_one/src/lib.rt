//! One hart of several, in code.
//!
//! - A `Seat` is one hart with its engine and how it stands: `Sits` (`specs/Seats.antt`) says which hart of a run of harts it is (`mv_harts_runs`), and
//!   what its source has left.
//! - `Seat::start` is a hart before its first instruction. `is_on`: it has not ended. `glance`: where the instruction at pc stands, and the store that it
//!   is. `adopt`: it takes on the bindings of a commit of hart 0. `take_store`: it makes another hart's store into text.
//! - `Seat::execute` is one instruction, as `move` and `executes` of that run define it, or a read or write that failed (`Did`, in
//!   `specs/Executions.antt`): what was written, what is left, the state, and whether the commit of hart 0 is under way behind it. Each count of
//!   faults is as before, but for that of the device that failed, which is one more at most. A hart whose read failed stands before a read, and one
//!   whose write failed before a write (`IsBefore`, in `Sits`).
//! - `Seat::advance` is one instruction that concerns no other hart and no device, where that is what stands at pc (`HasAdvanced`): the same state,
//!   no call, and no commit that begins. Else it leaves the hart as it was, and the answer is no. That it is no store into text is a premise, as that
//!   a fetch has one choice: both hold in each run of harts on an image that is right, while no commit is under way.
//! - All of this is under two premises: the source tells its bytes, and a fetch has one choice, as in each run of harts on an image that is right.
//! - Want of memory: where a store into text finds none, the instruction isn't executed and nothing is written.
#![tactic(auto)]

mod advance;
mod execute;
mod fields;
mod glance;
mod seat;
mod store;

pub use glance::{Glance, Place};
pub use seat::{Mode, Seat, Taken};
pub use store::{Store, Width};
