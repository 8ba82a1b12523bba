//! Several harts on one text, turn by turn.
//!
//! - `Group` is the harts of a run, hart 0 first, with the bindings that its commits left. `specs/Groups.antt` says which harts a group is (`Shows`), of those that
//!   `mv_harts_runs` defines.
//! - `run` gives the harts of a schedule their turns. The group is then the harts behind those turns; each count of faults is as before, but that of a
//!   device at which a hart failed, which rose, by one at most; each source lost what its hart has read, each sink got what it has written, and the oracle was
//!   asked once for each instruction and for each read or write that failed (`Ran`). Without memory the counts and the sinks are so by some turn (`Broken`).
//! - Nearly each turn is one instruction that just goes on (`Group::go_on`); the others ask what stands at pc, wait, adopt, commit, share a store or call a device.
//! - The premises are that the sources tell their bytes, and that the run of each hart alone is right on the image (`IsReadyFor`); so no fetch has two
//!   choices, which `harts_are_right` of `mv_harts_runs` shows.
#![tactic(auto)]

mod advance;
mod group;
mod leader;
mod other;
mod poll;
mod schedule;
mod share;
mod step;

pub use group::{Committed, Group};
pub use schedule::run;
