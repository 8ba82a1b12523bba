//! Runs while commits are made.
//!
//! A commit, a revert and a poll are calls for a plan, made in the stub of commits: its loop stores the pairs of the plan into text
//! one by one, and FENCE.I ends it. `specs/Commits/Watched.antt` sets beside the machine's memory the bindings from which the commit
//! began that is under way, as `commit_from` of `mv_machine` tells them, the hart, and what its polls are still to take.
//!
//! - A place is sound (`specs/Commits/Watch.antt`) where a fetch has one choice and loads nothing that is closed there; text is that
//!   of the bindings with nothing older, or between the texts before and after the commit that is under way; a store into
//!   text finds room; and pc stands at no word that this commit changes, stored or to come, and at no environment call.
//!   `sound_places_tell` says what this means for a state.
//! - Calm (`IsQuiet`) is the calm of `mv_refine_machine`, and that no commit is under way, nothing is older, the whole reserve
//!   is spare and enough for each commit, the plan area has all its words, and the hart and what its polls take are those of
//!   the world. `quiet_is_tested`: it is a test.
//! - `stub_serves`: from calm at the stub, with a call that leaves a plan, the run comes back to the caller in calm with the
//!   new bindings, in 6 instructions and 7 for each pair that text hasn't yet; the answer is in a0, t0 to t3 alone have changed
//!   beside it, loads from data and stack give what they gave, and each place on the way is sound. The loop is proved from any
//!   split of the pairs, over the room in which none is stored (`specs/Commits/Storing.antt`).
//! - `tabled_orders_are_served`: where the tables of an image are a program's, each order and each poll of the program is
//!   such a call in each hart, for it does by the tables what it does in the source: in another hart than 0 an order is
//!   refused, and what a poll adopts is in text at once, with an empty plan. So the machine serves them as the calling
//!   convention says, from worlds that fit.
//! - `watched_runs_law`: the run is one on which generated code runs, each instruction from a sound place, also over the
//!   words that stand under bindings. `watched_machine_law`: it begins in calm, its memory has words, and it serves
//!   `getchar` and `putchar`. `watched_ends_law`: how it starts, exits and traps.

mod laws;

pub use laws::{
    quiet_is_tested, sound_places_tell, stub_serves, tabled_orders_are_served, watched_ends_law,
    watched_machine_law, watched_runs_law,
};
