//! The law of several harts on one text.
//!
//! - `specs/Harts.antt` is the run of harts: what a turn of a hart does, by a schedule and by picks of the fetches. Hart 0 alone commits, once each
//!   other hart is parked at a poll or has ended; the others adopt its bindings behind its FENCE.I.
//! - `harts_are_right`: where the run of each hart alone is right for all acts that fit it (`BehavesAlone`, by fields of `Behaves` of `mv_refine_machine::runs`),
//!   each hart of a run is its own run alone with the acts that its polls took, but for the text of a freed hart; each fetch has one choice; text is
//!   that of hart 0's bindings, or between two; each hart adopts the commits in order, none skipped.
//! - No command runs several harts yet: this is a law about definitions.
#![tactic(auto)]

mod laws;

pub use laws::harts_are_right;
