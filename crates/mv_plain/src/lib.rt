//! Code with plainer trees.
//!
//! - `plain_code`: the same statements over plainer trees: constants are computed, and operators and conversions that change nothing left out
//!   (`specs/Plain.antt`).
//! - A plainer tree has the same value in every state, whatever numbers temporaries and globals hold. So a body with such code means the same, traps included,
//!   at no greater cost, reads no more and has no more of anything, and is whole and well formed where it was: the lemma `plain_good` of
//!   `proofs/PlainGood.antt`, on which the contract of `tidy` of `mv_tidy` stands.
//! - `is_truth`: whether a tree's value is sure to be 0 or 1, by its form.
#![tactic(auto)]

mod plain;

pub use plain::{is_truth, plain_code};
