//! What the operator does at the polls of a program or of an image: the actions of a list of items `K:NAME=VALUE`.
//!
//! `actions_of` and `actions_of_image` give exactly the actions of `specs/Operator.antt`: the K-th poll that takes an action flips the first
//! switch of this name to this value, and the polls between skip. They fit the program or the image. Where an item names no switch, or has a
//! value that isn't one of its type, the number of the first such item is the refusal. The switches are those of
//! `specs/Controls.antt`: a name and a type each.
#![tactic(auto)]

mod actions;
mod controls;
mod error;

pub use actions::{actions_of, actions_of_image};
pub use error::ActionsError;
