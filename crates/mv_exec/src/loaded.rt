//! An image that was loaded.

use mv_bindings::action::Action;
use mv_image::Image;

/// An image, and what the operator does at its polls.
#[derive(Drop)]
pub struct Loaded {
    /// The image that the bytes of its file spell.
    pub image: Image,
    /// The actions in order, one for each poll that takes one.
    pub actions: Vec<Action>,
}
