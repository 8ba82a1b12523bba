//! The patch view of an image: for each place of its text at which bindings show, what stands there while all is free, and what a commit puts there.
//!
//! - `patch_view` gives exactly the text that `specs/PatchView.antt` says: the entries, the sites and the pointer sites in the image's order, of each the words while
//!   it is free and under each variant or target, as instructions.
//! - `shows_text`: what a text under bindings holds at a place is what is shown there for the variant or the target that they lead to.
//! - Only tested: the views of images by hand (`mv_test_top`).
#![tactic(auto)]

mod heads;
mod laws;
mod place;
mod points;
mod view;
mod words;

pub use laws::shows_text;
pub use view::patch_view;
