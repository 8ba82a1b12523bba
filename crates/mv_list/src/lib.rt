//! What is printed of an image: its tables, what its functions and pointer switches are bound to, the words of its text that were changed, the log of a run,
//! and in whose code an address stands.
//!
//! - `listing`, `bindings`, `patched`, `events` and `place` give exactly the texts that `specs/Listing.antt`, `specs/Bindings.antt`, `specs/Changes.antt`,
//!   `specs/Events.antt` and `specs/Places.antt` say. They ask nothing of what is handed in: a function or a pointer switch without a binding counts as free,
//!   and a word that a machine doesn't hold as 0.
//! - `patched` sets beside the image's text what loads give. `loads_give_the_text`: where the text of a memory consists of
//!   words of 32 bits, that is the text.
//! - Only tested: one listing of two switches, of which one is signed, and two functions, of which one has no switches;
//!   bindings of these (`mv_test_top`).
#![tactic(auto)]

mod bound;
mod changed;
mod functions;
mod lines;
mod logged;
pub mod names;
pub mod numbers;
mod parts;
mod places;
mod pointers;
mod switches;

pub use bound::bindings;
pub use changed::{loads_give_the_text, patched};
pub use lines::listing;
pub use logged::events;
pub use places::{place, place_name};
