//! Plans that turn the text of one set of bindings into that of another.
//!
//! A plan has the words of text that a commit or a revert changes, in ascending order of their addresses, the bindings
//! behind it, and its answer. `plan` is proved to give exactly the words at which the texts of the two bindings differ, and
//! the bindings and the answer that the tables of the image and the words of the switches in memory say.
//!
//! - `specs/Orders.antt` and `specs/Plans.antt` define what an order does by the tables of an image and the words of its switches in memory:
//!   the bindings behind it, its answer, and the pairs, which are the addresses at which the text of the new bindings
//!   differs from that of the old ones, with the new words.
//! - `plan` fills a plan with exactly these, for all six orders. It answers `Live(live)` exactly where `live` is above 0,
//!   and then the plan stays as it was. It takes no memory, and keeps the plan's room. It goes through the entries, the
//!   sites and the pointer sites in ascending order, and not through all text.
//! - `standing::{at_entry, at_site, after_site, at_point}` give what stands at an entry, at the words of a site and at those of a pointer site, by
//!   the variant or the target that is bound there.
//! - `laws::{pairs_law, tables_law, bindings_law}`: the pairs between two texts are all their differences and nothing
//!   else, in ascending order, and the only such list; they are found at any ascending addresses that hold each address
//!   at which the texts differ; the entries, the two words of each site and the four of each pointer site are such
//!   addresses for the texts of any two bindings; so there are no more pairs than these; an order leaves one binding for
//!   each function and each pointer switch.
//! - Only tested: an image made by hand, orders and polls on it, inline words, a value that no guard holds of (`mv_test_top`).
#![tactic(auto)]

mod bindings;
mod changes;
mod groups;
pub mod laws;
mod order;
mod planning;
mod prepared;
pub mod standing;

pub use order::Order;
pub use planning::{PlanError, plan};
pub use prepared::{Pair, Plan};
