//! Which switches a function names.
//!
//! - `uses::switches_named`: the numbers, ascending, of those switches whose global some expression of the statements
//!   names, and no others. It makes one pass over the statements and one over the switches. Tested through the limits on
//!   switches of a function.
#![tactic(auto)]

mod flags;
mod marks;
pub mod uses;
