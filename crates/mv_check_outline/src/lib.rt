//! What a unit declares at file scope, found before anything is judged: the functions that it
//! defines, its objects, and which of them are marked (C11 6.9).
//!
//! - `outline_of`: the functions that a unit defines and its objects, each in order of first declaration, and those of
//!   them of which any declaration has the attribute, as plain lists of names; `Names::number_of` is a name's place. So a
//!   name has its number before its first use is judged.
//! - `Names::number`: a name's number, which it gets where it is new. Scopes number theirs by it.
#![tactic(auto)]

pub mod names;
pub mod outline;
