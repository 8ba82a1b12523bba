//! That lowered code does what the source means where its callees do.
//!
//! `specs/Calls/SourceCalls.antt` says what the functions of a program do by the source's meaning, as code that calls them sees it. So code can be followed
//! call by call without anything being known of what the frames of its callees hold.
//!
//! - `bodies_are_right`: the lowered body of a function does what the function does by the source's meaning, if its
//!   callees do, wherever what they do has a meaning: at each bound, under each numbering, in each world and whatever
//!   its frame holds when it begins, at a cost of at most 20 and 100 for one of work. Nothing is said of a call
//!   through a pointer to a function that doesn't fit. `main_is_right`: so the lowered body of `main` does what the
//!   program means. `globals_keep_their_sizes`, `calls_keep_bindings`: a function that returns leaves each global with
//!   its words; a call of an attributed function leaves all bindings as they are, however it ends.

mod laws;

pub use laws::{
    bodies_are_right, calls_keep_bindings, globals_keep_their_sizes, main_ends_alike, main_is_right,
};
