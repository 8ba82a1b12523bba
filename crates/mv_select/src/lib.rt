//! Instruction selection: the code of a whole body.
//!
//! - `select`: the code of a well-formed body with trees at most 4 deep, its entry, its statements and its return,
//!   exactly as `specs/Selected.antt` defines it, with the addresses and sizes of the body's own rooms; all its labels
//!   are below `labels`, at most three for each statement and one. `Frame` comes exactly where the frame has more than
//!   2,032 bytes, with the function and the bytes (at most the greatest number of 64 bits); then temporaries and elements
//!   together are more than 480. Up to nine numbers that save most words, counted eight times within each loop, are pins: they
//!   stand in registers that no temporary has, from entry on, which brings them there by one or two words each and has at most
//!   eight for them and the moves of parameters.
//! - `selection_law`: the instructions have encodings, and there are at most 33 words besides two for each tree node and
//!   those that `mv_select_code::control` says for each form of statement (`encoded`); each label that the code takes stands in it
//!   once, and no other does (`labels`); each label that it names stands once, wherever its own labels do, the stubs of
//!   the traps, that of orders and polls and, where it calls through pointer switches, the check stub, and the functions
//!   that it names and their entries (`targets`); there is a first
//!   line, which has words and is no slot (`opens`), and that of an attributed body is the instruction that moves sp (`begins`).
//!
//! Below this, in modules with their own specifications and headers:
//!
//! - `calls`: the calling convention, the code of calls, and what it does (`call_code_law`).
//! - `functions`: entry and return of functions, and that functions keep the calling convention (`function_code_law`).
//! - `slots`: what words do that stand while some bindings hold (`narrow_runs_law`).
//! - `bodies`: which bodies code can be selected for, and what their lines name (`bodies_are_small`, `bodies_are_functions`,
//!   `code_is_the_same`, `rooms_stand`, `lines_are_named`).
//! - `inline`: bodies of two instructions, in place of a call (`inline_of`, `inline_law`).
#![tactic(auto)]

pub mod bodies;
pub mod calls;
pub mod error;
mod frame;
pub mod functions;
pub mod inline;
mod laws;
mod pins;
mod selection;
mod silent;
pub mod slots;
mod uses;

pub use crate::inline::inline_of;
pub use laws::selection_law;
pub use selection::select;
