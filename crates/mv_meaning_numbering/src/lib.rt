//! Numberings of the functions of a program: a well-typed program means the same under each.
//!
//! - `specs/Numberings.antt`: what a numbering is (a word above 0 for each function, all different), and the meaning of a
//!   program under one: function pointers have its numbers, the first values of globals among them. Well-typed programs are those of
//!   `mv_source_forms`.
//! - `numbering_law`: a well-typed program has one meaning (output, bytes taken, end, bindings, log, work) under any two
//!   numberings, and under any numbering the meaning that it has: in each hart, on each input, with all that its polls take
//!   and that fits there, at each bound. And what any program means is its meaning under its own numbering. Nor does it
//!   show what a call through a pointer would do that reached no function of the pointer's type: such calls may do
//!   anything, and a compiler needn't carry them out.
//! - `pointer_types_law`: all that a well-typed program logs of a pointer switch frees it or binds it to a function of its type.
//! - `is_numbering`: it answers whether a list of numbers is a numbering of a program's functions; where it is, a
//!   well-typed program means under it what it means.
//! - Beside it, checked and named by no contract: a worked program with a global function pointer, a null constant, `==`
//!   and a call through the pointer is well typed.
#![tactic(auto)]

mod law;
mod numbering;

pub use law::{numbering_law, pointer_types_law};
pub use numbering::is_numbering;
