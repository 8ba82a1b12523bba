//! The program of a source, and the world that it runs in.
//!
//! - `program` has the checked tree, `marks` the numbers of punctuators and operators, in code as in `specs/`, and `operators` the values of operators.
//! - `specs/` has the world, the switch rule, commit, revert, poll and log, fitting actions, the numbering of functions, and the counts over a program: definitions
//!   that other crates' contracts cite.
#![tactic(auto)]

pub mod marks;
pub mod operators;
pub mod program;
