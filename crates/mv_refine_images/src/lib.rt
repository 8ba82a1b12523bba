//! The run of an image that is built of a program does what the program means.
//!
//! `specs/Built.antt` says what a compiler gives of a program, and `specs/Layouts.antt` where its functions and globals then
//! stand.
//!
//! - `built_programs_behave`: the run of an image that is linked of the code of all functions of a well-formed program and of
//!   the variants of its attributed ones, of the first words of its globals, and of tables, does what the program means
//!   (`Behaves`), in each hart, on each input of bytes, with any acts of its polls that fit there, and whatever the fetches
//!   pick; also while commits, reverts and polls rewrite its text. Assumed besides is that each global has a word, which
//!   `good_globals_are_formed` gives of checked programs. `build` of `mv_build` gives such images.
//! - And no instruction loads a data word of a global that is closed to what stands at its place (`specs/Closed.antt`): the
//!   words of a function load from no global that the function doesn't read; so no word in a variant, at a site or not,
//!   loads a switch of the variant's function, and no word at a site any switch (`specs/Own.antt`).
//! - `patched_functions_stand`: where an image has an attributed function in its tables, with a row of a variant for each
//!   combination of its switches' values, its code stands on the machine as `programs_keep` asks.
//!
//! Below this, in modules with their own specifications and headers, laws alone:
//!
//! - `bodies`: the bodies that are linked of a program, and their code, are the program's (`bodies_are_in_program`).
//! - `tables`: what the tables of a linked image have of its program, and where their rows lead (`images_have_tables`, `rows_lead_on`).
//! - `programs`: all functions of a program keep the calling convention and do what they mean (`programs_keep`, `programs_keep_openly`).
#![tactic(auto)]

pub mod bodies;
mod laws;
pub mod programs;
pub mod tables;

pub use laws::{built_programs_behave, patched_functions_stand};
