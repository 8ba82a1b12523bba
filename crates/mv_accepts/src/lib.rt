//! What units are that keep the rules, and their programs: laws, without code. A module for each part, with its own specifications:
//!
//! - `expressions`: expressions that keep the rules are well typed (`good_expressions_are_typed`).
//! - `statements`: so are the bodies of functions (`good_bodies_are_typed`), and parameters fit.
//! - `bodies`: definitions of functions are well formed (`good_definitions_are_well_formed`).
//! - `numbers`: the numbers that names have before a unit's first declaration are those of its program
//!   (`functions_have_their_numbers`, `objects_have_their_numbers`).
//! - `names`: what names of file scope mean, through a unit's declarations (`good_units_are_sound`).
//! - `globals`: globals, first values and switches are well formed (`good_globals_are_formed`, `good_first_values_are_typed`).
//! - `limits`: programs are within the limits that the layers above ask for; a unit has at most as many nodes as its source has bytes;
//!   what `main` is.
//!
//! What each proves exactly stands in the headers of the modules.
#![tactic(auto)]

pub mod bodies;
pub mod expressions;
pub mod globals;
pub mod limits;
pub mod names;
pub mod numbers;
pub mod statements;
