//! The reader of declarations (C11 6.7): specifiers, declarators, parameters and initial values.
//! Each function takes the longest phrase of one production from the front of the tokens, without
//! going back.
//!
//! All of these, for all tokens and every bound, answer what `mv_parse_grammar`'s reader takes, which `mv_parse_grammar` proves
//! exact against the grammar as a relation: the tree and the tokens after it, or how many tokens are left where no
//! phrase goes on. What is left is shorter than the tokens.
//!
//! - `specs`, `declarator`, `with_init`, `declared`, `declared_list`, `params`. For `with_init` and `params`, which may
//!   take nothing, what is left is no longer than the tokens.
#![tactic(auto)]

mod attributes;
pub mod declarator;
mod enums;
mod initial;
mod nodes;
pub mod parameters;
pub mod specifiers;
