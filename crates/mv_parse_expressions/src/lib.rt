//! The reader of expressions (C11 6.5): each function takes the longest phrase of one production
//! from the front of the tokens, without going back.
//!
//! All of these, for all tokens and every bound, answer what `mv_parse_grammar`'s reader takes, which `mv_parse_grammar` proves
//! exact against the grammar as a relation: the tree and the tokens after it, or how many tokens are left where no
//! phrase goes on. What is left is shorter than the tokens.
//!
//! - `assign`, `conditional`. Casts are told by two tokens. Constants show how operators group.
#![tactic(auto)]

pub mod expression;
mod type_name;
