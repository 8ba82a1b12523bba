//! The reader of statements and local declarations (C11 6.8): each function takes the longest phrase
//! of one production from the front of the tokens, without going back.
//!
//! All of these, for all tokens and every bound, answer what `mv_parse_grammar`'s reader takes, which `mv_parse_grammar` proves
//! exact against the grammar as a relation: the tree and the tokens after it, or how many tokens are left where no
//! phrase goes on. What is left is shorter than the tokens.
//!
//! - `statement`, `block`. So an `else` goes to the nearest `if`, and each node has the place of its first token. Each
//!   form's shortest text is tested through `mv_parser`.
#![tactic(auto)]

mod clauses;
mod leaves;
mod lines;
mod local;
pub mod statement;
