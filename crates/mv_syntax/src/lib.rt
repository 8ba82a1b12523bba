//! The source as it is written: its tokens, and the unit that they make.
//!
//! - `token` has the tokens of a source, `unit` the tree of a source, with names as they are written and without types, and `place` where each stands.
//! - `keywords` names the numbers of keywords, in code as in `specs/`; `mv_ast` has those of punctuators, which operators have too.
#![tactic(auto)]

pub mod keywords;
pub mod place;
pub mod token;
pub mod unit;
