//! What the functions of the parser are made of: the tokens that come next, and the nodes of expressions.
//!
//! - Each `next_..` and `expect_..` of `tokens` gives the first token and the rest exactly where the token is of that
//!   class, in the grammar's words (`Terminals`); an `expect_..` that fails answers how many tokens are left. `text_of`
//!   is the token's slice of the source. They take any source: nothing asks that the tokens are its own.
//! - `nodes`, `specifiers`: each gives the tree that its name says, boxed. `Gives` (`specs/`) is the form of every
//!   contract of the reader: the answer is what the grammar's reader takes, at every bound at which it isn't cut short.
#![tactic(auto)]

pub mod fault;
pub mod nodes;
pub mod specifiers;
pub mod tokens;
