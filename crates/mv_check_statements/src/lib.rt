//! The rules of statements: scopes, labels, jumps and what a function returns.
//!
//! - `specs/Statements.antt` says which statements the body of a function is judged as, or the first broken place with
//!   its least rule (`body_judgement`): blocks and their scopes, loops and jumps, the labels of a `switch`, and what is
//!   returned.
//! - `check_body`: the statements that a function's body is judged as, by the type of the function's result, and the
//!   scope after them; or the first broken place with its least rule. It calls itself once for each level of nesting.
//! - It is tested through `mv_test_top`. Neither proved nor tested: the scope after an error.
#![tactic(auto)]

pub mod arms;
pub mod around;
pub mod body;
mod forms;
