//! The lowering of expressions to intermediate code.
//!
//! - `expression::{lower_expr, lower_each, lower_optional}`: the code and the tree of an expression from a given
//!   temporary on, in a program with given pointer switches, exactly as `mv_lower_spec` defines them. The condition is that as many temporaries as the expression has
//!   nodes fit 32 bits.
//! - Tested through `mv_lower`.
#![tactic(auto)]

pub mod call;
mod control;
pub mod expression;
mod operands;
mod place;
mod tree;
pub mod value;
