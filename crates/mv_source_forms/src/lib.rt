//! What source programs are like: well typed, well formed, and proved of by induction over their trees.
//!
//! All in terms of the source: whoever shows that a program is so needs no compiler, and whoever compiles one no front end.
//!
//! - `specs/Typing.antt`: well-typed programs, one definition a syntax class: every node of an expression has its type, and each
//!   statement's expressions have the types that it asks for. `proofs/TypedParts.antt`: so have the parts of what is well typed.
//! - `specs/WellFormed.antt`: well-formed programs, `IsWellFormed`. They are well typed; expressions and statements name what there is, as
//!   what it is (`specs/Names.antt`); locals are named where they are declared (`specs/Scopes.antt`); jumps have targets
//!   (`specs/Jumps.antt`); the arms of each `switch` have labels (`specs/Labels.antt`); known functions have their arguments, and an
//!   attributed function names no switches but its own (`specs/Uses.antt`); and they are within the limits.
//! - `proofs/ExpressionInduction.antt` and `proofs/StatementInduction.antt`: what holds of each layer if it holds of its children, holds of
//!   all expressions, and of all statements.
//! - `names::any_names`: whether one of some expressions names a local.
//! - Beside it, checked and named by no contract: a small program with a loop and a `switch` is well formed.
//! - Tested through the programs of `mv_test_top`.
#![tactic(auto)]

pub mod names;
