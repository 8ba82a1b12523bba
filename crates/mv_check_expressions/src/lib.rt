//! The rules of expressions: what an expression is found to be in a scope, with all conversions written out, or the first place at
//! which a rule is broken.
//!
//! - `judge`: what an expression that is used as something is found to be, with all conversions written out, or the first
//!   place at which a rule is broken, with the least rule of that node. Each rule is one predicate in `specs/Rules.antt`,
//!   over one node whose parts are good; `specs/Found.antt` says what a good node is. `value` and `effect` are the same
//!   for expressions whose value is used, and for those that are statements. The scope stays as it is.
//! - `rules` and `specs/RuleNumbers.antt` name all rules of the language, each with its number, also for `mv_check_declarations`,
//!   `mv_check_statements` and `mv_types`.
//! - `needed`: the value and the type of a constant where one is needed. `type_of`: the type that specifiers name.
//! - `mv_test_top` shows 93 expressions in one scope, with the rule that each breaks and where.
#![tactic(auto)]

mod breaches;
mod calls;
pub mod constant;
pub mod error;
mod forms;
pub mod judge;
pub mod rules;
pub mod seen;
pub mod type_names;
mod values;
