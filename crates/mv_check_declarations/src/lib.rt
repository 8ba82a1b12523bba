//! The rules of declarations: specifiers, declarators, attributes and initial values.
//!
//! - `specifiers`: what type specifiers name, with their enums declared, and the attribute among them; `designated`: what
//!   a declarator designates, with its signature numbered; `declare_locals`: a declaration in a block, as the statements
//!   that clear its locals and give them their values; `declare_parameters`: the parameters of a defined function;
//!   `file_declarator`, `global_words`, `domain_of`: a declarator at file scope, its first words, and the domain of a
//!   switch; `Breaches` and `least`: the rules that a declared object breaks, and the least of them.
//! - `with_last`: a list with an item more.
//! - Each answer is the judgement of `specs/`, and the scope that is left is the one after it: the declaration with its
//!   conversions written out, or the first place that breaks a rule with the least rule there
//!   ([docs/declarations.md](declarations.md)).
//! - `ValueSet`: different values in the order in which they were added, with an ordered set behind a model that shows a
//!   plain list. The values of domains are told apart by it, so none is searched for among the others, whatever they are.
//! - `mv_test_top` shows declarations that keep the rules and some that break one.
#![tactic(auto)]

pub mod attributes;
pub mod constants;
pub mod declarators;
mod enumerated;
pub mod enumerators;
pub mod globals;
pub mod initials;
pub mod locals;
pub mod objects;
pub mod parameters;
pub mod specifiers;
pub mod steps;
pub mod value_set;
