//! The rules of declarations and statements, each as a test on one node and its scope; what units that break none are, and their programs.
//!
//! - `specs/Rules.antt` has the rules, `specs/Nodes.antt` what they are tests on, and `Declarations.antt`, `Statements.antt` and `Units.antt` what the parts
//!   of a unit are found to be, in the order of the text. They take from other crates what an expression is found to be (`mv_check_expressions`), types,
//!   constants and what names mean in a scope (`mv_check_scope`), what number a constant is (`mv_check_declarations`), tests on one declarator and lists of
//!   names (`mv_check_outline`, `mv_types`), and which switches a body names (`mv_check_uses`); and none of the records and steps in which the checker judges
//!   declarations, statements and units.
//! - `judged_by_rules_is_unit_judgement`: the checker's judgement on a unit, in the order in which it works, is the judgement by rules.
#![tactic(auto)]

ghost use Rattle.mv_check_rules.specs.Agreement.{JudgedByRulesIsUnitJudgement};

/// What a unit is by the rules, its program or the first place at which one is broken with the least that is broken there, is what
/// the checker judges. The call does nothing: its contract is the law.
pub fn judged_by_rules_is_unit_judgement()
    ensures { JudgedByRulesIsUnitJudgement }
{}
