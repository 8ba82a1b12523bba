//! The lowering of the source's expressions and statements to intermediate code, as a definition, and that it is right.
//!
//! An expression is lowered, from the first free temporary on, to statements and a tree for its value at their end (`specs/Lowered.antt`,
//! `specs/Lower.antt`); a statement to statements, by where control leads from it (`specs/Statements.antt`, `specs/LowerStatements.antt`).
//! Evaluation is left to right, traps come before stores, and a place is evaluated once.
//!
//! - `specs/Lowered.antt`, `Lower.antt`, `Statements.antt` and `LowerStatements.antt` say to which code each expression
//!   and each statement is lowered ([docs/compiler.md](compiler.md)), `specs/Functions.antt` to what functions and
//!   programs are.
//! - `expressions_are_right`: an expression that names only what there is, lowered from any free temporary on and run in
//!   any frame that has room, does what it means (value, effects, traps) at a cost of at most 100 × work, keeping the
//!   value included. The premises are that the functions that it calls and the known functions do so, that a call through
//!   a pointer switch sees in code what it sees in the source, and that a call through a pointer reaches only functions that
//!   fit it. No tree of a lowered expression is deeper than 4.
//! - `statements_are_right`: the same of well-formed statements, labelled as they should be, of all forms, at every
//!   bound: blocks, declarations with their values, choices, loops, `switch` with fall through, and every way for control
//!   to leave, again at a cost of at most 100 × work.
//! - A crate of laws, without a test.
//!
//! And above this, in modules with their own specifications and headers, laws alone:
//!
//! - `programs`: the lowered functions and programs of a well-formed program mean what the source means (`functions_are_right`,
//!   `programs_are_right`).
//! - `shape`: its functions are lowered to code of the form that the passes ask for (`lowered_forms_are_right`); what lowering promises
//!   of a program, as one record (`lowering_is_right`).
//! - `calls`: lowered bodies are right where their callees do what the source's functions do (`bodies_are_right`, `main_is_right`).
#![tactic(auto)]

ghost use Rattle.mv_lower_spec.specs.Law.{ExpressionsAreRight, ExpressionsAreShallow, StatementsAreRight};

pub mod calls;
pub mod programs;
pub mod shape;

/// Lowered expressions do what they mean: with the same value, effects and traps, at a cost, together with that of
/// keeping the value, of at most 100 for one of work (C11 6.5). And no tree of theirs is deeper than 4.
pub fn expressions_are_right()
    ensures right { ExpressionsAreRight }
    ensures shallow { ExpressionsAreShallow }
{}

/// Lowered statements do what they mean, at every bound and at a cost of at most 100 for one of work (C11 6.8): blocks,
/// declarations with their values, choices, the three kinds of loops, `switch` with fall through, and every way for control to leave.
pub fn statements_are_right()
    ensures { StatementsAreRight }
{}
