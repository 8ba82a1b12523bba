//! The bodies of functions that keep the rules are well typed.
//!
//! - `good_bodies_are_typed`: a body that `body_judgement` finds good only adds to the scope before it (`Grows`: locals
//!   and signatures keep their numbers), and its statements are well typed in each program and function that have the
//!   signatures and the locals after it, where the scope before it fits; the scope after it fits too.
//!   `good_parameters_fit`: the parameters of a function that is defined are its next locals, all scalars, and the scope
//!   after them fits where the one before them does. Both rest on one theorem about properties of statements that come
//!   from those of their parts (`Passage` in `proofs/OfStatements/Property.antt`).

ghost use Rattle.mv_accepts.specs.Statements.Bodies.{BodyGrows, BodyIsTyped, ParametersFit};

use crate::expressions::good_expressions_are_typed;

/// The body of a function that keeps the rules (C11 6.8) only adds to the scope before it, and is well typed in each program and function that
/// have the signatures and the locals behind it and what the scope before it says. The call does nothing: its contract is the law.
pub fn good_bodies_are_typed()
    ensures grows { BodyGrows }
    ensures typed { BodyIsTyped }
{
    good_expressions_are_typed();
}

/// The parameters of a function that is defined (C11 6.9.1) are its next locals, and what the scope behind them says is so in each program and
/// function that have the signatures and the locals behind them. The call does nothing: its contract is the law.
pub fn good_parameters_fit()
    ensures { ParametersFit }
{
    good_expressions_are_typed();
}
