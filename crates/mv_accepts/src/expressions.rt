//! Expressions that keep the rules are well typed.
//!
//! - `good_expressions_are_typed`: the tree of a good node has the type at each node that `mv_source_forms`'s well-typed
//!   programs have, in each program that fits the scope (`Fits`). `constants_come_to_their_values`: a constant comes to
//!   its value wherever it is evaluated.

ghost use Rattle.std.specs.Prelude.{◌≡◌, ℕ, Some};
ghost use Rattle.mv_ast.specs.declared.program.Program.{Program};
ghost use Rattle.mv_ast.specs.declared.program.Expr.{Expr};
ghost use Rattle.mv_check_scope.specs.Constants.{computed};
ghost use Rattle.mv_source_forms.specs.Typing.{ComesTo};
ghost use Rattle.mv_accepts.specs.Expressions.Soundness.{GoodIsTyped, EffectIsTyped};

/// What is computed of a constant is what it comes to wherever it is evaluated. The call does nothing: its contract is the law.
pub fn constants_come_to_their_values()
    ensures { (p : Program) (e : Expr) (v : ℕ) → computed e ≡ Some v → ComesTo p e v }
{}

/// An expression that keeps the rules in a scope is well typed in each program that has what the scope says (C11 6.5). The call does
/// nothing: its contract is the law. `value` is for one that is used as a value, `effect` for one that is used for its effect alone.
pub fn good_expressions_are_typed()
    ensures value { GoodIsTyped }
    ensures effect { EffectIsTyped }
{}
