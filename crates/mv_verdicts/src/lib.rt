//! Each text is a program or is refused: the front end's definitions leave none without a verdict.
//!
//! - `each_text_has_a_verdict`: a text that has tokens is a program or has a refusal (`judged`): its tokens are within the
//!   limit of nesting or one is the first above it, they are a unit or break off, the unit keeps the rules or breaks one,
//!   and its program is within the limits or passes one. And of no text is it refuted that it is a program and that it has
//!   a refusal (`complete`): a text is too long, or read by its longest lexemes up to its end or to one that is refused.
//! - With `one_verdict` of `mv_front` a text is one program, or has one refusal, and never both.
//! - A crate of one law, without a test.
#![tactic(auto)]

ghost use Rattle.mv_verdicts.specs.Laws.{NoneIsWithout, TokensAreJudged};

/// A source is a program or is refused, over the definitions alone. The call does nothing: its contract is the law.
///
/// `judged`: where it has tokens. `complete`: whatever it is, that it is no program and that it has no refusal are never both so. This is by contradiction
/// (a search for the longest lexeme isn't written here), so it gives no verdict; `front` of `mv_front` gives it.
pub fn each_text_has_a_verdict()
    ensures judged { TokensAreJudged }
    ensures complete { NoneIsWithout }
{}
