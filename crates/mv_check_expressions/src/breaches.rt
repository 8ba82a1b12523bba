// The rules that one node breaks.

ghost use Rattle.std.specs.Prelude.{◌≡◌};
ghost use Rattle.mv_check_expressions.specs.Judged.{IsJudged, first_broken};
ghost use Rattle.mv_check_expressions.specs.Breaches.{if_broken, concluded, listed, breaches_of_use};
ghost use Rattle.mv_check_expressions.specs.Rules.{is_bare, is_valueless, is_misnamed};

use crate::error::RuleError;
use crate::rules;
use crate::seen::{Seen, Use, is_attributed};
use mv_check_scope::convert::is_void;
use mv_syntax::place::Place;

/// Which of the rules of expressions a node breaks.
#[derive(Clone, Copy)]
pub struct Breaches {
    /// A name isn't declared.
    pub undeclared: bool,
    /// An operator doesn't take the types of its operands.
    pub operands: bool,
    /// What is assigned isn't an object, or is `const`.
    pub assigned: bool,
    /// A value doesn't convert.
    pub converted: bool,
    /// What is called isn't a function, or takes another number of arguments.
    pub called: bool,
    /// What is indexed isn't an array, or an array isn't indexed.
    pub indexed: bool,
    /// `void` is used as a value.
    pub void: bool,
    /// An attributed function assigns to a switch or a pointer switch.
    pub switch: bool,
    /// What is named isn't an attributed function, or isn't a switch or pointer switch behind `&`.
    pub named: bool,
    /// A function is used that isn't defined.
    pub undefined: bool,
    /// `&`, `*`, a cast or a known function stands where it may not.
    pub misplaced: bool,
}

// A rule where it is broken, else what is found of the others.
fn if_broken(broken: bool, rule: u8, others: Option<u8>) -> Option<u8>
    ensures { result ≡ if_broken broken rule others }
{
    if broken { Some(rule) } else { others }
}

// The least rule that is broken, by the rules from the greatest down.
fn least(breaches: Breaches) -> Option<u8>
    ensures { result ≡ first_broken (listed breaches) }
{
    let found = if_broken(breaches.misplaced, rules::PLACEMENTS, None);
    let found = if_broken(breaches.undefined, rules::DEFINITIONS, found);
    let found = if_broken(breaches.named, rules::PLAN_ARGUMENTS, found);
    let found = if_broken(breaches.switch, rules::SWITCH_ASSIGNMENTS, found);
    let found = if_broken(breaches.void, rules::VOID, found);
    let found = if_broken(breaches.indexed, rules::INDEXES, found);
    let found = if_broken(breaches.called, rules::CALLS, found);
    let found = if_broken(breaches.converted, rules::CONVERSIONS, found);
    let found = if_broken(breaches.assigned, rules::ASSIGNMENTS, found);
    let found = if_broken(breaches.operands, rules::OPERANDS, found);
    if_broken(breaches.undeclared, rules::NAMES, found)
}

/// What a node is, unless it breaks a rule.
#[tactic(auto, unfolding(crate::specs::Breaches::concluded))]
pub fn concluded(place: Place, breaches: Breaches, seen: Seen) -> Result<Seen, RuleError>
    ensures { IsJudged (concluded place (listed breaches) seen) result }
{
    match least(breaches) {
        None => Ok(seen),
        Some(rule) => {
            drop(seen);
            Err(RuleError::Rule(place, rule))
        }
    }
}

fn is_bare(used: Use, seen: &Seen) -> bool
    ensures { result ≡ is_bare used seen.now }
{
    match used {
        Use::Base => false,
        _ => matches!(seen, Seen::Array(_)),
    }
}

fn is_valueless(used: Use, seen: &Seen) -> bool
    ensures { result ≡ is_valueless used seen.now }
{
    match used {
        Use::Value => match seen {
            Seen::Value(e) => is_void(e.ctype),
            Seen::Object(object) => is_void(object.ctype),
            _ => false,
        },
        _ => false,
    }
}

fn is_misnamed(used: Use, seen: &Seen) -> bool
    ensures { result ≡ is_misnamed used seen.now }
{
    match used {
        Use::Function => !is_attributed(seen),
        Use::Switch => !matches!(seen, Seen::Switch(_)),
        _ => false,
    }
}

/// The rules that a node breaks by what it is used as.
pub fn breaches_of_use(used: Use, seen: &Seen) -> Breaches
    ensures { result ≡ breaches_of_use used seen.now }
{
    Breaches {
        undeclared: false,
        operands: false,
        assigned: false,
        converted: false,
        called: false,
        indexed: is_bare(used, seen),
        void: is_valueless(used, seen),
        switch: false,
        named: is_misnamed(used, seen),
        undefined: false,
        misplaced: false,
    }
}
