//! The operator of a run.

ghost use Rattle.std.specs.Prelude.{◌≡◌};
ghost use Rattle.mv_machine.specs.Engines.{Taken};

use mv_bindings::action::Action;
use std::marker::Model;

/// The actions that were handed in, of which so many are taken. A contract sees those that are left.
#[derive(Drop)]
pub struct Operator<'a> {
    actions: &'a [Action],
    taken: usize,
}

impl<'a> Model for Operator<'a> {
    ghost use Rattle.std.specs.Prelude.{List, drop, length, ◌≤◌};
    ghost use Rattle.mv_bindings.specs.declared.action.Action.{Action};

    ghost Value = { List Action };

    ghost view = { λ o. drop o.taken o.actions.now };

    ghost invariant = { λ o. o.taken ≤ length o.actions.now };
}

impl<'a> Operator<'a> {
    /// Nothing is taken yet.
    pub fn new(actions: &'a [Action]) -> Operator<'a>
        ensures { result ≡ actions.now }
    {
        Operator { actions, taken: 0 }
    }

    /// Takes the next action, where one is left.
    pub(crate) fn next(&mut self) -> Option<Action>
        ensures { Taken result self.old self.new }
    {
        let action = self.actions.get(self.taken).copied();
        if action.is_some() {
            self.taken += 1;
        }
        action
    }
}
