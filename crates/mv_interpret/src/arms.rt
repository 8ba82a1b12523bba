// The labels of a `switch` (C11 6.8.4.2).

ghost use Rattle.std.specs.Prelude.{◌≡◌, ◌≤◌, ◌+◌, length, drop};
ghost use Rattle.mv_meaning.specs.Meaning.{tried_labels};
ghost use Rattle.mv_meaning.specs.Growth.{capped};
ghost use Rattle.mv_meaning.specs.Arms.{all_labels, index_of, has_default, first_arm};

use crate::state::{State, count};
use mv_ast::program::Arm;
use mv_num::list::List;

// Tests labels in order up to the one that is the value, each counted as work. Says whether one is.
fn try_labels(labels: &[u32], value: u32, state: &mut State) -> bool
    ensures found { result ≡ (tried_labels value labels.now).found }
    ensures counted { state.new ≡ record state.old { work = capped (state.old.work + (tried_labels value labels.now).labels) } }
{
    let _work = state.work;
    for label in labels {
        count(state, 1);
        if *label == value {
            return true;
        }
    }
    false
}

// The index of the arm with the `default`, and the number of arms where there is none.
fn default_arm(arms: &[Arm]) -> usize
    ensures index { result ≡ index_of has_default arms.now }
    ensures within { result ≤ length arms.now }
{
    for (i, arm) in arms.iter().enumerate() {
        if arm.other {
            return i;
        }
    }
    arms.len()
}

/// The index of the arm to which a value leads, and the number of arms where it leads to none. The labels that are tested are counted.
pub fn first_arm(arms: &List<Arm>, value: u32, state: &mut State) -> usize
    ensures index { result ≡ first_arm value arms.now }
    ensures counted { state.new ≡ record state.old { work = capped (state.old.work + (tried_labels value (all_labels arms.now)).labels) } }
    ensures within { result ≤ length arms.now }
{
    let _work = state.work;
    for (i, arm) in arms.as_slice().iter().enumerate() {
        if try_labels(arm.labels.as_slice(), value, state) {
            return i;
        }
    }
    default_arm(arms.as_slice())
}

/// The arms from one on.
pub fn arms_from(arms: &List<Arm>, first: usize) -> &[Arm]
    requires { first ≤ length arms.now }
    ensures { result.now ≡ drop first arms.now }
{
    &arms.as_slice()[first..]
}
