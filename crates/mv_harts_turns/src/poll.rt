//! What a hart does at a poll, and which acts of hart 0 are commits.

ghost use Rattle.std.specs.Prelude.{◌≡◌, true, map, drop};
ghost use Rattle.mv_bindings.specs.Acts.{Skip, act_of};
ghost use Rattle.mv_harts_runs.specs.Harts.{is_commit, next_act, left_behind};
ghost use Rattle.mv_harts_one.specs.Seats.{place_as};
ghost use Rattle.mv_harts_one.specs.declared.glance.Place.TheVariants as seen;
ghost use Rattle.mv_harts_turns.specs.Polls.{answer_at, answer_by, IsNoted};

use mv_bindings::action::Action;
use mv_harts_one::{Mode, Place, Taken};

/// What another hart than hart 0 does in its turn.
#[derive(Clone, Copy)]
pub(crate) enum PollAnswer {
    /// It stands at a poll and waits, and stands so to hart 0's commits.
    Waits(Mode),
    /// It stands at a poll and takes on what the last commit left.
    Adopts,
    /// It executes its instruction. If that is a poll, it takes nothing.
    Goes,
}

// At a poll.
fn at_poll(mode: Mode, wanted: bool, under: bool) -> PollAnswer
    ensures { result ≡ answer_by mode wanted under }
{
    match mode {
        Mode::Runs if wanted => PollAnswer::Waits(Mode::Parked),
        Mode::Runs => PollAnswer::Goes,
        Mode::Parked => PollAnswer::Waits(Mode::Parked),
        Mode::Freed if under => PollAnswer::Waits(Mode::Freed),
        Mode::Freed => PollAnswer::Adopts,
    }
}

/// By where and how it stands, whether hart 0 waits to commit, and whether a commit is under way.
pub(crate) fn answer_at(place: Place, mode: Mode, wanted: bool, under: bool) -> PollAnswer
    ensures { result ≡ answer_at place mode wanted under }
{
    match place {
        Place::AtPoll => at_poll(mode, wanted, under),
        Place::AtOrder | Place::Elsewhere => PollAnswer::Goes,
    }
}

/// What the operator does at the next poll of hart 0.
pub(crate) fn next_action(actions: &[Action], played: usize) -> Action
    ensures { act_of result ≡ next_act (map act_of (drop played actions.now)) }
{
    actions.get(played).copied().unwrap_or(Action::Skip)
}

/// How many actions are played behind an instruction of hart 0 that stands at a place.
pub(crate) fn played_behind(place: Place, actions: &[Action], played: usize) -> usize
    ensures { left_behind (place_as place) (map act_of (drop played actions.now)) ≡ map act_of (drop result actions.now) }
{
    let Place::AtPoll = place else {
        return played;
    };
    if played < actions.len() {
        played + 1
    } else {
        played
    }
}

/// Whether hart 0 stands at a commit, a revert or a flip.
pub(crate) fn commits(place: Place, action: Action) -> bool
    ensures { result ≡ is_commit (place_as place) (act_of action) }
{
    match place {
        Place::AtOrder => true,
        Place::AtPoll => action != Action::Skip,
        Place::Elsewhere => false,
    }
}

/// Whether a hart stands at a poll that takes nothing.
pub(crate) fn skips(place: Place, action: Action) -> bool
    ensures poll { result ≡ true → place ≡ seen.AtPoll }
    ensures skip { result ≡ true → act_of action ≡ Skip }
{
    match place {
        Place::AtPoll => action == Action::Skip,
        Place::AtOrder | Place::Elsewhere => false,
    }
}

/// What a poll takes that is handed this action.
pub(crate) fn taken_of(action: Action) -> Taken
    ensures { IsNoted result (act_of action) }
{
    match action {
        Action::Skip => Taken::Skip,
        Action::Flip { switch, value } => Taken::Flip { switch, value },
    }
}
