//! The harts of a run in code.

ghost use Rattle.std.specs.Prelude.{◌≡◌, ◌≤◌, ◌<◌, ◌-◌, ℕ, [], Some, List, map, slice_get, drop, IfOk};
ghost use Rattle.mv_bindings.specs.Acts.{act_of};
ghost use Rattle.mv_bindings.specs.declared.action.Action.{Action};
ghost use Rattle.mv_machine.specs.Runs.{bytes_to_come};
ghost use Rattle.mv_harts_runs.specs.Harts.{first_harts};
ghost use Rattle.mv_harts_turns.specs.Groups.{Shows, AreFirst};

use mv_bindings::binding::Binding;
use mv_harts_one::Seat;
use mv_image::Image;
use mv_num::list::List;
use mv_num::results::both;
use std::alloc::{AllocError, Global};

/// The bindings that a commit, a revert or a flip of hart 0 left, one for each attributed function.
#[derive(Drop)]
pub struct Committed {
    /// In order of declaration.
    pub all: List<Binding>,
}

/// The harts of a run.
#[derive(Drop)]
pub struct Group {
    /// Hart 0, which alone commits.
    pub leader: Seat,
    /// Harts 1, 2 and so on.
    pub others: Vec<Seat>,
    /// How many of the operator's actions hart 0 has taken.
    pub(crate) played: usize,
    /// Whether hart 0 waits to commit.
    pub(crate) wanted: bool,
    /// Whether a commit was made, and hart 0 has not come to its FENCE.I.
    pub(crate) under: bool,
    /// What the commits, reverts and flips of hart 0 left, in order.
    pub commits: List<Committed>,
}

// Harts 1, 2 and so on, so many.
fn others_from(alloc: Global, image: &Image, count: u32) -> Result<Vec<Seat>, AllocError>
    ensures { IfOk result (λ others. (bytes : ℕ → List ℕ) → AreFirst image.now bytes count others.items) }
{
    let mut others = Vec::new(alloc);
    for before in 0..count {
        let seat = Seat::start(alloc, image, before + 1)?;
        others.push(seat)?;
    }
    Ok(others)
}

impl Group {
    /// Each hart before its first instruction: hart 0, and so many beside it.
    pub(crate) fn start(alloc: Global, image: &Image, others: u32) -> Result<Group, AllocError>
        ensures { IfOk result (λ group. (bytes : ℕ → List ℕ) (actions : List Action) →
            Shows image.now actions bytes group (first_harts image.now (λ h. bytes_to_come (bytes h)) others (map act_of actions))) }
    {
        let leader = Seat::start(alloc, image, 0)?;
        let (leader, others) = both(leader, others_from(alloc, image, others))?;
        Ok(Group {
            leader,
            others,
            played: 0,
            wanted: false,
            under: false,
            commits: List::new(alloc),
        })
    }
}
