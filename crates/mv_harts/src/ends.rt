//! What is told of a run of harts that is over.

ghost use Rattle.std.specs.Prelude.{◌≡◌, ◌∷◌, map, IfOk, Some};
ghost use Rattle.mv_harts.specs.Ends.{end_of, is_fault, stop_of, stop_text};

use mv_harts_one::{Seat, Taken};
use mv_harts_turns::{Committed, Group};
use mv_machine::Stopped;
use mv_num::list::List;
use std::alloc::{AllocError, Global};
use std::fmt;

/// How a hart stands when a run is over.
#[derive(Clone, Copy, Debug, PartialEq, Eq)]
pub enum HartStop {
    /// It goes on.
    Going,
    /// It goes on, and its last turn waited.
    Waiting,
    /// Its program ended with this exit status.
    Ended(u8),
    /// Its program trapped with this code.
    Trapped(u8),
    /// A read of its source failed, which has ended it.
    InputFault,
    /// A write to its sink failed, which has ended it.
    OutputFault,
}

/// What is told of one hart.
#[derive(Drop)]
pub struct HartEnd {
    /// How many instructions it has executed, an adoption among them. A read or a write that failed is none.
    pub instructions: u64,
    /// How it stands.
    pub stop: HartStop,
    /// What its polls took, in order.
    pub taken: List<Taken>,
}

/// What is told of all harts.
#[derive(Drop)]
pub struct HartsEnd {
    /// Each hart in order, hart 0 first.
    pub harts: List<HartEnd>,
    /// What the commits, reverts and flips of hart 0 left that weren't refused, in order.
    pub commits: List<Committed>,
}

impl HartStop {
    /// Whether its read or write failed.
    pub(crate) fn is_fault(self) -> bool
        ensures { result ≡ is_fault self }
    {
        matches!(self, HartStop::InputFault | HartStop::OutputFault)
    }
}

impl fmt::Display for HartStop {
    ghost output = { λ stop. Some (stop_text stop) };

    fn fmt<W: fmt::Write>(&self, f: &mut fmt::Formatter<W>) -> fmt::Result {
        match self {
            HartStop::Going => write!(f, "going"),
            HartStop::Waiting => write!(f, "waiting"),
            HartStop::Ended(status) => write!(f, "ended {status}"),
            HartStop::Trapped(code) => write!(f, "trapped {code}"),
            HartStop::InputFault => write!(f, "input fault"),
            HartStop::OutputFault => write!(f, "output fault"),
        }
    }
}

// How a hart stands, by why it doesn't go on. The last three answers are none of a hart that a group has.
fn stop_of(waited: bool, stop: Option<Stopped>) -> HartStop
    ensures { result ≡ stop_of waited stop }
{
    match stop {
        None => {
            if waited {
                HartStop::Waiting
            } else {
                HartStop::Going
            }
        }
        Some(Stopped::Ended(status)) => HartStop::Ended(status),
        Some(Stopped::Trapped(code)) => HartStop::Trapped(code),
        Some(Stopped::InputFault) => HartStop::InputFault,
        Some(Stopped::OutputFault) => HartStop::OutputFault,
        Some(Stopped::Steps | Stopped::Memory | Stopped::Fault(_, _)) => HartStop::Going,
    }
}

// What is told of a hart. Its engine is let go.
fn end_of(seat: Seat) -> HartEnd
    ensures { result ≡ end_of seat }
{
    let Seat {
        engine,
        waited,
        stop,
        instructions,
        taken,
        ..
    } = seat;
    drop(engine);
    HartEnd {
        instructions,
        stop: stop_of(waited, stop),
        taken,
    }
}

/// What is told of the harts of a group. An error is want of memory.
pub(crate) fn ends_of(alloc: Global, group: Group) -> Result<HartsEnd, AllocError>
    ensures harts { IfOk result (λ end. end.harts ≡ map end_of (group.leader ∷ group.others.items)) }
    ensures commits { IfOk result (λ end. end.commits ≡ group.commits) }
{
    let Group {
        leader,
        others,
        commits,
        ..
    } = group;
    let mut harts = Vec::new(alloc);
    harts.push(end_of(leader))?;
    for seat in others {
        harts.push(end_of(seat))?;
    }
    Ok(HartsEnd {
        harts: List::from_vec(harts),
        commits,
    })
}
