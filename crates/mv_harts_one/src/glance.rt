//! What stands at the pc of a hart.

ghost use Rattle.std.specs.Prelude.{◌≡◌, ℕ, List, option_map, nat_eq};
ghost use Rattle.mv_isa.specs.Encoding.{decode};
ghost use Rattle.mv_isa.specs.Execution.{reg};
ghost use Rattle.mv_patch.specs.Orders.{is_known_order};
ghost use Rattle.mv_machine.specs.Runs.{request_of, choices_at};
ghost use Rattle.mv_harts_runs.specs.Harts.{Hart, place_by, place_of, place, told};
ghost use Rattle.mv_harts_one.specs.Seats.{Sits, place_as, store_as};

use crate::seat::Seat;
use crate::store::{Store, store_at};
use mv_isa::requests::{PLAN, POLL};
use mv_machine::registers::{argument, index, live_frames, number};
use mv_machine::{Engine, is_known};

/// The word of an environment call.
const ECALL: u32 = 0x0000_0073;

/// Where an instruction stands: with no live frame at an order that there is or at a poll, or elsewhere.
#[derive(Clone, Copy, PartialEq, Eq)]
pub enum Place {
    AtOrder,
    AtPoll,
    Elsewhere,
}

/// What stands at the pc of a hart.
#[derive(Clone, Copy)]
pub struct Glance {
    pub place: Place,
    /// The store that the instruction is.
    pub store: Option<Store>,
}

// Where an environment call stands.
fn called(engine: &Engine) -> Place
    ensures { place_as result ≡ place_by (request_of (reg engine.now.hart.regs 17)) (is_known_order engine.now.image (reg engine.now.hart.regs 10) (reg engine.now.hart.regs 11)) (nat_eq (reg engine.now.hart.regs 26) 0) }
{
    let hart = &engine.hart;
    if live_frames(hart) != 0 {
        return Place::Elsewhere;
    }
    let number = number(hart);
    if number == POLL {
        return Place::AtPoll;
    }
    if number == PLAN && is_known(&engine.image, argument(hart), index(hart)) {
        return Place::AtOrder;
    }
    Place::Elsewhere
}

// Where the instruction of a word stands.
#[inline(always)]
fn place_at(engine: &Engine, word: u32) -> Place
    ensures { place_as result ≡ place_of (decode word) (place_by (request_of (reg engine.now.hart.regs 17)) (is_known_order engine.now.image (reg engine.now.hart.regs 10) (reg engine.now.hart.regs 11)) (nat_eq (reg engine.now.hart.regs 26) 0)) }
{
    if word == ECALL {
        called(engine)
    } else {
        Place::Elsewhere
    }
}

impl Seat {
    /// Where the instruction at pc stands, and the store that it is. Memory is read alone.
    #[inline(always)]
    pub fn glance(&self) -> Glance
        ensures place { (number : ℕ) (bytes : List ℕ) (o : Hart) → Sits number self.now bytes o → choices_at o.state ≡ 1 → place_as result.place ≡ place o.state 0 }
        ensures store { (number : ℕ) (bytes : List ℕ) (o : Hart) → Sits number self.now bytes o → choices_at o.state ≡ 1 → option_map store_as result.store ≡ told o.state 0 }
    {
        let engine = &self.engine;
        match engine.memory.only_choice(engine.hart.pc) {
            None => Glance {
                place: Place::Elsewhere,
                store: None,
            },
            Some(word) => Glance {
                place: place_at(engine, word),
                store: store_at(&engine.hart, word),
            },
        }
    }
}
