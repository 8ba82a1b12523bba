//! A hart and how it stands.

ghost use Rattle.std.specs.Prelude.{◌≡◌, ◌+◌, ◌<◌, ◌^◌, ℕ, [], List, None, length, option_map, IfOk, OnOk};
ghost use Rattle.mv_bindings.specs.Acts.{Act};
ghost use Rattle.mv_patch.specs.Orders.{binding_count};
ghost use Rattle.mv_machine.specs.Runs.{bytes_to_come};
ghost use Rattle.mv_harts_runs.specs.Harts.{Hart, first_of, hart_from, is_on, shared};
ghost use Rattle.mv_harts_one.specs.Seats.{Sits, adopted, store_as};

use crate::store::{Store, lies_in_text, put};
use mv_bindings::binding::Binding;
use mv_image::Image;
use mv_machine::{Engine, Stopped, adopt};
use mv_num::list::List;
use std::alloc::{AllocError, Global};

/// How a hart stands to the commits of hart 0.
#[derive(Clone, Copy, Debug, PartialEq, Eq)]
pub enum Mode {
    /// It goes on.
    Runs,
    /// It waits at a poll, since hart 0 wants to commit.
    Parked,
    /// A commit was made while it was parked: it is to adopt what that left.
    Freed,
}

/// What a poll took.
#[derive(Clone, Copy)]
pub enum Taken {
    /// Nothing.
    Skip,
    /// A value for a switch, with a commit of all.
    Flip { switch: u32, value: u32 },
    /// The bindings that a commit of hart 0 left, by its number from 0.
    Adopt(u64),
}

/// One hart of several, and how it stands.
#[derive(Drop)]
pub struct Seat {
    /// Its image, registers, memory and bindings.
    pub engine: Engine,
    /// How it stands to the commits of hart 0.
    pub mode: Mode,
    /// Whether its last turn waited.
    pub waited: bool,
    /// Why it doesn't go on: the program ended, trapped or faults, or its read or write failed.
    pub stop: Option<Stopped>,
    /// How many instructions it has executed, an adoption among them.
    pub instructions: u64,
    /// What its polls took, in order.
    pub taken: List<Taken>,
}

impl Seat {
    /// The hart with this number before its first instruction.
    pub fn start(alloc: Global, image: &Image, number: u32) -> Result<Seat, AllocError>
        ensures sits { IfOk result (λ seat. (bytes : List ℕ) → Sits number seat bytes (hart_from (first_of number image.now (bytes_to_come bytes) []))) }
        ensures taken { IfOk result (λ seat. seat.taken ≡ []) }
    {
        let engine = Engine::start(alloc, image, number)?;
        Ok(Seat {
            engine,
            mode: Mode::Runs,
            waited: false,
            stop: None,
            instructions: 0,
            taken: List::new(alloc),
        })
    }

    /// Whether it has not ended.
    #[inline(always)]
    pub fn is_on(&self) -> bool
        ensures { (number : ℕ) (bytes : List ℕ) (o : Hart) → Sits number self.now bytes o → result ≡ is_on o }
    {
        self.stop.is_none()
    }

    /// Takes on the bindings of a commit of hart 0, of which text has the words: the answer to its poll, where it was freed.
    pub fn adopt(&mut self, bindings: &List<Binding>)
        requires count { length bindings.now ≡ binding_count self.old.engine.image }
        requires on { self.old.stop ≡ None }
        requires room { self.old.instructions + 1 < 2 ^ 64 }
        ensures adopts { (number : ℕ) (bytes : List ℕ) (o : Hart) (taken : List Act) → Sits number self.old bytes o → Sits number self.new bytes (adopted o bindings.now taken) }
        ensures stop { self.new.stop ≡ self.old.stop }
        ensures instructions { self.new.instructions ≡ self.old.instructions + 1 }
        ensures taken { self.new.taken ≡ self.old.taken }
        ensures image { self.new.engine.image ≡ self.old.engine.image }
    {
        adopt(&mut self.engine, bindings.as_slice());
        self.mode = Mode::Runs;
        self.waited = false;
        self.instructions += 1;
    }

    /// Makes another hart's store in this one's memory, where it is into text and this hart has not ended. An error is want of memory for the word
    /// that the store replaces.
    #[inline(always)]
    pub fn take_store(&mut self, store: Option<Store>) -> Result<(), AllocError>
        ensures sits { OnOk result ((number : ℕ) (bytes : List ℕ) (o : Hart) → Sits number self.old bytes o → Sits number self.new bytes (shared (option_map store_as store) o)) }
        ensures mode { self.new.mode ≡ self.old.mode }
        ensures stop { self.new.stop ≡ self.old.stop }
        ensures instructions { self.new.instructions ≡ self.old.instructions }
        ensures taken { self.new.taken ≡ self.old.taken }
        ensures image { self.new.engine.image ≡ self.old.engine.image }
    {
        let Some(store) = store else {
            return Ok(());
        };
        if !self.is_on() {
            return Ok(());
        }
        if !lies_in_text(store.address) {
            return Ok(());
        }
        put(&mut self.engine.memory, store)
    }
}
