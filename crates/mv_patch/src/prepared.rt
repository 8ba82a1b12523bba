//! What a plan holds.

ghost use Rattle.std.specs.Prelude.{◌≡◌, ◌≤◌, [], length, replicate, IfOk};
ghost use Rattle.mv_bindings.specs.Bindings.{free};
ghost use Rattle.mv_patch.specs.Tables.{patchable};
ghost use Rattle.mv_patch.specs.Orders.{code_of, index_of, binding_count, first_bindings};
ghost use Rattle.mv_patch.specs.Plans.{plan_of};

use crate::bindings::{answer_to, rebind, show};
use crate::changes::{Showing, find_changes};
use crate::order::Order;
use mv_bindings::binding::Binding;
use mv_descriptors::VariantRow;
use mv_fetch::Memory;
use mv_image::Image;
use mv_image::facts::within_limits;
use std::alloc::{AllocError, Global};
use std::marker::Model;

/// An address of text and the word that comes there.
#[derive(Clone, Copy, Debug, PartialEq, Eq)]
pub struct Pair {
    /// A multiple of 4.
    pub address: u32,
    /// The new word.
    pub word: u32,
}

/// The words of text that an order changes, the bindings behind it, and its answer. It has memory for a number of pairs,
/// its room, so that it can be filled again and again.
#[derive(Drop)]
pub struct Plan {
    pairs: Vec<Pair>,
    bound: Vec<Binding>,
    answer: u32,
    room: u32,
    // The variant that each function is bound to before the order, and behind it, and behind the functions none for each pointer
    // switch.
    before: Vec<Option<VariantRow>>,
    after: Vec<Option<VariantRow>>,
}

const FREE: Binding = Binding {
    bound: false,
    count: 0,
    values: [0; 6],
};

impl Model for Plan {
    ghost use Rattle.mv_patch.specs.Plans.{Prepared};

    ghost Value = { Prepared };

    ghost use Rattle.mv_patch.specs.Views.{view as stands_for, IsKept};

    ghost view = { stands_for };

    ghost invariant = { IsKept };
}

// So many functions that are free.
fn all_free(alloc: Global, count: usize) -> Result<Vec<Binding>, AllocError>
    ensures { IfOk result (λ bindings. bindings.items ≡ replicate count free) }
{
    vec![in alloc; FREE; count]
}

// No variant for each of so many functions.
fn none_shown(alloc: Global, count: usize) -> Result<Vec<Option<VariantRow>>, AllocError>
    ensures { IfOk result (λ shown. length shown.items ≡ count) }
{
    vec![in alloc; None; count]
}

impl Plan {
    /// A plan without pairs, with all free and the answer 0. Its room is the greatest number of words that a plan of
    /// the image can change.
    pub fn new(alloc: Global, image: &Image) -> Result<Plan, AllocError>
        ensures { IfOk result (λ plan. plan ≡ record { planned = record { pairs = []; bound = first_bindings image.now; answer = 0 }; room = patchable image.now }) }
    {
        within_limits(image);
        let bindings = image.functions().len() + image.pointers().len();
        let room = image.functions().len() + 2 * image.sites().len() + 4 * image.points().len();
        Ok(Plan {
            pairs: Vec::with_capacity(alloc, room)?,
            bound: all_free(alloc, bindings)?,
            answer: 0,
            room: room as u32,
            before: none_shown(alloc, bindings)?,
            after: none_shown(alloc, bindings)?,
        })
    }

    /// The words that change, in ascending order of their addresses.
    pub fn pairs(&self) -> &[Pair]
        ensures { result.now ≡ self.now.planned.pairs }
    {
        self.pairs.as_slice()
    }

    /// What each attributed function, and then each pointer switch, is bound to behind the order.
    pub fn bound(&self) -> &[Binding]
        ensures { result.now ≡ self.now.planned.bound }
    {
        self.bound.as_slice()
    }

    /// For a commit the number of functions and pointer switches that it addresses and binds, and 0 for a revert.
    pub fn answer(&self) -> u32
        ensures { result ≡ self.now.planned.answer }
    {
        self.answer
    }
    /// Fills it with what an order does where functions and pointer switches have these bindings. It takes no memory.
    pub(crate) fn fill(&mut self, image: &Image, memory: &Memory, order: Order, bound: &[Binding])
        requires room { patchable image.now ≤ self.old.room }
        requires into { length self.old.planned.bound ≡ binding_count image.now }
        requires bound { length bound.now ≡ binding_count image.now }
        ensures planned { self.new.planned ≡ plan_of image.now memory.now.held bound.now (code_of order) (index_of order) }
        ensures count { length self.new.planned.bound ≡ binding_count image.now }
        ensures few { length self.new.planned.pairs ≤ patchable image.now }
        ensures room { self.new.room ≡ self.old.room }
    {
        let _entry = image.entry();
        rebind(image, memory, order, bound, self.bound.as_mut_slice());
        self.answer = answer_to(image, order, self.bound.as_slice());
        show(image, bound, self.before.as_mut_slice());
        show(image, self.bound.as_slice(), self.after.as_mut_slice());
        let before = Showing {
            bound,
            variants: self.before.as_slice(),
        };
        let after = Showing {
            bound: self.bound.as_slice(),
            variants: self.after.as_slice(),
        };
        find_changes(image, before, after, &mut self.pairs);
    }
}
