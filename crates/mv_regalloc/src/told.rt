// Where each temporary is told first, as rows are told one after the other. A part costs nothing where it was told
// before at the same places, so rows that share most of their parts cost what differs.

ghost use Rattle.std.specs.Prelude.{ℕ, ◌≡◌, ◌<◌, ◌≤◌, ◌+◌, ◌*◌, ◌/◌, ◌&&◌, ◌||◌, eqb, length, not, replicate, slice_index, true, IfOk, OnOk};
ghost use Rattle.mv_regalloc.specs.LiveBits.{in_word, word_bit};
ghost use Rattle.mv_regalloc.specs.Parts.{word_of};
ghost use Rattle.mv_regalloc.specs.Told.{AreSeen, IsAllTold, IsPartTold, IsPut, IsRowTold};

use crate::parts::Parts;
use crate::words::{except, lowest, without};
use mv_num::list::List;
use std::alloc::{AllocError, Global};

/// The places that a part's words stand for: place n of it is the first one and n steps.
#[derive(Clone, Copy)]
pub struct Places {
    pub first: u32,
    pub step: u32,
}

/// The value of the first row that has each temporary, or 0; a bit for each temporary that was told, 64 in a word; and
/// for each part the places at which all of it was told.
#[derive(Drop)]
pub struct Firsts {
    pub values: List<u64>,
    pub told: List<u64>,
    pub seen: Vec<Option<Places>>,
}

impl Places {
    // Those that the odd places of a part stand for, if their numbers fit.
    fn odd(self) -> Result<Places, AllocError>
        ensures { IfOk result (λ places. (places.first ≡ self.first + self.step) × (places.step ≡ self.step * 2)) }
    {
        let first = self.first.checked_add(self.step).ok_or(AllocError)?;
        let step = self.step.checked_mul(2).ok_or(AllocError)?;
        Ok(Places { first, step })
    }

    // Those that its even places from 2 on stand for.
    fn even(self) -> Result<Places, AllocError>
        ensures { IfOk result (λ places. (places.first ≡ self.first + self.step * 2) × (places.step ≡ self.step * 2)) }
    {
        let step = self.step.checked_mul(2).ok_or(AllocError)?;
        let first = self.first.checked_add(step).ok_or(AllocError)?;
        Ok(Places { first, step })
    }
}

/// The item at a place, and 0 past the end.
pub fn item(items: &List<u64>, place: usize) -> u64
    ensures { result ≡ slice_index items.now place }
{
    match items.get(place) {
        Some(item) => *item,
        None => 0,
    }
}

// A temporary gets a value.
fn put(values: &mut List<u64>, temp: usize, value: u64)
    ensures { IsPut (λ t. eqb t temp) value values.old values.new }
{
    if temp < values.len() {
        values.set(temp, value);
    }
}

// The temporaries of a word get a value.
fn put_word(values: &mut List<u64>, place: usize, word: u64, value: u64)
    ensures { IsPut (λ t. eqb (t / 64) place && in_word word t) value values.old values.new }
{
    let from = place.saturating_mul(64);
    if from >= values.len() {
        return;
    }
    let mut left = word;
    while left != 0 {
        let bit = lowest(left);
        put(values, from.saturating_add(bit as usize), value);
        left = without(left, bit);
    }
}

// The temporaries of a word have been told.
fn mark_word(told: &mut List<u64>, place: usize, word: u64)
    ensures long { length told.new ≡ length told.old }
    ensures bits { (t : ℕ) → t < length told.old * 64 → word_bit told.new t ≡ ((eqb (t / 64) place && in_word word t) || word_bit told.old t) }
{
    if place < told.len() {
        let old = item(told, place);
        told.set(place, old | word);
    }
}

fn zeros(alloc: Global, count: usize) -> Result<List<u64>, AllocError>
    ensures { IfOk result (λ items. items ≡ replicate count 0) }
{
    Ok(List::from_vec(vec![in alloc; 0; count]?))
}

impl Firsts {
    /// Nothing was told of so many temporaries.
    pub fn new(alloc: Global, temps: usize, parts: &Parts) -> Result<Firsts, AllocError>
        ensures values { IfOk result (λ firsts. firsts.values ≡ replicate temps 0) }
        ensures told { IfOk result (λ firsts. firsts.told ≡ replicate (temps / 64 + 1) 0) }
        ensures seen { IfOk result (AreSeen parts.now) }
    {
        Ok(Firsts {
            values: zeros(alloc, temps)?,
            told: zeros(alloc, temps / 64 + 1)?,
            seen: vec![in alloc; None; parts.count()]?,
        })
    }

    // Those of a word's temporaries that haven't been told get a value.
    fn tell_word(&mut self, place: usize, word: u64, value: u64)
        ensures long { length self.new.told ≡ length self.old.told }
        ensures values { IsPut (λ t. eqb (t / 64) place && (in_word word t && not (word_bit self.old.told t))) value
            self.old.values self.new.values }
        ensures told { (t : ℕ) → t < length self.old.told * 64 →
            word_bit self.new.told t ≡ ((eqb (t / 64) place && in_word word t) || word_bit self.old.told t) }
        ensures seen { self.new.seen ≡ self.old.seen }
    {
        let told = item(&self.told, place);
        put_word(&mut self.values, place, except(word, told), value);
        mark_word(&mut self.told, place, word);
    }

    // Whether all of a part was told at some places.
    fn has_seen(&self, parts: &Parts, number: u32, at: Places) -> bool
        requires { AreSeen parts.now self.now }
        ensures { result ≡ true → IsAllTold parts.now number at.first at.step self.now }
    {
        let _ = parts;
        match self.seen.get(number as usize) {
            Some(Some(places)) => places.first == at.first && places.step == at.step,
            _ => false,
        }
    }

    // All of a part was told at some places.
    fn see(&mut self, parts: &Parts, number: u32, at: Places)
        requires seen { AreSeen parts.now self.old }
        requires all { IsAllTold parts.now number at.first at.step self.old }
        ensures values { self.new.values ≡ self.old.values }
        ensures told { self.new.told ≡ self.old.told }
        ensures seen { AreSeen parts.now self.new }
    {
        let _ = parts;
        let number = number as usize;
        if number < self.seen.len() {
            self.seen[number] = Some(at);
        }
    }

    // The temporaries of a part at some places that haven't been told get a value.
    fn tell_part(
        &mut self,
        parts: &Parts,
        number: u32,
        at: Places,
        value: u64,
    ) -> Result<(), AllocError>
        requires words { length self.old.values ≤ length self.old.told * 64 }
        requires seen { AreSeen parts.now self.old }
        ensures told { OnOk result (IsPartTold parts.now number at.first at.step value self.old self.new) }
        ensures seen { OnOk result (AreSeen parts.now self.new) }
    {
        if number == parts.none() || self.has_seen(parts, number, at) {
            return Ok(());
        }
        let part = parts.part(number);
        self.tell_word(at.first as usize, part.word, value);
        let odd = at.odd()?;
        self.tell_part(parts, part.odd, odd, value)?;
        let even = at.even()?;
        self.tell_part(parts, part.even, even, value)?;
        self.see(parts, number, at);
        Ok(())
    }

    /// The temporaries of a row that haven't been told get a value.
    pub fn tell(&mut self, parts: &Parts, row: u32, value: u64) -> Result<(), AllocError>
        requires words { length self.old.values ≤ length self.old.told * 64 }
        requires seen { AreSeen parts.now self.old }
        ensures told { OnOk result (IsRowTold (λ t. in_word (word_of parts.now row (t / 64)) t) value self.old self.new) }
        ensures seen { OnOk result (AreSeen parts.now self.new) }
    {
        self.tell_part(parts, row, Places { first: 0, step: 1 }, value)
    }
}
