// Words by their places, in parts that are shared: a set of words is the number of a part, so a copy costs nothing.

ghost use Rattle.std.specs.Prelude.{ℕ, ◌≡◌, ◌<◌, ◌≤◌, ◌%◌, bit_or, cond, eqb, length, IfOk, IfSome};
ghost use Rattle.mv_regalloc.specs.Parts.{IsJoin, Keeps, further, part_at, word_of};

use crate::joins::{Join, no_joins, place_of};
use std::alloc::{AllocError, Global};
use std::marker::Model;

/// The word of place 0, the number of the part for the odd places, and that for the other even places: place n of each
/// of these two stands for place 2 n + 1 or 2 n + 2.
#[derive(Clone, Copy, PartialEq)]
pub struct Part {
    pub word: u64,
    pub odd: u32,
    pub even: u32,
}

/// Parts, each of which leads to earlier ones only. The first one has no words but 0. None is ever changed, so what two
/// were joined to stays true: joins are remembered, and two sets that share most parts with two that were joined before
/// cost what differs.
#[derive(Drop)]
pub struct Parts {
    alloc: Global,
    parts: Vec<Part>,
    joins: Vec<Join>,
}

impl Model for Parts {
    ghost use Rattle.std.specs.Prelude.{List};
    ghost use Rattle.mv_regalloc.specs.declared.parts.Part.{Part};

    ghost Value = { List Part };

    ghost use Rattle.mv_regalloc.specs.Parts.{AreJoined};

    ghost view = { λ p. p.parts.items };

    ghost invariant = { λ p. AreJoined p.parts.items p.joins.items };
}

impl Part {
    // A part without words.
    fn none() -> Part
        ensures { result ≡ record { word = 0; odd = 0; even = 0 } }
    {
        Part {
            word: 0,
            odd: 0,
            even: 0,
        }
    }

    // The part that a place but 0 leads to.
    fn further(self, place: u32) -> u32
        ensures { result ≡ further self place }
    {
        if place % 2 == 1 { self.odd } else { self.even }
    }

    // The same with another part there.
    fn with_further(self, place: u32, part: u32) -> Part
        ensures { result ≡ cond (eqb (place % 2) 1) (record self { odd = part }) (record self { even = part }) }
    {
        if place % 2 == 1 {
            Part { odd: part, ..self }
        } else {
            Part { even: part, ..self }
        }
    }
}

impl Parts {
    /// The part without words alone.
    pub fn new(alloc: Global) -> Result<Parts, AllocError> {
        let mut parts = Vec::new(alloc);
        parts.push(Part::none())?;
        Ok(Parts {
            alloc,
            parts,
            joins: Vec::new(alloc),
        })
    }

    /// How many parts there are.
    pub fn count(&self) -> usize
        ensures { result ≡ length self.now }
    {
        self.parts.len()
    }

    /// A part by its number.
    pub fn part(&self, number: u32) -> Part
        ensures part { result ≡ part_at self.now number }
        ensures odd { 0 < number → result.odd < number }
        ensures even { 0 < number → result.even < number }
        ensures odd_low { result.odd ≤ number }
        ensures even_low { result.even ≤ number }
        ensures odd_within { result.odd < length self.now }
        ensures even_within { result.even < length self.now }
    {
        match self.parts.get(number as usize) {
            Some(part) => *part,
            None => Part::none(),
        }
    }

    // The number of a part.
    fn made(&mut self, part: Part) -> Result<u32, AllocError>
        requires odd { part.odd < length self.old }
        requires even { part.even < length self.old }
        ensures keeps { Keeps self.old self.new }
        ensures within { IfOk result (λ number. number < length self.new) }
        ensures part { IfOk result (λ number. part_at self.new number ≡ part) }
    {
        let count = self.parts.len();
        if part == Part::none() {
            return Ok(0);
        }
        if count > u32::MAX as usize {
            return Err(AllocError);
        }
        self.parts.push(part)?;
        Ok(count as u32)
    }

    // The number of a part, which may be one of two that stand there.
    fn made_as(&mut self, part: Part, one: u32, other: u32) -> Result<u32, AllocError>
        requires odd { part.odd < length self.old }
        requires even { part.even < length self.old }
        requires one { one < length self.old }
        requires other { other < length self.old }
        ensures keeps { Keeps self.old self.new }
        ensures within { IfOk result (λ number. number < length self.new) }
        ensures part { IfOk result (λ number. part_at self.new number ≡ part) }
    {
        if part == self.part(other) {
            return Ok(other);
        }
        if part == self.part(one) {
            return Ok(one);
        }
        self.made(part)
    }

    /// No words but 0.
    pub fn none(&self) -> u32
        ensures within { result < length self.now }
        ensures first { result ≡ 0 }
        ensures words { (place : ℕ) → word_of self.now result place ≡ 0 }
    {
        let _ = &self.parts;
        0
    }

    /// The word of a place.
    pub fn word(&self, number: u32, place: u32) -> u64
        ensures { result ≡ word_of self.now number place }
    {
        let mut number = number;
        let mut place = place;
        while place > 0 {
            number = self.part(number).further(place);
            place = (place - 1) / 2;
        }
        self.part(number).word
    }

    /// The same words but for another one at a place.
    pub fn with_word(&mut self, number: u32, place: u32, word: u64) -> Result<u32, AllocError>
        requires { number < length self.old }
        ensures keeps { Keeps self.old self.new }
        ensures within { IfOk result (λ made. made < length self.new) }
        ensures words { IfOk result (λ made.
            (p : ℕ) → word_of self.new made p ≡ cond (eqb p place) word (word_of self.old number p)) }
    {
        let part = self.part(number);
        if place == 0 {
            return self.made(Part { word, ..part });
        }
        let further = self.with_word(part.further(place), (place - 1) / 2, word)?;
        self.made(part.with_further(place, further))
    }

    // What two were joined to, where that is remembered.
    fn join_of(&self, one: u32, other: u32) -> Option<u32>
        ensures { IfSome result (IsJoin self.now one other) }
    {
        let place = place_of(one, other, self.joins.len());
        match self.joins.get(place) {
            Some(join) if join.one == one && join.other == other => Some(join.made),
            _ => None,
        }
    }

    // Places for at least as many joins as there are parts. New ones remember nothing.
    fn widen_joins(&mut self) -> Result<(), AllocError>
        ensures { self.new ≡ self.old }
    {
        let count = self.parts.len();
        if self.joins.len() < count {
            self.joins = no_joins(self.alloc, count.saturating_mul(2))?;
        }
        Ok(())
    }

    // Remembers what two were joined to.
    fn remember(&mut self, join: Join) -> Result<u32, AllocError>
        requires { IsJoin self.old join.one join.other join.made }
        ensures same { self.new ≡ self.old }
        ensures joined { IfOk result (IsJoin self.old join.one join.other) }
    {
        self.widen_joins()?;
        let place = place_of(join.one, join.other, self.joins.len());
        if place < self.joins.len() {
            self.joins[place] = join;
        }
        Ok(join.made)
    }

    /// The bits of two. It is the second one where that has all of them.
    pub fn joined(&mut self, one: u32, other: u32) -> Result<u32, AllocError>
        requires one { one < length self.old }
        requires other { other < length self.old }
        ensures keeps { Keeps self.old self.new }
        ensures within { IfOk result (λ made. made < length self.new) }
        ensures words { IfOk result (λ made.
            (p : ℕ) → word_of self.new made p ≡ bit_or (word_of self.old one p) (word_of self.old other p)) }
    {
        let none = self.none();
        if one == other || other == none {
            return Ok(one);
        }
        if one == none {
            return Ok(other);
        }
        if let Some(made) = self.join_of(one, other) {
            return Ok(made);
        }
        let first = self.part(one);
        let second = self.part(other);
        let odd = self.joined(first.odd, second.odd)?;
        let even = self.joined(first.even, second.even)?;
        let word = first.word | second.word;
        let made = self.made_as(Part { word, odd, even }, one, other)?;
        self.remember(Join { one, other, made })
    }
}
