// What is live where a walk stands, and sets that the walk comes back to. All of them share their parts, so to keep one
// costs nothing, and to change one costs the way to a word.

ghost use Rattle.std.specs.Prelude.{ℕ, ◌≡◌, ◌<◌, ◌≤◌, ◌∷◌, IfOk, OnErr, OnOk, MatchOption, false, true, [], drop, length, replicate, reverse, slice_index_or, slice_set};
ghost use Rattle.mv_ir.specs.Live.{mark_at};
ghost use Rattle.mv_regalloc.specs.Parts.{Keeps};
ghost use Rattle.mv_regalloc.specs.Rows.{either_bits, put_bit};
ghost use Rattle.mv_regalloc.specs.Shared.{bits_at, entered, forgotten, left, number_of, numbered, row_of, with_live, with_rows, with_saved};
ghost use Rattle.mv_regalloc.specs.Spanned.{AreRowSpans};

use crate::parts::Parts;
use crate::table::Spans;
use crate::words::{is_set, put};
use std::alloc::{AllocError, Global};
use std::marker::Model;

/// One of the sets of a walk: none, what is live, one that was put aside, where 0 is the last one, and what is live behind
/// a level or at its start, where 0 is the innermost.
#[derive(Clone, Copy)]
pub enum Row {
    Empty,
    Live,
    Saved(u32),
    Behind(u32),
    Start(u32),
}

/// What is live behind a loop or block, and at its start where it is a loop, as numbers of parts.
#[derive(Clone, Copy)]
pub struct Level {
    pub behind: u32,
    pub start: u32,
}

/// The sets of a walk, as numbers of parts, and the row of each position that it has gone over.
#[derive(Drop)]
pub struct Numbers {
    pub live: u32,
    pub saved: Vec<u32>,
    pub rows: Vec<u32>,
    pub levels: Vec<Level>,
}

/// What is live, sets put aside, the levels around some code, and the rows that were marked: at each position what is
/// live or written there.
#[derive(Drop)]
pub struct Liveness {
    parts: Parts,
    temps: usize,
    numbers: Numbers,
}

impl Model for Liveness {
    ghost use Rattle.mv_regalloc.specs.Shared.{AreWithin, LiveSets, numbered, sets_at};

    ghost Value = { LiveSets };

    ghost view = { λ s. sets_at s.temps s.parts (numbered s.numbers) };

    ghost invariant = { λ s. AreWithin s.parts (numbered s.numbers) };
}

// The level so many levels out.
fn enclosing(levels: &[Level], n: u32) -> Option<Level>
    ensures { MatchOption result (length levels.now ≤ n) (λ level.
        (n < length levels.now) × (level ≡ slice_index_or (reverse levels.now) n level)) }
{
    let depth = levels.len();
    let n = n as usize;
    if n < depth {
        Some(levels[depth - 1 - n])
    } else {
        None
    }
}

// The number so many numbers before the last one, or another one.
fn from_last(saved: &[u32], n: u32, other: u32) -> u32
    ensures { result ≡ slice_index_or (reverse saved.now) n other }
{
    let count = saved.len();
    let n = n as usize;
    if n < count {
        saved[count - 1 - n]
    } else {
        other
    }
}

fn drop_last(saved: &mut Vec<u32>)
    ensures { reverse saved.new.items ≡ drop 1 (reverse saved.old.items) }
{
    saved.pop();
}

// The number of a set with or without a temporary. It is the given one where that is so already, so sets are shared.
fn with_bit(parts: &mut Parts, number: u32, temp: u32, bit: bool) -> Result<u32, AllocError>
    requires { number < length parts.old }
    ensures keeps { Keeps parts.old parts.new }
    ensures within { IfOk result (λ made. made < length parts.new) }
    ensures bits { IfOk result (λ made.
        (temps : ℕ) → bits_at temps parts.new made ≡ slice_set (bits_at temps parts.old number) temp bit) }
{
    let old = parts.word(number, temp / 64);
    let word = put(old, temp, bit);
    if word == old {
        return Ok(number);
    }
    parts.with_word(number, temp / 64, word)
}

// The number of a set with another temporary, if there is one.
fn with_some(parts: &mut Parts, number: u32, temp: Option<u32>) -> Result<u32, AllocError>
    requires { number < length parts.old }
    ensures keeps { Keeps parts.old parts.new }
    ensures within { IfOk result (λ made. made < length parts.new) }
    ensures bits { IfOk result (λ made.
        (temps : ℕ) → bits_at temps parts.new made ≡ put_bit temp true (bits_at temps parts.old number)) }
{
    match temp {
        Some(temp) => with_bit(parts, number, temp, true),
        None => Ok(number),
    }
}

impl Numbers {
    // The number of a set, which is that of no temporaries where there is no such set.
    fn of(&self, row: Row, none: u32) -> u32
        ensures { result ≡ number_of none (numbered self.now) row }
    {
        match row {
            Row::Empty => none,
            Row::Live => self.live,
            Row::Saved(n) => from_last(self.saved.as_slice(), n, none),
            Row::Behind(n) => match enclosing(self.levels.as_slice(), n) {
                Some(level) => level.behind,
                None => none,
            },
            Row::Start(n) => match enclosing(self.levels.as_slice(), n) {
                Some(level) => level.start,
                None => none,
            },
        }
    }
}

impl Liveness {
    /// Nothing is live of so many temporaries.
    pub fn new(alloc: Global, temps: usize) -> Result<Liveness, AllocError>
        ensures live { IfOk result (λ liveness. liveness.live ≡ replicate temps false) }
        ensures none { IfOk result (λ liveness. liveness.around.none ≡ replicate temps false) }
        ensures leaves { IfOk result (λ liveness. liveness.around.leaves ≡ []) }
        ensures restarts { IfOk result (λ liveness. liveness.around.restarts ≡ []) }
        ensures rows { IfOk result (λ liveness. liveness.rows ≡ []) }
    {
        let parts = Parts::new(alloc)?;
        let none = parts.none();
        let numbers = Numbers {
            live: none,
            saved: Vec::new(alloc),
            rows: Vec::new(alloc),
            levels: Vec::new(alloc),
        };
        Ok(Liveness {
            parts,
            temps,
            numbers,
        })
    }

    /// Whether a set has a temporary. None has one past the end.
    pub fn has(&self, row: Row, temp: u32) -> bool
        ensures { result ≡ mark_at (row_of self.now row) temp }
    {
        let none = self.parts.none();
        let number = self.numbers.of(row, none);
        if (temp as usize) < self.temps {
            is_set(self.parts.word(number, temp / 64), temp)
        } else {
            false
        }
    }

    /// A temporary past the end has no bit. Where memory lacks, the sets are as they were.
    pub fn insert(&mut self, temp: u32) -> Result<(), AllocError>
        ensures ok { OnOk result (self.new ≡ with_live self.old (slice_set self.old.live temp true)) }
        ensures err { OnErr result (self.new ≡ self.old) }
    {
        let live = self.numbers.live;
        self.numbers.live = with_bit(&mut self.parts, live, temp, true)?;
        Ok(())
    }

    /// A temporary past the end has no bit. Where memory lacks, the sets are as they were.
    pub fn remove(&mut self, temp: u32) -> Result<(), AllocError>
        ensures ok { OnOk result (self.new ≡ with_live self.old (slice_set self.old.live temp false)) }
        ensures err { OnErr result (self.new ≡ self.old) }
    {
        let live = self.numbers.live;
        self.numbers.live = with_bit(&mut self.parts, live, temp, false)?;
        Ok(())
    }

    /// Removes a temporary, if there is one. Where memory lacks, the sets are as they were.
    pub fn remove_some(&mut self, temp: Option<u32>) -> Result<(), AllocError>
        ensures { OnOk result (self.new ≡ with_live self.old (put_bit temp false self.old.live)) }
    {
        match temp {
            Some(temp) => self.remove(temp),
            None => Ok(()),
        }
    }

    /// Goes on where a set is live.
    pub fn turn(&mut self, row: Row)
        ensures { self.new ≡ with_live self.old (row_of self.old row) }
    {
        let none = self.parts.none();
        self.numbers.live = self.numbers.of(row, none);
    }

    /// Joins a set to what is live.
    pub fn join(&mut self, row: Row) -> Result<(), AllocError>
        ensures ok { OnOk result (self.new ≡ with_live self.old (either_bits self.old.live (row_of self.old row))) }
        ensures err { OnErr result (self.new ≡ self.old) }
    {
        let none = self.parts.none();
        let other = self.numbers.of(row, none);
        self.numbers.live = self.parts.joined(self.numbers.live, other)?;
        Ok(())
    }

    /// A position at which what is live is marked, and a temporary that is written there.
    pub fn mark(&mut self, written: Option<u32>) -> Result<(), AllocError>
        ensures { OnOk result (self.new ≡ with_rows self.old (put_bit written true self.old.live ∷ [])) }
    {
        let row = with_some(&mut self.parts, self.numbers.live, written)?;
        self.numbers.rows.push(row)?;
        Ok(())
    }

    /// Puts a set aside.
    pub fn save(&mut self, row: Row) -> Result<(), AllocError>
        ensures ok { OnOk result (self.new ≡ with_saved self.old (row_of self.old row)) }
        ensures err { OnErr result (self.new ≡ self.old) }
    {
        let none = self.parts.none();
        let number = self.numbers.of(row, none);
        self.numbers.saved.push(number)?;
        Ok(())
    }

    /// Forgets the set that was put aside last.
    pub fn forget(&mut self)
        ensures { self.new ≡ forgotten self.old }
    {
        drop_last(&mut self.numbers.saved);
    }

    /// Into a loop or block, from what is live behind it and at its start.
    pub fn enter(&mut self, behind: Row, start: Row) -> Result<(), AllocError>
        ensures ok { OnOk result (self.new ≡ entered self.old (row_of self.old behind) (row_of self.old start)) }
        ensures err { OnErr result (self.new ≡ self.old) }
    {
        let none = self.parts.none();
        let behind = self.numbers.of(behind, none);
        let start = self.numbers.of(start, none);
        self.numbers.levels.push(Level { behind, start })?;
        Ok(())
    }

    /// Out of the innermost level.
    pub fn leave(&mut self)
        ensures { self.new ≡ left self.old }
    {
        self.numbers.levels.pop();
    }

    /// The spans over the rows that were marked.
    pub fn spans(&self, alloc: Global) -> Result<Spans, AllocError>
        ensures { IfOk result (AreRowSpans self.now.rows (length self.now.around.none)) }
    {
        Spans::of_rows(alloc, &self.parts, self.numbers.rows.as_slice(), self.temps)
    }
}
