// Where the intervals of each number end: the first number that is free is found by a way down a tree, in which each
// node has the lesser of two ends.

ghost use Rattle.std.specs.Prelude.{ℕ, ◌≡◌, ◌<◌, ◌≤◌, ◌+◌, ◌*◌, ◌/◌, ◌++◌, ◌∷◌, [], length, min, List, slice_index, slice_set, IfOk, OnOk, OnErr};
ghost use Rattle.mv_regalloc.specs.Paired.{lesser_of};
ghost use Rattle.mv_regalloc.specs.Tracked.{AreLesser, IsFirstEnded};

use crate::words::word_at;
use std::alloc::{AllocError, Global};
use std::marker::Model;

/// For each number the position behind its last interval, and above them the same table over the lesser of each two: a
/// tree of minima, a level each.
#[cycle(ends)]
#[derive(Drop)]
pub struct Ends {
    ends: Vec<u64>,
    pairs: Pairs,
}

// The lesser end of each two numbers, which are 0 and 1, 2 and 3, and so on.
#[cycle(ends)]
#[derive(Drop)]
enum Pairs {
    Empty,
    Lesser(Box<Ends>),
}

impl Model for Ends {
    ghost use Rattle.std.specs.Prelude.{ℕ, List, length};

    ghost Value = { List ℕ };

    ghost use Rattle.mv_regalloc.specs.Paired.{IsPaired};

    ghost view = { λ e. e.ends.items };

    ghost invariant = { λ e. IsPaired e.ends.items e.pairs };

    ghost size = { length };

    ghost use Rattle.mv_regalloc.specs.Halves.{pairs_fewer};

    ghost size_decreases = { λ e h. pairs_fewer e.ends.items e.pairs h };
}

// The lesser end of a number's pair.
fn lesser_at(ends: &[u64], number: usize) -> u64
    requires { number < length ends.now }
    ensures { result ≡ min (slice_index ends.now (number / 2 * 2)) (slice_index ends.now (number / 2 * 2 + 1)) }
{
    let first = number / 2 * 2;
    word_at(ends, first).min(word_at(ends, first + 1))
}

// The first number whose intervals have all ended before a position, by the first such pair.
fn first_of_pair(ends: &[u64], pair: usize, at: u64) -> usize
    requires { pair ≤ length ends.now / 2 }
    ensures { (lesser : List ℕ) → AreLesser ends.now lesser → IsFirstEnded lesser at pair → IsFirstEnded ends.now at result }
{
    let first = pair * 2;
    if word_at(ends, first) <= at {
        first
    } else {
        first + 1
    }
}

// The end of one number.
fn single(alloc: Global, end: u64) -> Result<Box<Ends>, AllocError>
    ensures { IfOk result (λ ends. ends.value ≡ end ∷ []) }
{
    let mut ends = Vec::new(alloc);
    ends.push(end)?;
    let pairs = Pairs::Empty;
    Ok(Box::new(alloc, Ends { ends, pairs })?)
}

impl Pairs {
    // The first pair that has a number whose intervals have all ended before a position, or the next new one.
    #[cycle(first_ended)]
    fn first_ended(&self, at: u64) -> usize
        ensures { IsFirstEnded (lesser_of self.now) at result }
    {
        match self {
            Pairs::Empty => 0,
            Pairs::Lesser(lesser) => lesser.first_ended(at),
        }
    }

    // Another lesser end for a pair, if there is such a pair.
    #[cycle(set)]
    fn set(&mut self, pair: usize, end: u64)
        ensures { lesser_of self.new ≡ slice_set (lesser_of self.old) pair end }
    {
        if let Pairs::Lesser(lesser) = self {
            if pair < lesser.len() {
                lesser.set(pair, end);
            }
        }
    }

    // One pair more.
    #[cycle(push)]
    fn push(&mut self, alloc: Global, end: u64) -> Result<(), AllocError>
        ensures ok { OnOk result (lesser_of self.new ≡ lesser_of self.old ++ end ∷ []) }
        ensures err { OnErr result (lesser_of self.new ≡ lesser_of self.old) }
    {
        match self {
            Pairs::Empty => {
                *self = Pairs::Lesser(single(alloc, end)?);
                Ok(())
            }
            Pairs::Lesser(lesser) => lesser.push(end),
        }
    }
}

impl Ends {
    /// No numbers.
    pub fn new(alloc: Global) -> Ends
        ensures { result ≡ [] }
    {
        Ends {
            ends: Vec::new(alloc),
            pairs: Pairs::Empty,
        }
    }

    /// How many numbers there are.
    pub fn len(&self) -> usize
        ensures { result ≡ length self.now }
    {
        self.ends.len()
    }

    /// The first number whose intervals have all ended before a position, or the next new one.
    #[cycle(first_ended)]
    pub fn first_ended(&self, at: u64) -> usize
        ensures { IsFirstEnded self.now at result }
    {
        first_of_pair(self.ends.as_slice(), self.pairs.first_ended(at), at)
    }

    /// Another end for a number.
    #[cycle(set)]
    pub fn set(&mut self, number: usize, end: u64)
        requires { number < length self.old }
        ensures { self.new ≡ slice_set self.old number end }
    {
        self.ends[number] = end;
        let lesser = lesser_at(self.ends.as_slice(), number);
        self.pairs.set(number / 2, lesser);
    }

    /// One number more. Where memory lacks, the ends are as they were.
    #[cycle(push)]
    pub fn push(&mut self, end: u64) -> Result<(), AllocError>
        ensures ok { OnOk result (self.new ≡ self.old ++ end ∷ []) }
        ensures err { OnErr result (self.new ≡ self.old) }
    {
        let number = self.ends.len();
        self.ends.reserve(1)?;
        if number % 2 == 1 {
            let lesser = self.ends[number - 1].min(end);
            self.pairs.push(*self.ends.allocator(), lesser)?;
        }
        self.ends.push_reserved(end);
        Ok(())
    }
}
