//! What is claimed of the loops and blocks that enclose some code.
ghost use Rattle.std.specs.Prelude.{◌≡◌, ◌∷◌, [], drop, OnOk, OnErr, IfOk};
ghost use Rattle.std.specs.Option.{option_copied};
ghost use Rattle.mv_ranges.specs.Following.{claim_at};

use crate::facts::{Fact, range_in, upwards, without};
use crate::range::HALF;
use mv_num::list::List;
use std::alloc::{AllocError, Global};
use std::marker::Model;

/// How often loops and blocks of a body are walked with claims that may not hold, so that the work goes by the length of the code.
const TRIES: u32 = 256;

/// What is claimed of a loop or a block: it is known wherever a turn of it starts, and wherever it is left.
#[derive(Debug, Drop)]
pub struct Claim {
    pub start: List<Fact>,
    pub exit: List<Fact>,
}

impl Claim {
    /// Nothing is claimed.
    pub(crate) fn nothing(alloc: Global) -> Claim
        ensures start { result.start ≡ [] }
        ensures exit { result.exit ≡ [] }
    {
        Claim {
            start: List::new(alloc),
            exit: List::new(alloc),
        }
    }

    /// The same claim once more.
    pub(crate) fn copied(&self, alloc: Global) -> Result<Claim, AllocError>
        ensures { IfOk result (λ copy. copy ≡ self.now) }
    {
        Ok(Claim {
            start: self.start.copied(alloc)?,
            exit: self.exit.copied(alloc)?,
        })
    }

    /// A claim that says less of a temporary where a turn starts: that it gets no less than it was and isn't negative, or, where it says that already, nothing.
    pub(crate) fn weaker_start(self, alloc: Global, temp: u32) -> Result<Claim, AllocError> {
        Ok(Claim {
            start: weaker(alloc, self.start.as_slice(), temp)?,
            exit: self.exit,
        })
    }

    /// The same where control goes on behind it.
    pub(crate) fn weaker_exit(self, alloc: Global, temp: u32) -> Result<Claim, AllocError> {
        Ok(Claim {
            start: self.start,
            exit: weaker(alloc, self.exit.as_slice(), temp)?,
        })
    }
}

fn weaker(alloc: Global, facts: &[Fact], temp: u32) -> Result<List<Fact>, AllocError> {
    let mut kept = without(alloc, facts, temp)?;
    match range_in(facts, temp) {
        Some(range) if range.high < HALF => kept.push(upwards(temp, range))?,
        _ => {}
    }
    Ok(kept)
}

/// The claims of the loops and blocks that enclose some code. A contract sees them with the innermost first.
#[derive(Debug, Drop)]
pub struct Around {
    outermost_first: Vec<Claim>,
    /// How often a loop or a block may still be walked again with other claims.
    tries: u32,
}

impl Model for Around {
    ghost use Rattle.std.specs.Prelude.{List, reverse};
    ghost use Rattle.mv_ranges.specs.declared.around.Claim.{Claim};

    ghost Value = { List Claim };

    ghost view = { λ a. reverse a.outermost_first.items };
}

impl Around {
    /// Code that nothing encloses.
    pub(crate) fn new(alloc: Global) -> Around
        ensures { result ≡ [] }
    {
        Around {
            outermost_first: Vec::new(alloc),
            tries: TRIES,
        }
    }

    /// Whether a loop or a block may be walked with claims that may not hold.
    pub(crate) fn may_try(&mut self) -> bool
        ensures { self.new ≡ self.old }
    {
        if self.tries > 0 {
            self.tries -= 1;
            true
        } else {
            false
        }
    }

    /// How many loops and blocks there are.
    pub(crate) fn depth(&self) -> usize {
        self.outermost_first.len()
    }

    /// Goes into a loop or a block.
    #[tactic(auto, using(crate::proofs::Levels::reverse_pushed))]
    pub(crate) fn enter(&mut self, claim: Claim) -> Result<(), AllocError>
        ensures done { OnOk result (self.new ≡ claim ∷ self.old) }
        ensures failed { OnErr result (self.new ≡ self.old) }
    {
        self.outermost_first.push(claim)?;
        Ok(())
    }

    /// Goes out of the innermost one.
    pub(crate) fn leave(&mut self)
        ensures { self.new ≡ drop 1 self.old }
    {
        self.outermost_first.pop();
    }

    /// What is claimed of the n-th one, counted from 0, the innermost.
    #[tactic(auto, using(crate::proofs::Levels::claimed))]
    pub(crate) fn claim(&self, n: u32) -> Option<&Claim>
        ensures { option_copied result ≡ claim_at self.now n }
    {
        let all = self.outermost_first.as_slice();
        let n = n as usize;
        if n < all.len() {
            Some(&all[all.len() - 1 - n])
        } else {
            None
        }
    }
}
