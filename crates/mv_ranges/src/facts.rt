//! What is known of temporaries. A list of facts has few, so that code is walked in a time that goes by its length.
ghost use Rattle.std.specs.Prelude.{ℕ, ◌≡◌, ◌<◌, [], ◌∷◌, true, length, slice_index, IfOk, All, IfSome, None};
ghost use Rattle.mv_ir.specs.Outcome.{State};
ghost use Rattle.mv_ir.specs.Meaning.{elements};
ghost use Rattle.mv_ranges.specs.Ranges.{IsIn, IsWithin};
ghost use Rattle.mv_ranges.specs.Facts.{AllHold, AreAsLong, AreSameBut, Holds, temp_of};

use crate::range::{HALF, Range, hull, meet};
use mv_ir::stm::Array;
use mv_num::list::List;
use std::alloc::{AllocError, Global};

/// How many facts are kept at most.
const MOST: usize = 48;

/// What is known of the value of a temporary.
#[derive(Clone, Copy, PartialEq, Eq, Debug, Drop)]
pub enum Fact {
    /// It lies in a range.
    Within(u32, Range),
    /// It is below the length of an array.
    Below(u32, Array),
}

impl Fact {
    // The temporary.
    fn temp(self) -> u32
        ensures { result ≡ temp_of self }
    {
        match self {
            Fact::Within(temp, _) => temp,
            Fact::Below(temp, _) => temp,
        }
    }
}

/// A temporary gets no less than the numbers of a range, and isn't negative.
pub(crate) fn upwards(temp: u32, range: Range) -> Fact {
    let from = Range {
        low: range.low,
        high: HALF,
    };
    Fact::Within(temp, from)
}

/// The range of a temporary, if one is known.
pub(crate) fn range_in(facts: &[Fact], temp: u32) -> Option<Range>
    ensures { (s : State) → AllHold s facts.now → IsWithin result (slice_index s.temps temp) }
{
    for fact in facts {
        match fact {
            Fact::Within(t, range) if *t == temp => return Some(*range),
            _ => {}
        }
    }
    None
}

/// Whether a temporary is known to be below the length of an array.
pub(crate) fn is_below(facts: &[Fact], temp: u32, array: Array) -> bool
    ensures { result ≡ true → (s : State) → AllHold s facts.now → slice_index s.temps temp < length (elements array s) }
{
    for fact in facts {
        match fact {
            Fact::Below(t, a) if *t == temp && *a == array => return true,
            _ => {}
        }
    }
    false
}

/// The facts that stay where a temporary is written, and arrays stay as long.
pub(crate) fn without(alloc: Global, facts: &[Fact], temp: u32) -> Result<List<Fact>, AllocError>
    ensures { IfOk result (λ kept. (s s' : State) → AllHold s facts.now → AreSameBut temp s s' → AreAsLong s s' → AllHold s' kept) }
{
    let mut kept = List::new(alloc);
    for fact in facts {
        if fact.temp() != temp {
            kept.push(*fact)?;
        }
    }
    Ok(kept)
}

/// The facts that stay where anything is called: arrays of the program may be of any length then.
pub(crate) fn without_arrays(alloc: Global, facts: &[Fact]) -> Result<List<Fact>, AllocError>
    ensures { IfOk result (λ kept. (s s' : State) → AllHold s facts.now → s'.temps ≡ s.temps → AllHold s' kept) }
{
    let mut kept = List::new(alloc);
    for fact in facts {
        match fact {
            Fact::Within(_, _) => kept.push(*fact)?,
            Fact::Below(_, _) => {}
        }
    }
    Ok(kept)
}

/// Facts and one more, if there is room for it.
pub(crate) fn with(mut facts: List<Fact>, fact: Fact) -> Result<List<Fact>, AllocError>
    ensures { IfOk result (λ more. (s : State) → AllHold s facts → Holds s fact → AllHold s more) }
{
    if facts.len() < MOST {
        facts.push(fact)?;
    }
    Ok(facts)
}

/// What is known where a temporary lies in a range too.
pub(crate) fn narrowed(
    alloc: Global,
    facts: &[Fact],
    temp: u32,
    range: Range,
) -> Result<List<Fact>, AllocError>
    ensures { IfOk result (λ more. (s : State) → AllHold s facts.now → IsIn range (slice_index s.temps temp) → AllHold s more) }
{
    let least = match range_in(facts, temp) {
        Some(known) => meet(known, range),
        None => range,
    };
    let mut kept = List::new(alloc);
    for fact in facts {
        match fact {
            Fact::Within(t, _) if *t == temp => {}
            _ => kept.push(*fact)?,
        }
    }
    with(kept, Fact::Within(temp, least))
}

/// What is known where one list of facts holds or the other.
pub(crate) fn joined(alloc: Global, a: &[Fact], b: &[Fact]) -> Result<List<Fact>, AllocError>
    ensures first { IfOk result (λ both. (s : State) → AllHold s a.now → AllHold s both) }
    ensures second { IfOk result (λ both. (s : State) → AllHold s b.now → AllHold s both) }
{
    let mut both = List::new(alloc);
    for fact in a {
        match common(*fact, b) {
            Some(fact) => both.push(fact)?,
            None => {}
        }
    }
    Ok(both)
}

// What a fact and others have in common.
fn common(fact: Fact, facts: &[Fact]) -> Option<Fact>
    ensures first { IfSome result (λ both. (s : State) → Holds s fact → Holds s both) }
    ensures second { IfSome result (λ both. (s : State) → AllHold s facts.now → Holds s both) }
{
    match fact {
        Fact::Within(temp, range) => match range_in(facts, temp) {
            Some(other) => Some(Fact::Within(temp, hull(range, other))),
            None => None,
        },
        Fact::Below(temp, array) => if is_below(facts, temp, array) {
            Some(fact)
        } else {
            None
        },
    }
}

// Whether facts imply another one.
fn implies(facts: &[Fact], fact: Fact) -> bool
    ensures { result ≡ true → (s : State) → AllHold s facts.now → Holds s fact }
{
    match fact {
        Fact::Within(temp, range) => match range_in(facts, temp) {
            Some(known) => range.low <= known.low && known.high <= range.high,
            None => false,
        },
        Fact::Below(temp, array) => is_below(facts, temp, array),
    }
}

/// The temporary of the first fact that others don't imply.
pub(crate) fn refuted(facts: &[Fact], claimed: &[Fact]) -> Option<u32>
    ensures { result ≡ None → (s : State) → AllHold s facts.now → AllHold s claimed.now }
{
    for fact in claimed {
        if !implies(facts, *fact) {
            return Some(fact.temp());
        }
    }
    None
}
