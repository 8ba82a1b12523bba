//! What is known of temporaries. A list of facts has few, so that code is walked in a time that goes by its length.
ghost use Rattle.std.specs.Prelude.{◌≡◌, true, Contains, IfOk, IfSome};
ghost use Rattle.mv_propagate.specs.Facts.{leaf_is, held_by, names, names_result, same_array, goes_by, is_element};
ghost use Rattle.mv_propagate.specs.Propagating.{fact, Unwritten, Unstored, Uncalled, Fewer, Learned};
ghost use Rattle.mv_propagate.specs.declared.facts.Held.TheVariants.{Value, Element};

use mv_ir::stm::Array;
use mv_num::list::List;
use std::alloc::{AllocError, Global};

/// How many facts are kept at most.
const MOST: usize = 16;

/// A number, or what a temporary holds.
#[derive(Clone, Copy, PartialEq, Eq, Debug, Drop)]
pub enum Leaf {
    Number(u32),
    Temp(u32),
}

/// What a temporary is known to hold.
#[derive(Clone, Copy, PartialEq, Eq, Debug, Drop)]
pub enum Held {
    Value(Leaf),
    /// The element of an array at an index, which is below the length.
    Element(Array, Leaf),
}

/// A temporary and what it holds.
#[derive(Clone, Copy, PartialEq, Eq, Debug, Drop)]
pub struct Fact {
    pub temp: u32,
    pub held: Held,
}

impl Leaf {
    /// Whether it is what a temporary holds.
    pub(crate) fn is(self, temp: u32) -> bool
        ensures { result ≡ leaf_is temp self }
    {
        match self {
            Leaf::Number(_) => false,
            Leaf::Temp(u) => u == temp,
        }
    }
}

impl Held {
    fn is_by(self, temp: u32) -> bool
        ensures { result ≡ held_by temp self }
    {
        match self {
            Held::Value(leaf) => leaf.is(temp),
            Held::Element(_, index) => index.is(temp),
        }
    }

    fn is_element(self) -> bool
        ensures { result ≡ is_element self }
    {
        match self {
            Held::Value(_) => false,
            Held::Element(_, _) => true,
        }
    }
}

impl Fact {
    fn names(self, temp: u32) -> bool
        ensures { result ≡ names temp self }
    {
        self.temp == temp || self.held.is_by(temp)
    }

    fn names_result(self, result_temp: Option<u32>) -> bool
        ensures { result ≡ names_result result_temp self }
    {
        match result_temp {
            None => false,
            Some(temp) => self.names(temp),
        }
    }

    fn goes_by(self, array: Array) -> bool
        ensures { result ≡ goes_by array self }
    {
        match self.held {
            Held::Value(_) => false,
            Held::Element(other, _) => same_array(array, other),
        }
    }
}

// Whether two arrays are the same, whatever is promised.
fn same_array(a: Array, b: Array) -> bool
    ensures { result ≡ same_array a b }
{
    match a {
        Array::Global(g) | Array::SureGlobal(g, _) => match b {
            Array::Global(h) | Array::SureGlobal(h, _) => g == h,
            Array::Local(_) | Array::SureLocal(_, _) => false,
        },
        Array::Local(l) | Array::SureLocal(l, _) => match b {
            Array::Global(_) | Array::SureGlobal(_, _) => false,
            Array::Local(k) | Array::SureLocal(k, _) => l == k,
        },
    }
}

/// The value that a temporary is known to hold.
pub(crate) fn value_in(facts: &[Fact], temp: u32) -> Option<Leaf>
    ensures { IfSome result (λ l. Contains facts.now (fact temp (Value l))) }
{
    for known in facts {
        if known.temp == temp {
            if let Held::Value(leaf) = known.held {
                return Some(leaf);
            }
        }
    }
    None
}

/// The temporary that is known to hold an element.
#[tactic(auto, using(crate::proofs::Staying::among))]
pub(crate) fn element_in(facts: &[Fact], array: Array, index: Leaf) -> Option<u32>
    ensures { IfSome result (λ u. Contains facts.now (fact u (Element array index))) }
{
    for known in facts {
        if known.held == Held::Element(array, index) {
            return Some(known.temp);
        }
    }
    None
}

/// The facts that stay where a temporary is written.
pub(crate) fn unwritten(alloc: Global, facts: &[Fact], temp: u32) -> Result<List<Fact>, AllocError>
    ensures { IfOk result (Unwritten temp facts.now) }
{
    let mut kept = List::new(alloc);
    for known in facts {
        if !known.names(temp) {
            kept.push(*known)?;
        }
    }
    Ok(kept)
}

/// The facts that stay where an element of an array is written.
pub(crate) fn unstored(
    alloc: Global,
    facts: &[Fact],
    array: Array,
) -> Result<List<Fact>, AllocError>
    ensures { IfOk result (Unstored array facts.now) }
{
    let mut kept = List::new(alloc);
    for known in facts {
        if !known.goes_by(array) {
            kept.push(*known)?;
        }
    }
    Ok(kept)
}

/// The facts that stay where something is called, and its result put into a temporary.
pub(crate) fn uncalled(
    alloc: Global,
    facts: &[Fact],
    result_temp: Option<u32>,
) -> Result<List<Fact>, AllocError>
    ensures { IfOk result (Uncalled result_temp facts.now) }
{
    let mut kept = List::new(alloc);
    for known in facts {
        if !known.held.is_element() && !known.names_result(result_temp) {
            kept.push(*known)?;
        }
    }
    Ok(kept)
}

// Whether a fact is one of some.
#[tactic(auto, using(crate::proofs::Staying::among))]
fn is_among(known: Fact, facts: &[Fact]) -> bool
    ensures { result ≡ true → Contains facts.now known }
{
    for other in facts {
        if known == *other {
            return true;
        }
    }
    false
}

/// The facts that are among others too.
pub(crate) fn shared(
    alloc: Global,
    facts: &[Fact],
    others: &[Fact],
) -> Result<List<Fact>, AllocError>
    ensures of { IfOk result (Fewer facts.now) }
    ensures too { IfOk result (Fewer others.now) }
{
    let mut kept = List::new(alloc);
    for known in facts {
        if is_among(*known, others) {
            kept.push(*known)?;
        }
    }
    Ok(kept)
}

/// The facts that stay where a temporary is written, the newest, and what it holds then.
pub(crate) fn learned(
    alloc: Global,
    facts: &[Fact],
    temp: u32,
    held: Held,
) -> Result<List<Fact>, AllocError>
    ensures { IfOk result (Learned temp held facts.now) }
{
    let newest = facts.len().saturating_sub(MOST - 1);
    let mut kept = unwritten(alloc, &facts[newest..], temp)?;
    kept.push(Fact { temp, held })?;
    Ok(kept)
}
