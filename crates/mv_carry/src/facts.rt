// What is known of temporaries: the numbers that some of them hold.
ghost use Rattle.std.specs.Prelude.{◌≡◌, ◌++◌, ◌∷◌, [], cond, IfOk, OnOk};
ghost use Rattle.mv_carry.specs.Facts.{number_of, without, behind_write, is_number, shared, known, with_facts, meet};

use mv_num::list::List;
use std::alloc::{AllocError, Global};

/// A temporary and the number that it holds.
#[derive(Clone, Copy, PartialEq, Eq, Debug)]
pub struct Fact {
    pub temp: u32,
    pub number: u32,
}

/// What is known at a place of some code.
#[derive(Drop)]
pub enum Reach {
    /// Control never comes there.
    Never,
    /// Each of these holds.
    Knowing(List<Fact>),
}

/// The number that a temporary is known to hold.
pub fn number_in(facts: &[Fact], temp: u32) -> Option<u32>
    ensures { result ≡ number_of facts.now temp }
{
    if facts.len() == 0 {
        return None;
    }
    if facts[0].temp == temp {
        Some(facts[0].number)
    } else {
        number_in(&facts[1..], temp)
    }
}

/// The number that a temporary is known to hold at a place.
pub fn number_at(reach: &Reach, temp: u32) -> Option<u32>
    ensures { result ≡ number_of (known reach.now) temp }
{
    match reach {
        Reach::Never => None,
        Reach::Knowing(facts) => number_in(facts.as_slice(), temp),
    }
}

/// Puts a fact behind others, where it is one to be kept.
pub fn keep(kept: &mut List<Fact>, fact: Fact, is_kept: bool) -> Result<(), AllocError>
    ensures { OnOk result (kept.new ≡ kept.old ++ cond is_kept (fact ∷ []) []) }
{
    if is_kept {
        kept.push(fact)?;
    }
    Ok(())
}

/// All that is known of other temporaries.
#[tactic(auto, using(crate::proofs::Equations::kept_more))]
pub fn without(alloc: Global, facts: &[Fact], temp: u32) -> Result<List<Fact>, AllocError>
    ensures { IfOk result (λ fs. fs ≡ without temp facts.now) }
{
    let mut kept = List::new(alloc);
    for fact in facts {
        keep(&mut kept, *fact, fact.temp != temp)?;
    }
    Ok(kept)
}

// What is known behind a write of a temporary, whose value is a number or isn't known.
fn behind_write(
    alloc: Global,
    temps: u32,
    temp: u32,
    value: Option<u32>,
    facts: &[Fact],
) -> Result<List<Fact>, AllocError>
    ensures { IfOk result (λ fs. fs ≡ behind_write temps temp value facts.now) }
{
    match value {
        Some(number) => {
            if temp < temps {
                let newest = facts.len().saturating_sub(31);
                let mut kept = without(alloc, &facts[newest..], temp)?;
                kept.push(Fact { temp, number })?;
                Ok(kept)
            } else {
                without(alloc, facts, temp)
            }
        }
        None => without(alloc, facts, temp),
    }
}

/// What is known at a place behind a write of a temporary there, whose value is a number or isn't known. The body's temporaries are below `temps`.
pub fn learned(
    alloc: Global,
    temps: u32,
    temp: u32,
    value: Option<u32>,
    reach: &Reach,
) -> Result<Reach, AllocError>
    ensures { IfOk result (λ r. r ≡ with_facts (behind_write temps temp value) reach.now) }
{
    match reach {
        Reach::Never => Ok(Reach::Never),
        Reach::Knowing(facts) => Ok(Reach::Knowing(behind_write(
            alloc,
            temps,
            temp,
            value,
            facts.as_slice(),
        )?)),
    }
}

/// What is known at a place behind a write of a temporary there.
pub fn forgotten(alloc: Global, temp: u32, reach: &Reach) -> Result<Reach, AllocError>
    ensures { IfOk result (λ r. r ≡ with_facts (without temp) reach.now) }
{
    match reach {
        Reach::Never => Ok(Reach::Never),
        Reach::Knowing(facts) => Ok(Reach::Knowing(without(alloc, facts.as_slice(), temp)?)),
    }
}

fn is_number(known: Option<u32>, number: u32) -> bool
    ensures { result ≡ is_number known number }
{
    match known {
        Some(n) => n == number,
        None => false,
    }
}

#[tactic(auto, using(crate::proofs::Equations::kept_more))]
fn shared(alloc: Global, facts: &[Fact], others: &[Fact]) -> Result<List<Fact>, AllocError>
    ensures { IfOk result (λ fs. fs ≡ shared facts.now others.now) }
{
    let mut kept = List::new(alloc);
    for fact in facts {
        let is_shared = is_number(number_in(others, fact.temp), fact.number);
        keep(&mut kept, *fact, is_shared)?;
    }
    Ok(kept)
}

/// The same as what is known at a place.
pub fn copied(alloc: Global, reach: &Reach) -> Result<Reach, AllocError>
    ensures { IfOk result (λ r. r ≡ reach.now) }
{
    match reach {
        Reach::Never => Ok(Reach::Never),
        Reach::Knowing(facts) => Ok(Reach::Knowing(facts.copied(alloc)?)),
    }
}

/// What is known where two ways meet.
pub fn meet(alloc: Global, first: &Reach, second: &Reach) -> Result<Reach, AllocError>
    ensures { IfOk result (λ r. r ≡ meet first.now second.now) }
{
    match first {
        Reach::Never => copied(alloc, second),
        Reach::Knowing(facts) => match second {
            Reach::Never => Ok(Reach::Knowing(facts.copied(alloc)?)),
            Reach::Knowing(others) => Ok(Reach::Knowing(shared(
                alloc,
                facts.as_slice(),
                others.as_slice(),
            )?)),
        },
    }
}
