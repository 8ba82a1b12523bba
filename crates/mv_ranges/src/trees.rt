//! Ranges of the values of trees, and what follows where a tree is true, or where it is 0.
ghost use Rattle.std.specs.Prelude.{ℕ, ◌≡◌, ◌<◌, ◌≤◌, List, true, IfOk, not, eqb};
ghost use Rattle.mv_ir.specs.Outcome.{State};
ghost use Rattle.mv_ir.specs.Trees.{binary, divide, value};
ghost use Rattle.mv_ranges.specs.Ranges.{IsWithin};
ghost use Rattle.mv_ranges.specs.Facts.{AllHold};

use crate::facts::{Fact, narrowed, range_in};
use crate::range::{HALF, Range, common_bits, converted, divided, operated, up_to};
use mv_ir::operators::{BIT_AND, EQUAL, LESS_SIGNED, LESS_UNSIGNED, LOGICAL_NOT, NOT_EQUAL};
use mv_ir::tree::Tree;
use mv_num::list::List;
use std::alloc::{AllocError, Global};

/// The range of a tree's value, if one is known.
#[tactic(auto, using(crate::proofs::Values::values))]
pub(crate) fn range_of(facts: &[Fact], tree: &Tree) -> Option<Range>
    ensures { (numbers : List ℕ) (bound : List (ℕ × ℕ)) (s : State) → AllHold s facts.now → IsWithin result (value numbers bound tree.now s.temps s.world.globals) }
{
    match tree {
        Tree::Number(n) => Some(Range { low: *n, high: *n }),
        Tree::Temp(t) => range_in(facts, *t),
        Tree::Global(_) => None,
        Tree::Function(_) => None,
        Tree::Unary(operator, _) => if *operator == LOGICAL_NOT {
            Some(up_to(1))
        } else {
            None
        },
        Tree::Binary(operator, a, b) => of_operator(
            *operator,
            range_of(facts, a.get()),
            range_of(facts, b.get()),
        ),
        Tree::Narrow(kind, a) => converted(*kind, range_of(facts, a.get())),
    }
}

// The range of what an operator gives.
#[tactic(auto, using(crate::proofs::Values::operators))]
fn of_operator(operator: u8, a: Option<Range>, b: Option<Range>) -> Option<Range>
    ensures { (x y : ℕ) → IsWithin a x → IsWithin b y → IsWithin result (binary operator x y) }
{
    if operator >= LESS_SIGNED {
        return Some(up_to(1));
    }
    if operator == BIT_AND {
        return common_bits(a, b);
    }
    match (a, b) {
        (Some(a), Some(b)) => operated(operator, a, b),
        _ => None,
    }
}

/// The range of what a division gives, if one is known.
#[tactic(auto, using(crate::proofs::Values::values))]
pub(crate) fn range_of_division(facts: &[Fact], operator: u8, a: &Tree, b: &Tree) -> Option<Range>
    ensures { (numbers : List ℕ) (bound : List (ℕ × ℕ)) (s : State) → AllHold s facts.now →
        IsWithin result (divide operator (value numbers bound a.now s.temps s.world.globals) (value numbers bound b.now s.temps s.world.globals)) }
{
    match b {
        Tree::Number(n) if *n > 0 => divided(operator, range_of(facts, a), *n),
        _ => None,
    }
}

// What is known where a tree lies in a range too, if there is one.
#[tactic(auto, using(crate::proofs::Values::values))]
fn lying(
    alloc: Global,
    facts: List<Fact>,
    tree: &Tree,
    range: Option<Range>,
) -> Result<List<Fact>, AllocError>
    ensures { IfOk result (λ more. (numbers : List ℕ) (bound : List (ℕ × ℕ)) (s : State) → AllHold s facts →
        IsWithin range (value numbers bound tree.now s.temps s.world.globals) → AllHold s more) }
{
    match (tree, range) {
        (Tree::Temp(t), Some(range)) => narrowed(alloc, facts.as_slice(), *t, range),
        _ => Ok(facts),
    }
}

// The numbers that are less than one of a range.
fn below(range: Option<Range>) -> Option<Range>
    ensures { (x y : ℕ) → IsWithin range y → x < y → IsWithin result x }
{
    match range {
        Some(range) if range.high > 0 => Some(up_to(range.high - 1)),
        _ => None,
    }
}

// The numbers that are at most one of a range.
fn not_above(range: Option<Range>) -> Option<Range>
    ensures { (x y : ℕ) → IsWithin range y → x ≤ y → IsWithin result x }
{
    match range {
        Some(range) => Some(up_to(range.high)),
        None => None,
    }
}

// What is known where a tree whose range is known is at least a number.
fn at_least(
    alloc: Global,
    facts: List<Fact>,
    tree: &Tree,
    low: u32,
) -> Result<List<Fact>, AllocError>
    ensures { IfOk result (λ more. (numbers : List ℕ) (bound : List (ℕ × ℕ)) (s : State) → AllHold s facts →
        low ≤ value numbers bound tree.now s.temps s.world.globals → AllHold s more) }
{
    match range_of(facts.as_slice(), tree) {
        Some(known) => lying(
            alloc,
            facts,
            tree,
            Some(Range {
                low,
                high: known.high,
            }),
        ),
        None => Ok(facts),
    }
}

// What is known where one tree is less than another, as numbers without signs.
fn less(alloc: Global, facts: List<Fact>, x: &Tree, y: &Tree) -> Result<List<Fact>, AllocError>
    ensures { IfOk result (λ more. (numbers : List ℕ) (bound : List (ℕ × ℕ)) (s : State) → AllHold s facts →
        value numbers bound x.now s.temps s.world.globals < value numbers bound y.now s.temps s.world.globals → AllHold s more) }
{
    let a = range_of(facts.as_slice(), x);
    let b = range_of(facts.as_slice(), y);
    let facts = lying(alloc, facts, x, below(b))?;
    match a {
        Some(a) if a.low < u32::MAX => at_least(alloc, facts, y, a.low + 1),
        _ => Ok(facts),
    }
}

// What is known where one tree is at most another, as numbers without signs.
fn at_most(alloc: Global, facts: List<Fact>, x: &Tree, y: &Tree) -> Result<List<Fact>, AllocError>
    ensures { IfOk result (λ more. (numbers : List ℕ) (bound : List (ℕ × ℕ)) (s : State) → AllHold s facts →
        value numbers bound x.now s.temps s.world.globals ≤ value numbers bound y.now s.temps s.world.globals → AllHold s more) }
{
    let a = range_of(facts.as_slice(), x);
    let b = range_of(facts.as_slice(), y);
    let facts = lying(alloc, facts, x, not_above(b))?;
    match a {
        Some(a) => at_least(alloc, facts, y, a.low),
        None => Ok(facts),
    }
}

// What is known where two trees are equal.
fn equal(alloc: Global, facts: List<Fact>, x: &Tree, y: &Tree) -> Result<List<Fact>, AllocError>
    ensures { IfOk result (λ more. (numbers : List ℕ) (bound : List (ℕ × ℕ)) (s : State) → AllHold s facts →
        value numbers bound x.now s.temps s.world.globals ≡ value numbers bound y.now s.temps s.world.globals → AllHold s more) }
{
    let a = range_of(facts.as_slice(), x);
    let b = range_of(facts.as_slice(), y);
    let facts = lying(alloc, facts, x, b)?;
    lying(alloc, facts, y, a)
}

// Whether a tree is known to be the same number with a sign and without.
fn is_unsigned(facts: &[Fact], tree: &Tree) -> bool
    ensures { result ≡ true → (numbers : List ℕ) (bound : List (ℕ × ℕ)) (s : State) → AllHold s facts.now → value numbers bound tree.now s.temps s.world.globals < 2147483648 }
{
    match range_of(facts, tree) {
        Some(known) => known.high <= HALF,
        None => false,
    }
}

// What is known where a comparison is true, or where it isn't.
#[tactic(auto, using(crate::proofs::Values::comparisons))]
fn compared(
    alloc: Global,
    facts: List<Fact>,
    operator: u8,
    x: &Tree,
    y: &Tree,
    truth: bool,
) -> Result<List<Fact>, AllocError>
    ensures { IfOk result (λ more. (numbers : List ℕ) (bound : List (ℕ × ℕ)) (s : State) → AllHold s facts →
        not (eqb (binary operator (value numbers bound x.now s.temps s.world.globals) (value numbers bound y.now s.temps s.world.globals)) 0) ≡ truth → AllHold s more) }
{
    let is_order = operator == LESS_UNSIGNED
        || (operator == LESS_SIGNED
            && is_unsigned(facts.as_slice(), x)
            && is_unsigned(facts.as_slice(), y));
    if is_order {
        if truth {
            less(alloc, facts, x, y)
        } else {
            at_most(alloc, facts, y, x)
        }
    } else if (operator == EQUAL && truth) || (operator == NOT_EQUAL && !truth) {
        equal(alloc, facts, x, y)
    } else {
        Ok(facts)
    }
}

/// What is known where a tree is true, or where it is 0.
#[tactic(auto, using(crate::proofs::Values::values))]
pub(crate) fn assumed(
    alloc: Global,
    facts: List<Fact>,
    tree: &Tree,
    truth: bool,
) -> Result<List<Fact>, AllocError>
    ensures { IfOk result (λ more. (numbers : List ℕ) (bound : List (ℕ × ℕ)) (s : State) → AllHold s facts →
        not (eqb (value numbers bound tree.now s.temps s.world.globals) 0) ≡ truth → AllHold s more) }
{
    match tree {
        Tree::Unary(operator, a) => if *operator == LOGICAL_NOT {
            assumed(alloc, facts, a.get(), !truth)
        } else {
            Ok(facts)
        },
        Tree::Temp(_) => if truth {
            at_least(alloc, facts, tree, 1)
        } else {
            lying(alloc, facts, tree, Some(up_to(0)))
        },
        Tree::Binary(operator, x, y) => compared(alloc, facts, *operator, x.get(), y.get(), truth),
        _ => Ok(facts),
    }
}
