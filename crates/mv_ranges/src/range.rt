//! Ranges of numbers, and what operators make of them.
ghost use Rattle.std.specs.Prelude.{ℕ, ◌≡◌, ◌≤◌, ◌<◌, ◌+◌, ◌-◌, ◌%◌, ◌^◌, true, bit_and};
ghost use Rattle.mv_num.specs.Words.{add, sub, mul, shl, shr_s, shr_u, narrow, div_u, rem_u};
ghost use Rattle.mv_ir.specs.Trees.{binary, divide};
ghost use Rattle.mv_ranges.specs.Ranges.{IsIn, IsWithin};

use mv_ir::operators::{
    ADD, MUL, QUOTIENT_SIGNED, QUOTIENT_UNSIGNED, REMAINDER_SIGNED, REMAINDER_UNSIGNED, SHIFT_LEFT,
    SHIFT_RIGHT_SIGNED, SHIFT_RIGHT_UNSIGNED, SUB,
};
use mv_num::kind::Kind;

/// The greatest number that is itself as a signed one.
pub(crate) const HALF: u32 = 0x7FFF_FFFF;

/// The numbers from one to another, both included.
#[derive(Clone, Copy, PartialEq, Eq, Debug, Drop)]
pub struct Range {
    pub low: u32,
    pub high: u32,
}

/// From 0 to a number.
pub(crate) fn up_to(high: u32) -> Range
    ensures { (v : ℕ) → v ≤ high → IsIn result v }
{
    Range { low: 0, high }
}

/// All numbers of two ranges, and those between them.
pub(crate) fn hull(a: Range, b: Range) -> Range
    ensures first { (v : ℕ) → IsIn a v → IsIn result v }
    ensures second { (v : ℕ) → IsIn b v → IsIn result v }
{
    Range {
        low: a.low.min(b.low),
        high: a.high.max(b.high),
    }
}

/// The numbers that two ranges have in common.
pub(crate) fn meet(a: Range, b: Range) -> Range
    ensures { (v : ℕ) → IsIn a v → IsIn b v → IsIn result v }
{
    Range {
        low: a.low.max(b.low),
        high: a.high.min(b.high),
    }
}

// The words that numbers between two others leave modulo 2 ^ 32, where these are words themselves.
fn words(low: u64, high: u64) -> Option<Range>
    ensures { (v : ℕ) → low ≤ v → v ≤ high → IsWithin result (v % 2 ^ 32) }
{
    if low <= high && high <= 0xFFFF_FFFF {
        Some(Range {
            low: low as u32,
            high: high as u32,
        })
    } else {
        None
    }
}

/// Sums. A number above `HALF` that is added is taken for a negative one.
#[tactic(auto, unfolding(mv_num::specs::Words::add))]
pub(crate) fn sums(a: Range, b: Range) -> Option<Range>
    ensures { (x y : ℕ) → IsIn a x → IsIn b y → IsWithin result (add x y) }
{
    if b.low == b.high && b.low > HALF {
        less(a, 0xFFFF_FFFF - b.low + 1)
    } else {
        words(
            u64::from(a.low) + u64::from(b.low),
            u64::from(a.high) + u64::from(b.high),
        )
    }
}

// A range with a number from 1 on taken off.
#[tactic(auto, unfolding(mv_num::specs::Words::add))]
fn less(a: Range, n: u32) -> Option<Range>
    requires { 1 ≤ n }
    ensures { (x : ℕ) → IsIn a x → IsWithin result (add x (2 ^ 32 - n)) }
{
    if a.low >= n && a.high >= n {
        Some(Range {
            low: a.low - n,
            high: a.high - n,
        })
    } else {
        None
    }
}

/// Differences.
#[tactic(auto, using(crate::proofs::Arithmetic::sub_plain))]
pub(crate) fn differences(a: Range, b: Range) -> Option<Range>
    ensures { (x y : ℕ) → IsIn a x → IsIn b y → IsWithin result (sub x y) }
{
    if a.low >= b.high && a.high >= b.low {
        Some(Range {
            low: a.low - b.high,
            high: a.high - b.low,
        })
    } else {
        None
    }
}

/// Products.
#[tactic(auto, using(crate::proofs::Arithmetic::mul_kept), unfolding(mv_num::specs::Words::mul))]
pub(crate) fn products(a: Range, b: Range) -> Option<Range>
    ensures { (x y : ℕ) → IsIn a x → IsIn b y → IsWithin result (mul x y) }
{
    words(
        u64::from(a.low) * u64::from(b.low),
        u64::from(a.high) * u64::from(b.high),
    )
}

/// What the bits have in common, where one side may be anything.
#[tactic(auto, using(std::proofs::lemmas::Nat::and_le_l, std::proofs::lemmas::Nat::and_le_r))]
pub(crate) fn common_bits(a: Option<Range>, b: Option<Range>) -> Option<Range>
    ensures { (x y : ℕ) → IsWithin a x → IsWithin b y → IsWithin result (bit_and x y) }
{
    match (a, b) {
        (Some(a), Some(b)) => Some(up_to(a.high.min(b.high))),
        (Some(a), None) => Some(up_to(a.high)),
        (None, Some(b)) => Some(up_to(b.high)),
        (None, None) => None,
    }
}

/// Shifts to the left by a number below 32.
#[tactic(auto, using(crate::proofs::Arithmetic::mul_kept), unfolding(mv_num::specs::Words::shl))]
pub(crate) fn shifted_left(a: Range, count: u32) -> Option<Range>
    requires { count < 32 }
    ensures { (x : ℕ) → IsIn a x → IsWithin result (shl x count) }
{
    let factor = 1u64 << count;
    words(u64::from(a.low) * factor, u64::from(a.high) * factor)
}

/// Shifts to the right by a number below 32, that bring zeros.
#[tactic(auto, using(crate::proofs::Arithmetic::shr_kept), unfolding(mv_num::specs::Words::shr_u))]
pub(crate) fn shifted_right(a: Range, count: u32) -> Range
    requires { count < 32 }
    ensures { (x : ℕ) → IsIn a x → IsIn result (shr_u x count) }
{
    Range {
        low: a.low >> count,
        high: a.high >> count,
    }
}

/// Shifts of numbers that are no greater than `HALF` to the right by a number below 32, that copy the sign.
#[tactic(auto, using(crate::proofs::Arithmetic::shr_s_plain))]
pub(crate) fn shifted_signed(a: Range, count: u32) -> Option<Range>
    requires { count < 32 }
    ensures { (x : ℕ) → IsIn a x → IsWithin result (shr_s x count) }
{
    if a.high <= HALF {
        Some(shifted_right(a, count))
    } else {
        None
    }
}

// What is converted to a type with values up to a number, 255 or 65,535.
fn lowered(a: Option<Range>, most: u32) -> Option<Range>
    ensures { (x : ℕ) → IsWithin a x → IsWithin result (x % (most + 1)) }
{
    match a {
        Some(a) if a.high <= most => Some(a),
        _ => Some(up_to(most)),
    }
}

/// Conversions.
#[tactic(auto, unfolding(mv_num::specs::Words::narrow))]
pub(crate) fn converted(kind: Kind, a: Option<Range>) -> Option<Range>
    ensures { (x : ℕ) → IsWithin a x → IsWithin result (narrow kind x) }
{
    match kind {
        Kind::Bool => Some(up_to(1)),
        Kind::UChar => lowered(a, 255),
        Kind::UShort => lowered(a, 65_535),
        Kind::SChar => None,
        Kind::Short => None,
        Kind::Int => a,
        Kind::UInt => a,
    }
}

// Quotients of numbers without signs by one from 1 on.
#[tactic(auto, using(crate::proofs::Arithmetic::div_le), unfolding(mv_num::specs::Words::div_u))]
fn quotients(a: Range, n: u32) -> Range
    requires { 1 ≤ n }
    ensures { (x : ℕ) → IsIn a x → IsIn result (div_u x n) }
{
    Range {
        low: a.low / n,
        high: a.high / n,
    }
}

// Remainders of numbers without signs by one from 1 on.
#[tactic(auto, unfolding(mv_num::specs::Words::rem_u))]
fn remainders(a: Option<Range>, n: u32) -> Range
    requires { 1 ≤ n }
    ensures { (x : ℕ) → IsWithin a x → IsIn result (rem_u x n) }
{
    match a {
        Some(a) if a.high < n => up_to(a.high),
        _ => up_to(n - 1),
    }
}

// Whether a range is known, and it and a number are no greater than `HALF`, so that signs don't count.
fn is_plain(a: Option<Range>, n: u32) -> bool
    ensures { result ≡ true → (x : ℕ) → IsWithin a x → (x < 2 ^ 31) × (n < 2 ^ 31) }
{
    match a {
        Some(a) => a.high <= HALF && n <= HALF,
        None => false,
    }
}

/// What a division, by its number, gives by a divisor from 1 on.
#[tactic(auto, unfolding(mv_ir::specs::Trees::divide))]
pub(crate) fn divided(operator: u8, a: Option<Range>, n: u32) -> Option<Range>
    requires { 1 ≤ n }
    ensures { (x : ℕ) → IsWithin a x → IsWithin result (divide operator x n) }
{
    match operator {
        QUOTIENT_UNSIGNED => of_quotient(a, n),
        REMAINDER_UNSIGNED => Some(remainders(a, n)),
        QUOTIENT_SIGNED if is_plain(a, n) => of_quotient(a, n),
        REMAINDER_SIGNED if is_plain(a, n) => Some(remainders(a, n)),
        _ => None,
    }
}

fn of_quotient(a: Option<Range>, n: u32) -> Option<Range>
    requires { 1 ≤ n }
    ensures { (x : ℕ) → IsWithin a x → IsWithin result (div_u x n) }
{
    match a {
        Some(a) => Some(quotients(a, n)),
        None => None,
    }
}

/// What an operator on two values, by its number, gives of two ranges.
#[tactic(auto, unfolding(mv_ir::specs::Trees::binary))]
pub(crate) fn operated(operator: u8, a: Range, b: Range) -> Option<Range>
    ensures { (x y : ℕ) → IsIn a x → IsIn b y → IsWithin result (binary operator x y) }
{
    match operator {
        ADD => sums(a, b),
        SUB => differences(a, b),
        MUL => products(a, b),
        _ if b.low == b.high && b.low < 32 => shifted(operator, a, b.low),
        _ => None,
    }
}

// What a shift by a number below 32 gives.
#[tactic(auto, unfolding(mv_ir::specs::Trees::binary))]
fn shifted(operator: u8, a: Range, count: u32) -> Option<Range>
    requires { count < 32 }
    ensures { (x : ℕ) → IsIn a x → IsWithin result (binary operator x count) }
{
    match operator {
        SHIFT_LEFT => shifted_left(a, count),
        SHIFT_RIGHT_SIGNED => shifted_signed(a, count),
        SHIFT_RIGHT_UNSIGNED => Some(shifted_right(a, count)),
        _ => None,
    }
}
