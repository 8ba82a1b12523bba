//! When guard rows hold of values.

ghost use Rattle.std.specs.Prelude.{◌≡◌, ◌≤◌, ◌<◌, ◌+◌, ◌^◌, length};
ghost use Rattle.std.specs.List.{list_any};
ghost use Rattle.mv_descriptors.specs.Guards.{is_between, holds, fitting};

use crate::order::is_at_most;
use crate::rows::{GuardRow, VariantRow};

/// Whether a value lies between two others.
fn is_between(kind: u32, low: u32, high: u32, value: u32) -> bool
    ensures { result ≡ is_between kind low high value }
{
    is_at_most(kind, low, value) && is_at_most(kind, value, high)
}

/// Whether a row holds of the values of switches with kinds of these numbers.
#[tactic(auto, unfolding(crate::specs::Guards::holds))]
pub fn holds(kinds: &[u32], values: &[u32], row: &GuardRow) -> bool
    requires kinds { length kinds.now ≤ 6 }
    requires values { length kinds.now ≤ length values.now }
    ensures { result ≡ holds kinds.now values.now row.now }
{
    for i in 0..kinds.len() {
        if !is_between(kinds[i], row.low[i], row.high[i], values[i]) {
            return false;
        }
    }
    true
}

/// Whether one of some rows holds.
fn one_holds(kinds: &[u32], values: &[u32], rows: &[GuardRow]) -> bool
    requires kinds { length kinds.now ≤ 6 }
    requires values { length kinds.now ≤ length values.now }
    ensures { result ≡ list_any (holds kinds.now values.now) rows.now }
{
    for row in rows {
        if holds(kinds, values, row) {
            return true;
        }
    }
    false
}

/// The variant that fits the values of switches with kinds of these numbers, and none where no row
/// holds of them. The variants are counted from the given number on, and the guard rows are theirs,
/// one after the other.
pub fn fitting(
    kinds: &[u32],
    values: &[u32],
    first: usize,
    variants: &[VariantRow],
    rows: &[GuardRow],
) -> Option<usize>
    requires kinds { length kinds.now ≤ 6 }
    requires values { length kinds.now ≤ length values.now }
    requires count { first + length variants.now < 2 ^ 32 }
    ensures { result ≡ fitting (holds kinds.now values.now) first variants.now rows.now }
{
    let mut at = 0;
    for (i, variant) in variants.iter().enumerate() {
        let end = rows.len().min(at + variant.guards as usize);
        if one_holds(kinds, values, &rows[at..end]) {
            return Some(first + i);
        }
        at = end;
    }
    None
}
