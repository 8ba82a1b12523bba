// The first and the last position of each temporary, from the rows of all positions.

ghost use Rattle.std.specs.Prelude.{◌≡◌, map, reverse, slice_index, IfOk};
ghost use Rattle.mv_regalloc.specs.Shared.{bits_at};
ghost use Rattle.mv_regalloc.specs.Spanned.{AreCounts, AreRowSpans, behind_last, from_first};

use crate::parts::Parts;
use crate::told::{Firsts, item};
use mv_num::list::List;
use std::alloc::{AllocError, Global};
use std::marker::Model;

/// For each temporary how many positions there are from its first one on, or 0 where it has none, and how many there
/// are behind its last one; of so many positions.
#[derive(Drop)]
pub struct Spans {
    positions: u64,
    begins: List<u64>,
    ends: List<u64>,
}

impl Model for Spans {
    ghost use Rattle.mv_regalloc.specs.Spanned.{SpanTable};

    ghost Value = { SpanTable };

    ghost view = { λ s. record { positions = s.positions; begins = s.begins; ends = s.ends } };
}

// For each temporary how many positions there are behind its last one, from the last position on.
fn ends_of(
    alloc: Global,
    parts: &Parts,
    rows: &[u32],
    temps: usize,
) -> Result<List<u64>, AllocError>
    ensures { IfOk result (AreCounts behind_last (map (bits_at temps parts.now) (reverse rows.now)) temps) }
{
    let mut firsts = Firsts::new(alloc, temps, parts)?;
    for i in 0..rows.len() {
        firsts.tell(parts, rows[i], i as u64)?;
    }
    Ok(firsts.values)
}

// For each temporary how many positions there are from its first one on, from the first position on.
fn begins_of(
    alloc: Global,
    parts: &Parts,
    rows: &[u32],
    temps: usize,
) -> Result<List<u64>, AllocError>
    ensures { IfOk result (AreCounts from_first (map (bits_at temps parts.now) (reverse rows.now)) temps) }
{
    let mut firsts = Firsts::new(alloc, temps, parts)?;
    for done in 0..rows.len() {
        let i = rows.len() - 1 - done;
        firsts.tell(parts, rows[i], i as u64 + 1)?;
    }
    Ok(firsts.values)
}

impl Spans {
    /// Those over the rows of all positions, from the last position to the first one.
    pub fn of_rows(
        alloc: Global,
        parts: &Parts,
        rows: &[u32],
        temps: usize,
    ) -> Result<Spans, AllocError>
        ensures { IfOk result (AreRowSpans (map (bits_at temps parts.now) (reverse rows.now)) temps) }
    {
        let begins = begins_of(alloc, parts, rows, temps)?;
        let ends = ends_of(alloc, parts, rows, temps)?;
        Ok(Spans {
            positions: rows.len() as u64,
            begins,
            ends,
        })
    }

    /// How many positions there are.
    pub fn positions(&self) -> u64
        ensures { result ≡ self.now.positions }
    {
        self.positions
    }

    /// How many positions there are from the first one of a temporary on.
    pub fn begin(&self, temp: u32) -> u64
        ensures { result ≡ slice_index self.now.begins temp }
    {
        item(&self.begins, temp as usize)
    }

    /// How many positions there are behind the last one of a temporary.
    pub fn end(&self, temp: u32) -> u64
        ensures { result ≡ slice_index self.now.ends temp }
    {
        item(&self.ends, temp as usize)
    }
}
