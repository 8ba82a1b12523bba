// A number for each temporary: a scan over the positions of a body.

ghost use Rattle.std.specs.Prelude.{ℕ, ◌≡◌, ◌<◌, ◌≤◌, [], ◌∷◌, ◌++◌, length, map, List, replicate, slice_index, slice_index_or, slice_set, EachIndex, IfOk, OnOk};
ghost use Rattle.mv_ir.specs.Live.{all_marks};
ghost use Rattle.mv_regalloc.specs.Scan.{Placed, scan};
ghost use Rattle.mv_regalloc.specs.Intervals.{given};
ghost use Rattle.mv_regalloc.specs.Spanned.{AreSpansOf};
ghost use Rattle.mv_regalloc.specs.Tracked.{Tracks, IsNumbered, end_of, interval_from, AreFirsts};

use crate::allot::allot;
use crate::ends::Ends;
use crate::table::Spans;
use mv_ir::body::Body;
use mv_num::list::List;
use std::alloc::{AllocError, Global};

/// The number of each temporary, and how many numbers there are.
#[derive(Drop)]
pub struct Numbering {
    pub numbers: List<u32>,
    pub used: u32,
}

// The parameters begin at the start, so each gets its own number.
fn number_params(
    body: &Body,
    spans: &Spans,
    ends: &mut Ends,
    numbers: &mut List<u32>,
) -> Result<(), AllocError>
    requires spans { AreSpansOf (all_marks body.now) body.now.temps spans.now }
    requires params { body.now.params ≤ body.now.temps }
    requires known { length numbers.old ≡ body.now.temps }
    ensures tracks { OnOk result (
        Tracks [] ends.old numbers.old →
        Tracks (given (all_marks body.now) body.now.params) ends.new numbers.new
        ) }
    ensures length { length numbers.new ≡ length numbers.old }
{
    for temp in 0..body.params {
        let end = spans.positions().saturating_sub(spans.end(temp));
        allot(ends, numbers, temp, 0, end)?;
    }
    Ok(())
}

// So many empty lists.
fn empty_lists(alloc: Global, count: usize) -> Result<List<List<u32>>, AllocError>
    ensures { IfOk result (λ lists. lists ≡ replicate count []) }
{
    let mut lists = List::new(alloc);
    for _ in 0..count {
        lists.push(List::new(alloc))?;
    }
    Ok(lists)
}

// Puts a temporary at the end of the list at a place.
fn push_at(
    alloc: Global,
    lists: &mut List<List<u32>>,
    place: usize,
    temp: u32,
) -> Result<(), AllocError>
    requires { place < length lists.old }
    ensures { OnOk result (lists.new ≡ slice_set lists.old place (slice_index_or lists.old place [] ++ temp ∷ [])) }
{
    let mut list = lists.set(place, List::new(alloc));
    list.push(temp)?;
    lists.set(place, list);
    Ok(())
}

// For each position the temporaries behind the parameters whose intervals begin there.
fn firsts(alloc: Global, body: &Body, spans: &Spans) -> Result<List<List<u32>>, AllocError>
    requires spans { AreSpansOf (all_marks body.now) body.now.temps spans.now }
    requires params { body.now.params ≤ body.now.temps }
    ensures { IfOk result (λ lists. AreFirsts body.now body.now.temps spans.now.positions lists) }
{
    let mut lists = empty_lists(alloc, spans.positions() as usize)?;
    for temp in body.params..body.temps {
        let begin = spans.begin(temp);
        if begin > 0 {
            let at = spans.positions().saturating_sub(begin);
            push_at(alloc, &mut lists, at as usize, temp)?;
        }
    }
    Ok(lists)
}

// Numbers for the intervals of temporaries that begin at a position.
fn number_at(
    temps: &[u32],
    spans: &Spans,
    at: u64,
    ends: &mut Ends,
    numbers: &mut List<u32>,
) -> Result<(), AllocError>
    requires known { EachIndex temps.now (λ k. slice_index temps.now k < length numbers.old) }
    ensures tracks { OnOk result (
        (done : List Placed) → EachIndex temps.now (λ k. at < end_of spans.now (slice_index temps.now k)) →
        Tracks done ends.old numbers.old →
        Tracks (scan done (map (interval_from spans.now at) temps.now)) ends.new numbers.new
        ) }
    ensures length { length numbers.new ≡ length numbers.old }
{
    for temp in temps {
        let end = spans.positions().saturating_sub(spans.end(*temp));
        allot(ends, numbers, *temp, at, end)?;
    }
    Ok(())
}

/// The parameters keep their numbers; the other temporaries, in the order of their first positions, get the lowest
/// number that is free.
pub fn number(alloc: Global, body: &Body, spans: &Spans) -> Result<Numbering, AllocError>
    requires spans { AreSpansOf (all_marks body.now) body.now.temps spans.now }
    requires params { body.now.params ≤ body.now.temps }
    ensures { IfOk result (λ numbering. IsNumbered body.now numbering) }
{
    let mut ends = Ends::new(alloc);
    let mut numbers = List::from_vec(vec![in alloc; 0; body.temps as usize]?);
    number_params(body, spans, &mut ends, &mut numbers)?;
    let lists = firsts(alloc, body, spans)?;
    let lists = lists.as_slice();
    for at in 0..lists.len() {
        number_at(
            lists[at].as_slice(),
            spans,
            at as u64,
            &mut ends,
            &mut numbers,
        )?;
    }
    if ends.len() > 0xFFFF_FFFF {
        return Err(AllocError);
    }
    let used = ends.len() as u32;
    Ok(Numbering { numbers, used })
}
