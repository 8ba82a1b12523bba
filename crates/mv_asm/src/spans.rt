ghost use Rattle.std.specs.Prelude.{◌≡◌, ℕ, ◌<◌, ◌≤◌, ◌-◌, ◌^◌, IfOk, OnOk, All, List, map, length, sum, slice_index, true};
ghost use Rattle.mv_isa.specs.Code.{target_index, least_words, greatest_words, IsSizing, SizingFits};
ghost use Rattle.mv_asm.specs.Sizes.{AreOffsets, IsNoLonger};
ghost use Rattle.mv_asm.specs.Spans.{IsSpan, IsSpanOf, IsNarrowed, AreNarrowed};

use mv_isa::labelled::Line;
use std::alloc::{AllocError, Global};

/// A branch spans fewer words than this where it reaches, and so fewer branches.
const NEAR: usize = 1025;

/// A short branch, and the stretch of items from `start` to before `end` between it and its label.
#[derive(Clone, Copy, Debug, Drop)]
pub struct Span {
    item: usize,
    start: usize,
    end: usize,
    /// With how many words more in the stretch the branch doesn't reach: 0 where it doesn't already.
    room: usize,
}

/// Makes long the short branches that don't reach, and those that don't reach because these are long. Of the branches near
/// one that was made long each costs a step, so the time is some 2,000 steps for each branch at most.
pub fn spread(
    alloc: Global,
    lines: &[Line],
    targets: &[usize],
    offsets: &[usize],
    sizing: &mut [u8],
) -> Result<(), AllocError>
    requires targets { targets.now ≡ map (target_index lines.now) lines.now }
    requires sizes { IsSizing lines.now sizing.old }
    requires offsets { AreOffsets sizing.old offsets.now }
    ensures sizes { OnOk result (IsSizing lines.now sizing.new) }
    ensures needed { OnOk result ((other : List ℕ) → SizingFits lines.now other → IsNoLonger sizing.old other → IsNoLonger sizing.new other) }
    ensures no_less { OnOk result (sum sizing.old ≤ sum sizing.new) }
{
    let mut spans = spans(alloc, lines, targets, offsets, sizing)?;
    let mut waiting = without_room(alloc, &spans)?;
    // A branch waits once, when its room comes to 0.
    'work: for _ in 0..spans.len() {
        let Some(number) = waiting.pop() else {
            break;
        };
        let Span { item, room, .. } = spans[number];
        if room == 0 && sizing[item] == 1 {
            sizing[item] = 2;
            narrow_near(&mut spans, number, item, &mut waiting)?;
        }
    }
    Ok(())
}

/// The short branches in order.
fn spans(
    alloc: Global,
    lines: &[Line],
    targets: &[usize],
    offsets: &[usize],
    sizing: &[u8],
) -> Result<Vec<Span>, AllocError>
    requires targets { targets.now ≡ map (target_index lines.now) lines.now }
    requires sizes { IsSizing lines.now sizing.now }
    requires offsets { AreOffsets sizing.now offsets.now }
    ensures { IfOk result (λ spans. All (IsSpan lines.now sizing.now) spans.items) }
{
    let mut spans = Vec::new(alloc);
    for index in 0..lines.len() {
        if is_branch(lines[index]) && sizing[index] == 1 {
            let target = targets[index];
            spans.push(span_of(index, target, offsets[index], offsets[target]))?;
        }
    }
    Ok(spans)
}

fn is_branch(line: Line) -> bool
    ensures { result ≡ true → (least_words line ≡ 1) × (greatest_words line ≡ 2) }
{
    match line {
        Line::Branch(_, _, _, _) => true,
        _ => false,
    }
}

/// A branch at an offset in words, and its label at another.
fn span_of(item: usize, target: usize, at: usize, to: usize) -> Span
    requires at { at < 2 ^ 63 }
    requires to { to < 2 ^ 63 }
    ensures { IsSpanOf item target at to result }
{
    if item < target {
        Span {
            item,
            start: item,
            end: target,
            room: (at + 1024).saturating_sub(to),
        }
    } else {
        Span {
            item,
            start: target,
            end: item,
            room: (to + 1025).saturating_sub(at),
        }
    }
}

/// The numbers of the branches that don't reach.
fn without_room(alloc: Global, spans: &[Span]) -> Result<Vec<usize>, AllocError>
    ensures { IfOk result (λ waiting. All (λ number. number < length spans.now) waiting.items) }
{
    let mut waiting = Vec::new(alloc);
    for (number, span) in spans.iter().enumerate() {
        if span.room == 0 {
            waiting.push(number)?;
        }
    }
    Ok(waiting)
}

/// Takes a word from the room of the branches near one that was made long, and puts those to the waiting that don't reach
/// any more.
fn narrow_near(
    spans: &mut [Span],
    number: usize,
    item: usize,
    waiting: &mut Vec<usize>,
) -> Result<(), AllocError>
    requires number { number < length spans.old }
    requires waiting { All (λ number. number < length spans.old) waiting.old.items }
    ensures narrowed { OnOk result (AreNarrowed item spans.old spans.new) }
    ensures waiting { OnOk result (All (λ number. number < length spans.old) waiting.new.items) }
{
    let first = number.saturating_sub(NEAR);
    let end = spans.len().min(number.saturating_add(NEAR));
    for near in first..end {
        if narrow(&mut spans[near], item) {
            waiting.push(near)?;
        }
    }
    Ok(())
}

/// Takes a word from the room of a branch whose stretch has the item, and says whether it was the last.
fn narrow(span: &mut Span, item: usize) -> bool
    ensures { IsNarrowed item span.old span.new }
{
    if span.room == 0 || item < span.start || span.end <= item {
        return false;
    }
    span.room -= 1;
    span.room == 0
}
