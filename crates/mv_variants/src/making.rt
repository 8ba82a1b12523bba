//! A function's body under its assignments.

ghost use Rattle.std.specs.Prelude.{ℕ, ◌≡◌, ◌<◌, ◌≤◌, length, slice_get, slice_index_or, IfErr, IfOk};
ghost use Rattle.std.specs.List.{zip};
ghost use Rattle.mv_ir.specs.declared.body.Assignment.{Assignment};
ghost use Rattle.mv_ir.specs.Live.{IsWhole, most_intervals};
ghost use Rattle.mv_ir.specs.Measures.{deepest};
ghost use Rattle.mv_ir.specs.WellFormed.{IsWellFormed};
ghost use Rattle.mv_ir.specs.Shorts.{Shorts};
ghost use Rattle.mv_expand.specs.Straight.{AllShort};
ghost use Rattle.mv_variants.specs.Bound.Shorts.{IsReady};
ghost use Rattle.mv_variants.specs.Bound.Meant.{IsMadeUnder, IsWorked};
ghost use Rattle.mv_variants.specs.Fronts.{AreMeasured, PassesUnder};
ghost use Rattle.mv_variants.specs.Rows.{AreMergedUnder, IsRowUnder};
ghost use Rattle.mv_variants.specs.Sizes.{Fits, HasSmallFrame, IfNew, IsSelectable, IsWithBody, IsWithNew, OnLimit};

use crate::bound::made_bodies_are_variants;
use crate::error::VariantError;
use crate::general::fits_frame;
use crate::ready::ready;
use crate::size::{Size, fits, with_lines};
use mv_carry::carry;
use mv_clone::bind::bind;
use mv_fold::fold;
use mv_ir::body::{Assignment, Body};
use mv_merge::merge::{add, added_rows_are_merged};
use mv_merge::rows::{Bound, Variants};
use mv_num::list::List;
use mv_regalloc::rename::rename;
use mv_select::bodies::code_has_words;
use mv_select::error::SelectError;
use mv_select::select;
use std::alloc::{AllocError, Global};

/// The bodies that are kept of a function, with their rows.
pub(crate) struct Making {
    pub(crate) variants: Variants,
    /// How much code there is with theirs.
    pub(crate) size: Size,
}

/// The bodies under some assignments, with the row of each, behind code of some size. A body that equals one before it is dropped at once; and with the first
/// whose code there is no room for, no other is made.
pub(crate) fn merged_under(
    alloc: Global,
    shorts: &[Option<Body>],
    body: &Body,
    assignments: &[Assignment],
    size: Size,
) -> Result<Making, VariantError>
    requires formed { IsWellFormed body.now }
    requires whole { IsWhole body.now }
    requires short { AllShort shorts.now }
    requires shallow { deepest body.now.code ≤ 4 }
    requires frame { HasSmallFrame body.now }
    requires values { (k : ℕ) (d : Assignment) → k < length assignments.now → length body.now.switches ≡ length (slice_index_or assignments.now k d).values }
    requires switches { length body.now.switches ≤ 6 }
    requires few { length assignments.now ≤ 64 }
    requires room { Fits size }
    ensures merged { IfOk result (λ made. AreMergedUnder shorts.now body.now assignments.now made.variants) }
    ensures measured { IfOk result (λ made. AreMeasured shorts.now body.now size made.variants.bodies made.size) }
    ensures limit { IfErr result (λ e. OnLimit e (PassesUnder shorts.now body.now assignments.now size)) }
{
    added_rows_are_merged();
    made_bodies_are_variants();
    let most = least_temps(alloc, body)?;
    let ready = ready(alloc, shorts, body, false)?;
    let mut with = size;
    let mut variants = Variants {
        bodies: List::new(alloc),
        guards: List::new(alloc),
    };
    for assignment in assignments {
        let row = row_under(alloc, body, &ready, most, assignment)?;
        let before = variants.bodies.len();
        add(&mut variants, row)?;
        let grown = with_new(alloc, with, variants.bodies.as_slice(), before)?;
        if !fits(grown) {
            return Err(VariantError::Limit(grown));
        }
        with = grown;
    }
    Ok(Making {
        variants,
        size: with,
    })
}

// The size of code with that of the body at a place, if there is one.
fn with_new(alloc: Global, size: Size, bodies: &[Body], place: usize) -> Result<Size, AllocError>
    requires { IfNew IsSelectable (slice_get bodies.now place) }
    ensures { IfOk result (IsWithNew size (slice_get bodies.now place)) }
{
    match bodies.get(place) {
        Some(body) => with_body(alloc, size, body),
        None => Ok(size),
    }
}

// The size of code with that of a body more. Its frame is small enough, so selection lacks nothing but memory.
fn with_body(alloc: Global, size: Size, body: &Body) -> Result<Size, AllocError>
    requires { IsSelectable body.now }
    ensures { IfOk result (IsWithBody size body.now) }
{
    code_has_words(&body.code);
    match select(alloc, body, true, 0) {
        Ok(code) => Ok(with_lines(size, code.items.as_slice())),
        Err(SelectError::Memory(e)) => Err(e),
        Err(SelectError::Frame { .. }) => Err(AllocError),
    }
}

// So many temporaries the body needs at least. Where its frame is small enough in any case, 0 will do: what is made of it has as many words of arrays, so where
// that one's frame may be too large, it has more temporaries than the body.
fn least_temps(alloc: Global, body: &Body) -> Result<u32, AllocError>
    requires formed { IsWellFormed body.now }
    requires whole { IsWhole body.now }
    ensures { IfOk result (λ most. most ≤ most_intervals body.now) }
{
    if fits_frame(body) {
        Ok(0)
    } else {
        Ok(rename(alloc, body)?.temps)
    }
}

// The body under an assignment, beside it, whatever short bodies it was made ready with.
#[tactic(auto, using(crate::proofs::Worked::row_made))]
fn row_under(
    alloc: Global,
    body: &Body,
    ready: &Body,
    most: u32,
    assignment: &Assignment,
) -> Result<Bound, AllocError>
    requires formed { IsWellFormed body.now }
    requires whole { IsWhole body.now }
    requires ready_formed { IsWellFormed ready.now }
    requires ready_whole { IsWhole ready.now }
    requires same { ready.now.switches ≡ body.now.switches }
    requires most { most ≤ most_intervals body.now }
    requires values { length body.now.switches ≡ length assignment.now.values }
    ensures { IfOk result (λ row. (shorts : Shorts) → IsReady shorts body.now ready.now → IsRowUnder shorts body.now assignment.now row) }
{
    let made = made_under(alloc, body, ready, most, assignment)?;
    let values = assignment.values.copied(alloc)?;
    Ok(Bound {
        assignment: Assignment { values },
        body: made,
    })
}

// What is made of the body under an assignment, given the body made ready. The body as it was is taken where the frame of the other may be too large: where it
// would have more temporaries than a number of which the given body needs as many, and wouldn't fit in any case.
#[tactic(auto, using(crate::proofs::Worked::ready_values))]
fn made_under(
    alloc: Global,
    body: &Body,
    ready: &Body,
    most: u32,
    assignment: &Assignment,
) -> Result<Body, AllocError>
    requires formed { IsWellFormed body.now }
    requires whole { IsWhole body.now }
    requires ready_formed { IsWellFormed ready.now }
    requires ready_whole { IsWhole ready.now }
    requires same { ready.now.switches ≡ body.now.switches }
    requires most { most ≤ most_intervals body.now }
    requires values { length body.now.switches ≡ length assignment.now.values }
    ensures { IfOk result (λ made.
        (shorts : Shorts) → IsReady shorts body.now ready.now → IsMadeUnder shorts (zip body.now.switches assignment.now.values) body.now made
        ) }
{
    let made = worked(alloc, ready, assignment)?;
    if made.temps <= most || fits_frame(&made) {
        Ok(made)
    } else {
        worked(alloc, body, assignment)
    }
}

// A body under an assignment: bound, then with numbers carried through its temporaries, then folded, then renamed.
fn worked(alloc: Global, body: &Body, assignment: &Assignment) -> Result<Body, AllocError>
    requires formed { IsWellFormed body.now }
    requires whole { IsWhole body.now }
    requires values { length body.now.switches ≡ length assignment.now.values }
    ensures { IfOk result (IsWorked (zip body.now.switches assignment.now.values) body.now) }
{
    let bound = bind(alloc, body, assignment)?;
    let carried = carry(alloc, &bound)?;
    let folded = fold(alloc, &carried)?;
    rename(alloc, &folded)
}
