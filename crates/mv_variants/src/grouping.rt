//! Variants with the rows that lead to each.

ghost use Rattle.std.specs.Prelude.{◌≡◌, [], ◌∷◌, ◌++◌, cond, eqb, IfOk, OnOk};
ghost use Rattle.mv_variants.specs.Bound.Rows.{rows_of};
ghost use Rattle.mv_variants.specs.Variants.{AreGrouped, AreGroupedFrom};

use crate::variant::Variant;
use mv_descriptors::GuardRow;
use mv_ir::body::Body;
use mv_merge::rows::{Guarded, Variants};
use mv_num::list::List;
use std::alloc::{AllocError, Global};

/// Each body with the rows that lead to it.
pub(crate) fn grouped(alloc: Global, merged: Variants) -> Result<List<Variant>, AllocError>
    ensures { IfOk result (λ variants. AreGrouped merged variants) }
{
    let Variants { bodies, guards } = merged;
    let variants = with_guards(alloc, guards.as_slice(), bodies.into_vec())?;
    Ok(variants)
}

// Bodies that stand at the first places, each with the rows that lead there.
fn with_guards(
    alloc: Global,
    guards: &[Guarded],
    bodies: Vec<Body>,
) -> Result<List<Variant>, AllocError>
    ensures { IfOk result (AreGroupedFrom guards.now bodies.items) }
{
    let mut variants = List::new(alloc);
    for body in bodies {
        let rows = guards_of(alloc, guards, variants.len())?;
        variants.push(Variant { body, guards: rows })?;
    }
    Ok(variants)
}

// The rows that lead to the body at a place.
fn guards_of(alloc: Global, guards: &[Guarded], place: usize) -> Result<List<GuardRow>, AllocError>
    ensures { IfOk result (λ rows. rows ≡ rows_of guards.now place) }
{
    let mut rows = List::new(alloc);
    for guard in guards {
        push_led(&mut rows, *guard, place)?;
    }
    Ok(rows)
}

// Adds a row that leads to the body at a place.
#[tactic(auto, using(crate::proofs::Grouped::chosen, crate::proofs::Grouped::other))]
fn push_led(rows: &mut List<GuardRow>, guard: Guarded, place: usize) -> Result<(), AllocError>
    ensures { OnOk result (rows.new ≡ cond (eqb guard.body place) (rows.old ++ guard.row ∷ []) rows.old) }
{
    if guard.body as usize == place {
        rows.push(guard.row)?;
    }
    Ok(())
}
