//! The variants of an attributed function: its body, made ready, under each assignment of its switches, with numbers carried, folded, renamed, and equal ones as
//! one. A body is made ready by short bodies in place of calls, by tidying it, and by promises of indices that are known to be below a number.
//!
//! What they are is said by `AreVariants` (`specs/Variants.antt`) in the words of `mv_variants::bound`, whose laws say what follows: that each means what the
//! function means under its values and reads none of its switches, and which rows lead to it.
//!
//! - `variants_of`: of a function and what it is lowered to, the body, made ready once for all, under each assignment of its switches: bound,
//!   with numbers carried, folded and with its temporaries renamed, and equal bodies as one, each with the guard rows that lead to it
//!   (`AreVariantsOf`). By `mv_variants::bound` each means what the function means under its values, and reads none of its
//!   switches. They are made one by one, and a body that equals one before it is dropped at once. `Limit` comes with the first
//!   whose code, each branch taken for one word, there is no room for behind that of all before (`PassesWithin`), with how much
//!   code there is then.
//! - `general`: of a body whose switches aren't bound, the one of which the function's own code is made (`IsGeneral`): made ready where that may be, with the
//!   arms of a `switch` reached by one jump, and with its temporaries renamed.
//! - `short_of`: of what a function is lowered to, a body that can stand in place of a call of it, where one is found (`IsShortened`).
//! - `Size`: how much code there is, and whether an image has room for it (`with_lines`, `fits`).
//!
//! Below this, in a module with its own specifications and header:
//!
//! - `bound`: what holds of bodies under values of their switches: which of them the rows of a table lead to, what they mean and name, and how many
//!   slots their code has (`rows_lead_to_variants`, `made_bodies_are_variants`, `passes_name_no_more`, `variants_can_be_selected`, `slots_are_counted`).
#![tactic(auto)]

ghost use Rattle.std.specs.Prelude.{◌≡◌, true, slice_get, IfErr, IfOk};
ghost use Rattle.mv_ast.specs.Counts.{is_attributed};
ghost use Rattle.mv_source_forms.specs.WellFormed.{IsWellFormed};
ghost use Rattle.mv_variants.specs.Bound.Shorts.{AreShortsOf};
ghost use Rattle.mv_variants.specs.Fronts.{AreMeasured, PassesWithinOf};
ghost use Rattle.mv_variants.specs.Sizes.{Fits, HasSmallFrame, OnLimit};
ghost use Rattle.mv_variants.specs.Variants.{IsLoweredFrom, AreVariantsOf, bodies_of};

pub mod bound;
mod domain;
mod error;
pub mod general;
mod grouping;
mod making;
mod ready;
pub mod shorts;
pub mod size;
mod variant;
mod words;

use crate::domain::domains_of;
use crate::grouping::grouped;
use crate::making::{Making, merged_under};
use crate::size::Size;
pub use domain::switch_kind;
pub use error::VariantError;
use mv_ast::program::Program;
use mv_clone::assignments::assignments;
use mv_ir::body::Body;
use mv_lower_spec::shape::lowered_forms_are_right;
use mv_merge::merge::added_rows_are_merged;
use std::alloc::Global;
pub use variant::{Measured, Variant};

/// The variants of the attributed function with a number, given the body that it is lowered to and short bodies of functions, behind code of some size. No two bodies are equal: each is folded
/// and renamed before it is compared. `Limit` comes with the first whose code there is no room for.
pub fn variants_of(
    alloc: Global,
    program: &Program,
    function: u32,
    shorts: &[Option<Body>],
    body: &Body,
    size: Size,
) -> Result<Measured, VariantError>
    requires formed { IsWellFormed program.now }
    requires attributed { is_attributed (slice_get program.now.functions function) ≡ true }
    requires shorts { AreShortsOf program.now shorts.now }
    requires lowered { IsLoweredFrom program.now function body.now }
    requires frame { HasSmallFrame body.now }
    requires room { Fits size }
    ensures variants { IfOk result (λ m. AreVariantsOf program.now function m.variants) }
    ensures measured { IfOk result (λ m. AreMeasured shorts.now body.now size (bodies_of m.variants) m.size) }
    ensures limit { IfErr result (λ e. OnLimit e (PassesWithinOf program.now function size)) }
{
    lowered_forms_are_right();
    added_rows_are_merged();
    // The values of the domains are words, as the clause says.
    let _domains = domains_of(alloc, program, function)?;
    let all = assignments(alloc, program, function)?;
    let Making {
        variants: kept,
        size: with,
    } = merged_under(alloc, shorts, body, all.as_slice(), size)?;
    let variants = grouped(alloc, kept)?;
    Ok(Measured {
        variants,
        size: with,
    })
}
