//! The compiler: from a source to the image of its program.
//!
//! - `build(alloc, text)`: a source that is a program by `mv_front`'s definition is answered with that program and an
//!   image (`IsBuiltFrom`). The image is linked of the code of bodies, of the first words of the globals, and of tables
//!   (`IsImageOf`): each function's body in `generics` is what it is lowered to, made ready and renamed, and means
//!   what the function means at no greater cost; `variants` has for each attributed function its variants, and from each
//!   assignment of its switches the tables lead to the one that means what the function means under it; its code stands
//!   in the image, with its two inline words where its body has one of the five shapes. No two variants of a function are
//!   equal, and the sites are exactly the slots. The image's run does what the program means (`BehavesAlways`), in each
//!   hart, on each input of bytes, whatever its polls take that fits, as the operator's actions in hart 0, and whatever
//!   the fetches pick, also while commits, reverts and polls rewrite its text. No instruction in a variant's words, call
//!   sites among them, loads a switch of its function, and none at a call site any switch (`LoadsOpenly`). The text of its
//!   run's bindings differs from the image's in as many words as these bindings owe by the source, and each has its line
//!   (`ShowsBindings`).
//! - Each other answer has its cause, and each cause its answer unless memory is wanting: refusals 1 to 7 are those of
//!   `mv_front`; 8 names the first function whose frame is above 2,032 bytes and its bytes, then 14 the sites above 16,384,
//!   those of pointer switches counted twice, then 13 the words of data above 262,144, then 9 the words of text above
//!   131,072. These three are first of the code of the functions alone, each branch taken for one word; then of that and
//!   the variants, of which none is made behind the first with which a limit is passed, so that the count is of those up to
//!   it; and else of all code, which is linked where it is within the limits. A program that passes none has an image.
//! - `compiled`: the same from a well-formed program, as `front` gives each.
//! - The codes and counts of small sources are rows of `mv_test_top`.
#![tactic(auto)]

ghost use Rattle.std.specs.Prelude.{IfErr, IfOk};
ghost use Rattle.mv_ast.specs.declared.program.Program.{Program};
ghost use Rattle.mv_front.specs.declared.refusal.Refusal.{Refusal};
ghost use Rattle.mv_front.specs.Verdicts.{IsProgram, IsRefused};
ghost use Rattle.mv_source_facts.specs.Facts.{HasTableFacts};
ghost use Rattle.mv_source_forms.specs.WellFormed.{IsWellFormed};
ghost use Rattle.mv_build.specs.Answers as answers;
ghost use Rattle.mv_build.specs.Compiled.{IsCompiled, OnRefusal};
ghost use Rattle.mv_build.specs.Verdicts as spec;

mod built;
mod code;
mod error;
mod image;

use crate::code::{Coded, code_of};
use crate::image::image_of;
pub use built::Built;
pub use error::BuildError;
use mv_accepts_programs::facts::programs_of_texts_have_table_facts;
use mv_accepts_programs::programs_of_texts_are_well_formed;
use mv_ast::program::Program;
use mv_count_words::images_show_bindings;
use mv_front::{front, one_verdict};
use mv_parts::parts_law;
use mv_refine_images::built_programs_behave;
use mv_refine_images::tables::{images_have_tables, rows_lead_on};
use std::alloc::Global;

/// The program of a source and its image, or its one refusal.
///
/// The codes are tested in this order: 1 to 7 as `front` of `mv_front` tests them; 8, with the function's number as detail and the bytes that it needs, for
/// the first frame above 2,032 bytes; 14 for more than 16,384 sites, those of pointer switches counted twice; 13 for more than 262,144 words of data; 9 for
/// more than 131,072 words of text, each with their number. For the last three the code of the functions is tested first, with each branch as one word; then
/// that with each variant more, as far as it fits; and at last all of it, with its branches as they are.
pub fn build(alloc: Global, text: &[u8]) -> Result<Built, BuildError>
    // Each answer has its cause.
    ensures built { IfOk result (λ b. spec.IsBuiltFrom text.now b) }
    ensures refused { IfErr result (λ e. answers.IsCause text.now e) }
    // And each cause has its answer, unless memory is wanting.
    ensures all_refusals { (r : Refusal) → IsRefused text.now r → answers.HasRefusal result r }
    ensures all_accepted { (p : Program) → IsProgram text.now p → answers.HasVerdict result p }
{
    one_verdict();
    verdict(alloc, text)
}

/// The program and its image, or the refusal.
fn verdict(alloc: Global, text: &[u8]) -> Result<Built, BuildError>
    ensures ok { IfOk result (λ b. spec.IsBuiltFrom text.now b) }
    ensures err { IfErr result (λ e. answers.IsCause text.now e) }
{
    let program = front(alloc, text)?;
    programs_of_texts_are_well_formed();
    programs_of_texts_have_table_facts();
    compiled(alloc, program)
}

/// A program with its image, or why it has none, as `build` tests it.
pub fn compiled(alloc: Global, program: Program) -> Result<Built, BuildError>
    requires formed { IsWellFormed program }
    requires facts { HasTableFacts program }
    ensures ok { IfOk result (λ b. IsCompiled program b) }
    ensures err { IfErr result (λ e. OnRefusal e (spec.PassesLimit program)) }
{
    parts_law();
    rows_lead_on();
    images_have_tables();
    images_show_bindings();
    built_programs_behave();
    let Coded {
        generics,
        variants,
        functions,
        attributed,
    } = code_of(alloc, &program)?;
    let image = image_of(alloc, &program, functions, attributed)?;
    Ok(Built {
        program,
        image,
        generics,
        variants,
    })
}
