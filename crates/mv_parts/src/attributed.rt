//! Attributed functions, with their variants.

ghost use Rattle.std.specs.Prelude.{◌≡◌, ◌<◌, ◌≤◌, ◌^◌, [], ◌∷◌, ◌++◌, All, cond, length, map, true, IfErr, IfOk, OnOk};
ghost use Rattle.mv_lower_spec.specs.Functions.{lower_function};
ghost use Rattle.mv_source_forms.specs.WellFormed.{IsWellFormed};
ghost use Rattle.mv_ir.specs.Measures.{deepest};
ghost use Rattle.mv_ir.specs.WellFormed as ir;
ghost use Rattle.mv_select.specs.Selected.{FitsFrame};
ghost use Rattle.mv_parts.specs.Numbers as spec;
ghost use Rattle.mv_variants.specs.Bound.Shorts.{AreShortsOf};
ghost use Rattle.mv_variants.specs.Sizes.{Fits, OnLimit};
ghost use Rattle.mv_parts.specs.Codes.{FramesFit, IsCodeOf};
ghost use Rattle.mv_parts.specs.Fronts.{HaveRoom, PassesFront};
ghost use Rattle.mv_parts.specs.Parts.{AreTables, ArePartFunctions, ArePartVariants, FitsVariant, IsPartFunction, IsPartVariant};

use mv_ast::program::{Function, Program};
use mv_ir::body::Body;
use mv_isa::labelled::Labelled;
use mv_linker::{PartFunction, PartVariant};
use mv_lower_spec::shape::lowered_forms_are_right;
use mv_num::list::List;
use mv_num::text::Text;
use mv_select::bodies::code_has_words;
use mv_select::error::SelectError;
use mv_select::inline::inline_of;
use mv_select::select;
use mv_variants::bound::{made_bodies_are_variants, rows_lead_to_variants};
use mv_variants::size::Size;
use mv_variants::{Variant, VariantError, variants_of};
use std::alloc::{AllocError, Global};

/// The numbers of a program's attributed functions, ascending.
pub fn attributed_numbers(alloc: Global, program: &Program) -> Result<List<u32>, AllocError>
    requires { length program.now.functions < 2 ^ 32 }
    ensures { IfOk result (λ numbers. numbers ≡ spec.attributed_numbers program.now) }
{
    let mut numbers = List::new(alloc);
    let mut number = 0;
    for function in program.functions.as_slice() {
        push_number(&mut numbers, function, number)?;
        number += 1;
    }
    Ok(numbers)
}

// Adds the number of a function that is attributed.
#[tactic(auto, using(crate::proofs::Numbers::chosen, crate::proofs::Numbers::other))]
fn push_number(numbers: &mut List<u32>, function: &Function, number: u32) -> Result<(), AllocError>
    ensures { OnOk result (numbers.new ≡ cond function.now.attributed (numbers.old ++ number ∷ []) numbers.old) }
{
    if function.attributed {
        numbers.push(number)?;
    }
    Ok(())
}

/// The variants of each attributed function, behind code of some size, given the numbers of these functions, short bodies and the body that each function is
/// lowered to. `Limit` comes with the first variant whose code there is no room for.
pub fn tables_of(
    alloc: Global,
    program: &Program,
    numbers: &[u32],
    shorts: &[Option<Body>],
    lowered: &[Body],
    size: Size,
) -> Result<List<List<Variant>>, VariantError>
    requires formed { IsWellFormed program.now }
    requires numbers { numbers.now ≡ spec.attributed_numbers program.now }
    requires lowered { lowered.now ≡ map (lower_function program.now) program.now.functions }
    requires shorts { AreShortsOf program.now shorts.now }
    requires frames { FramesFit program.now (length program.now.functions) }
    requires room { Fits size }
    ensures tables { IfOk result (λ tables. AreTables program.now tables) }
    ensures room { IfOk result (λ tables. HaveRoom program.now size tables) }
    ensures limit { IfErr result (λ e. OnLimit e (PassesFront program.now size)) }
{
    let mut with = size;
    let mut tables = List::new(alloc);
    for number in numbers {
        let body = &lowered[*number as usize];
        let measured = variants_of(alloc, program, *number, shorts, body, with)?;
        with = measured.size;
        tables.push(measured.variants)?;
    }
    Ok(tables)
}

/// The attributed functions with the code of their variants. Each frame is small enough, as those of the functions themselves are.
pub fn part_functions(
    alloc: Global,
    program: &Program,
    numbers: &[u32],
    tables: &[List<Variant>],
) -> Result<List<PartFunction>, AllocError>
    requires formed { IsWellFormed program.now }
    requires numbers { numbers.now ≡ spec.attributed_numbers program.now }
    requires tables { AreTables program.now tables.now }
    requires frames { FramesFit program.now (length program.now.functions) }
    ensures { IfOk result (λ parts. ArePartFunctions program.now tables.now parts) }
{
    lowered_forms_are_right();
    made_bodies_are_variants();
    rows_lead_to_variants();
    let functions = program.functions.as_slice();
    let mut parts = List::new(alloc);
    for (place, number) in numbers.iter().enumerate() {
        let function = &functions[*number as usize];
        let variants = &tables[place];
        parts.push(part_function(alloc, function, *number, variants.as_slice())?)?;
    }
    Ok(parts)
}

// An attributed function with the code of its variants.
fn part_function(
    alloc: Global,
    function: &Function,
    number: u32,
    variants: &[Variant],
) -> Result<PartFunction, AllocError>
    requires { All FitsVariant variants.now }
    ensures { IfOk result (λ part. IsPartFunction function.now number variants.now part) }
{
    Ok(PartFunction {
        name: Text::new(alloc, function.name.bytes())?,
        function: number,
        switches: function.switches.copied(alloc)?,
        variants: part_variants(alloc, number, variants)?,
    })
}

// The variants of the function with a number, with their code.
fn part_variants(
    alloc: Global,
    number: u32,
    variants: &[Variant],
) -> Result<List<PartVariant>, AllocError>
    requires { All FitsVariant variants.now }
    ensures { IfOk result (λ parts. ArePartVariants variants.now parts) }
{
    let mut parts = List::new(alloc);
    for variant in variants {
        parts.push(part_variant(alloc, number, variant)?)?;
    }
    Ok(parts)
}

// A variant of the function with a number, with its code.
fn part_variant(alloc: Global, number: u32, variant: &Variant) -> Result<PartVariant, AllocError>
    requires { FitsVariant variant.now }
    ensures { IfOk result (IsPartVariant variant.now) }
{
    let code = code_of(alloc, number, &variant.body)?;
    let guards = variant.guards.copied(alloc)?;
    Ok(PartVariant {
        code,
        inline: inline_of(&variant.body),
        guards,
    })
}

// The code of a body whose frame is small enough, so that selection lacks nothing but memory.
fn code_of(alloc: Global, number: u32, body: &Body) -> Result<Labelled, AllocError>
    requires formed { ir.IsWellFormed body.now }
    requires shallow { deepest body.now.code ≤ 4 }
    requires frame { FitsFrame body.now }
    ensures { IfOk result (IsCodeOf true body.now) }
{
    code_has_words(&body.code);
    match select(alloc, body, true, number) {
        Ok(code) => Ok(code),
        Err(SelectError::Memory(e)) => Err(e),
        Err(SelectError::Frame { .. }) => Err(AllocError),
    }
}
