//! The bodies of functions, and their code.

ghost use Rattle.std.specs.Prelude.{◌≡◌, map, slice_get, All, IfErr, IfOk, IfSome, OnOk};
ghost use Rattle.mv_ast.specs.Counts.{is_attributed};
ghost use Rattle.mv_lower_spec.specs.Functions.{lower_function};
ghost use Rattle.mv_source_forms.specs.WellFormed.{IsWellFormed};
ghost use Rattle.mv_select.specs.Bodies.SelectedBodies.{HasWords};
ghost use Rattle.mv_select.specs.Selected.{OnFrame};
ghost use Rattle.mv_variants.specs.Bound.Shorts.{AreShortsOf, IsShortOf};
ghost use Rattle.mv_parts.specs.Codes.{AreGenerics, IsGeneric, IsLowered, HasCode, HaveCode, PassesFirstFrame, PassesFrame};

use mv_ast::program::Program;
use mv_ir::body::Body;
use mv_isa::labelled::Labelled;
use mv_lower_spec::shape::lowered_forms_are_right;
use mv_num::list::List;
use mv_select::bodies::code_has_words;
use mv_select::error::SelectError;
use mv_select::select;
use mv_variants::general::general;
use mv_variants::shorts::short_of;
use std::alloc::{AllocError, Global};

/// A short body of each function that has one and isn't attributed, in their order.
pub fn shorts_of(
    alloc: Global,
    program: &Program,
    lowered: &List<Body>,
) -> Result<List<Option<Body>>, AllocError>
    requires formed { IsWellFormed program.now }
    requires lowered { lowered.now ≡ map (lower_function program.now) program.now.functions }
    ensures { IfOk result (AreShortsOf program.now) }
{
    lowered_forms_are_right();
    let mut shorts = List::new(alloc);
    for (number, body) in lowered.as_slice().iter().enumerate() {
        shorts.push(own_short(alloc, program, number as u32, body)?)?;
    }
    Ok(shorts)
}

// A short body of the function with a number, given what it is lowered to.
fn own_short(
    alloc: Global,
    program: &Program,
    number: u32,
    body: &Body,
) -> Result<Option<Body>, AllocError>
    requires formed { IsWellFormed program.now }
    requires lowered { IsLowered program.now number body.now }
    ensures { IfOk result (λ short. IfSome short (IsShortOf program.now number)) }
{
    lowered_forms_are_right();
    if is_attributed(program, number) {
        Ok(None)
    } else {
        short_of(alloc, body)
    }
}

/// The body from which each function's code is made, in their order: what it is lowered to, made ready or not, where
/// temporaries that are never in use together share a place.
pub fn generics_of(
    alloc: Global,
    program: &Program,
    shorts: &[Option<Body>],
    lowered: &List<Body>,
) -> Result<List<Body>, AllocError>
    requires formed { IsWellFormed program.now }
    requires lowered { lowered.now ≡ map (lower_function program.now) program.now.functions }
    requires shorts { AreShortsOf program.now shorts.now }
    ensures { IfOk result (λ bodies. AreGenerics program.now bodies) }
{
    lowered_forms_are_right();
    let mut generics = List::new(alloc);
    for body in lowered.as_slice() {
        generics.push(general(alloc, shorts, body)?)?;
    }
    Ok(generics)
}

/// The code of each function, in their order. The first whose frame is too large is refused. The constants in the bodies then have 32 bits.
pub fn codes_of(
    alloc: Global,
    program: &Program,
    generics: &List<Body>,
) -> Result<List<Labelled>, SelectError>
    requires formed { IsWellFormed program.now }
    requires generics { AreGenerics program.now generics.now }
    ensures ok { IfOk result (λ codes. HaveCode program.now generics.now codes) }
    ensures words { OnOk result (All (λ b. HasWords b.code) generics.now) }
    ensures err { IfErr result (λ e. OnFrame e (PassesFirstFrame program.now)) }
{
    let mut codes = List::new(alloc);
    for (number, body) in generics.as_slice().iter().enumerate() {
        let code = code_of(alloc, program, number as u32, body)?;
        match codes.push(code) {
            Ok(()) => {}
            Err(_) => return Err(SelectError::Memory(AllocError)),
        }
    }
    Ok(codes)
}

// The code of the function with a number, given its body.
fn code_of(
    alloc: Global,
    program: &Program,
    number: u32,
    body: &Body,
) -> Result<Labelled, SelectError>
    requires formed { IsWellFormed program.now }
    requires generic { IsGeneric program.now number body.now }
    ensures ok { IfOk result (λ code. HasCode program.now number body.now code) }
    ensures words { OnOk result (HasWords body.now.code) }
    ensures err { IfErr result (λ e. OnFrame e (PassesFrame program.now number)) }
{
    lowered_forms_are_right();
    code_has_words(&body.code);
    select(alloc, body, is_attributed(program, number), number)
}

// Whether the function with a number is attributed.
fn is_attributed(program: &Program, number: u32) -> bool
    ensures { result ≡ is_attributed (slice_get program.now.functions number) }
{
    match program.functions.get(number as usize) {
        Some(function) => function.attributed,
        None => false,
    }
}
