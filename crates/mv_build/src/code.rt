//! The bodies and variants of a program's functions, and their code.

ghost use Rattle.std.specs.Prelude.{◌≡◌, map, length, IfErr, IfOk, OnOk};
ghost use Rattle.mv_lower_spec.specs.Functions.{lower_function};
ghost use Rattle.mv_variants.specs.Bound.Shorts.{AreShortsOf};
ghost use Rattle.mv_parts.specs.Codes.{FramesFit};
ghost use Rattle.mv_build.specs.Compiled.{AreVaried, IsCode, IsSound, OnRefusal, PassesVarying};
ghost use Rattle.mv_build.specs.Verdicts.{IsWithin, PassesAt, PassesLimit};

use crate::error::BuildError;
use crate::image::{DATA_LIMIT, SITE_LIMIT, too_many};
use mv_ast::program::Program;
use mv_ir::body::Body;
use mv_isa::labelled::Labelled;
use mv_link_data::data_words;
use mv_linker::PartFunction;
use mv_lower::lower_bodies;
use mv_num::list::List;
use mv_num::regions;
use mv_parts::{
    attributed_numbers, codes_of, generics_of, part_functions, shorts_of, size_of, tables_of,
};
use mv_variants::Variant;
use mv_variants::size::Size;
use std::alloc::Global;

/// How many words of text there may be.
const WORD_LIMIT: u64 = regions::TEXT_LIMIT as u64;

/// The code of a program, with what it is the code of.
pub(crate) struct Coded {
    /// The body of each function.
    pub(crate) generics: List<Body>,
    /// The variants of each attributed one.
    pub(crate) variants: List<List<Variant>>,
    /// The code of each function.
    pub(crate) functions: List<Labelled>,
    /// The attributed ones, with the code of their variants.
    pub(crate) attributed: List<PartFunction>,
}

/// The variants of attributed functions, with their code.
struct Varied {
    variants: List<List<Variant>>,
    attributed: List<PartFunction>,
}

/// The code of a program's functions and variants. The first whose frame is too large is refused, and then what passes a limit without any variant, before one is
/// made, or with the first of them, before another is.
pub(crate) fn code_of(alloc: Global, program: &Program) -> Result<Coded, BuildError>
    requires { IsSound program.now }
    ensures ok { IfOk result (λ c. IsCode program.now c) }
    ensures err { IfErr result (λ e. OnRefusal e (PassesLimit program.now)) }
{
    let lowered = lower_bodies(alloc, program)?;
    let shorts = shorts_of(alloc, program, &lowered)?;
    let generics = generics_of(alloc, program, shorts.as_slice(), &lowered)?;
    let functions = codes_of(alloc, program, &generics)?;
    let size = size_of(program, functions.as_slice());
    test_size(program, size)?;
    let Varied {
        variants,
        attributed,
    } = attributed_code(alloc, program, shorts.as_slice(), lowered.as_slice(), size)?;
    Ok(Coded {
        generics,
        variants,
        functions,
        attributed,
    })
}

/// Whether there is room for code of some size, and for the data.
fn test_size(program: &Program, size: Size) -> Result<(), BuildError>
    requires { IsSound program.now }
    ensures ok { OnOk result (IsWithin program.now size) }
    ensures err { IfErr result (λ e. OnRefusal e (PassesAt program.now size)) }
{
    if size.sites > SITE_LIMIT {
        return Err(too_many(14, size.sites));
    }
    let values = data_words(program);
    if values > DATA_LIMIT {
        return Err(too_many(13, values));
    }
    if size.words > WORD_LIMIT {
        return Err(too_many(9, size.words));
    }
    Ok(())
}

/// The variants of a program's attributed functions and their code, behind code of some size, given what each function is lowered to. They are made up to the first
/// that there is no room for.
fn attributed_code(
    alloc: Global,
    program: &Program,
    shorts: &[Option<Body>],
    lowered: &[Body],
    size: Size,
) -> Result<Varied, BuildError>
    requires sound { IsSound program.now }
    requires lowered { lowered.now ≡ map (lower_function program.now) program.now.functions }
    requires shorts { AreShortsOf program.now shorts.now }
    requires frames { FramesFit program.now (length program.now.functions) }
    requires within { IsWithin program.now size }
    ensures ok { IfOk result (λ v. AreVaried program.now size v) }
    ensures err { IfErr result (λ e. OnRefusal e (PassesVarying program.now size)) }
{
    let numbers = attributed_numbers(alloc, program)?;
    let variants = tables_of(alloc, program, numbers.as_slice(), shorts, lowered, size)?;
    let attributed = part_functions(alloc, program, numbers.as_slice(), variants.as_slice())?;
    Ok(Varied {
        variants,
        attributed,
    })
}
