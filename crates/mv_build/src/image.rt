//! The image of a program's code.

ghost use Rattle.std.specs.Prelude.{◌≡◌, IfErr, IfOk, OnOk};
ghost use Rattle.mv_front.specs.Refusals.{counted};
ghost use Rattle.mv_linker.specs.Linked.{AreParts};
ghost use Rattle.mv_linker.specs.Tables.{FitTables};
ghost use Rattle.mv_parts.specs.Switches.{HasSwitches};
ghost use Rattle.mv_build.specs.Compiled.{IsLinkedOf, IsLinkedTo, IsLinkRefusal, IsSound, IsWithinLimits, OnRefusal, parts_of, without_data};
ghost use Rattle.mv_build.specs.Verdicts.{IsCoded, PassesWith};
ghost use Rattle.mv_build.specs.declared.error.BuildError.TheVariants.{Refused};

use crate::error::BuildError;
use mv_ast::program::Program;
use mv_front::Refusal;
use mv_image::Image;
use mv_isa::labelled::Labelled;
use mv_link_data::{data_words, first_data};
use mv_linker::{PartFunction, Parts, link};
use mv_num::list::List;
use mv_num::{limits, regions};
use mv_parts::{labels_fit, part_pointers, part_switches, part_targets, parts_law, site_count};
use std::alloc::{AllocError, Global};

/// How many sites there may be.
pub(crate) const SITE_LIMIT: u64 = limits::SITE_LIMIT as u64;
/// How many words of data there may be.
pub(crate) const DATA_LIMIT: u64 = regions::DATA_LIMIT as u64;

/// The image of a program with this code, or the limit that it passes: that of sites, of data, or of text, in this order. The count is that of this code.
pub(crate) fn image_of(
    alloc: Global,
    program: &Program,
    functions: List<Labelled>,
    attributed: List<PartFunction>,
) -> Result<Image, BuildError>
    requires sound { IsSound program.now }
    requires coded { IsCoded program.now (parts_of program.now functions attributed) }
    ensures ok { IfOk result (IsLinkedTo program.now (parts_of program.now functions attributed)) }
    ensures err { IfErr result (λ e. OnRefusal e (PassesWith program.now (parts_of program.now functions attributed))) }
{
    parts_law();
    let mut parts = parts_without_data(alloc, program, functions, attributed)?;
    test_limits(program, &parts)?;
    parts.globals = first_data(alloc, program)?;
    linked(alloc, &parts)
}

/// What is linked of a program with this code, but for its data.
fn parts_without_data(
    alloc: Global,
    program: &Program,
    functions: List<Labelled>,
    attributed: List<PartFunction>,
) -> Result<Parts, AllocError>
    requires { HasSwitches program.now }
    ensures { IfOk result (λ parts. parts ≡ without_data (parts_of program.now functions attributed)) }
{
    Ok(Parts {
        functions,
        main: program.main,
        globals: List::new(alloc),
        switches: part_switches(alloc, program)?,
        attributed,
        pointers: part_pointers(alloc, program)?,
        targets: part_targets(alloc, program)?,
    })
}

/// Whether a program's code has few enough sites, and its data few enough words. There are numbers for all labels, or memory is wanting.
fn test_limits(program: &Program, parts: &Parts) -> Result<(), BuildError>
    requires { IsSound program.now }
    ensures ok { OnOk result (IsWithinLimits program.now parts.now) }
    ensures err { IfErr result (λ e. OnRefusal e (PassesWith program.now parts.now)) }
{
    let sites = site_count(parts);
    if sites > SITE_LIMIT {
        return Err(too_many(14, sites));
    }
    let words = data_words(program);
    if words > DATA_LIMIT {
        return Err(too_many(13, words));
    }
    if !labels_fit(parts) {
        return Err(BuildError::Memory(AllocError));
    }
    Ok(())
}

/// The refusal of a count that is above the limit of its code.
pub(crate) fn too_many(code: u8, count: u64) -> BuildError
    ensures { result ≡ Refused (counted code 0 count) }
{
    BuildError::Refused(Refusal::counted(code, 0, count))
}

/// The image that is linked of some parts.
fn linked(alloc: Global, parts: &Parts) -> Result<Image, BuildError>
    requires parts { AreParts parts.now }
    requires tables { FitTables parts.now }
    ensures ok { IfOk result (IsLinkedOf parts.now) }
    ensures err { IfErr result (λ e. OnRefusal e (IsLinkRefusal parts.now)) }
{
    let image = link(alloc, parts)?;
    Ok(image)
}
