ghost use Rattle.std.specs.Prelude.{◌≡◌, ◌<◌, IfOk, MatchResult, All, length, map, slice_index, nat_lt, if◌then◌else◌};
ghost use Rattle.mv_asm.specs.Outcome.{ArePlaced};
ghost use Rattle.mv_isa.specs.Code.{text_start};
ghost use Rattle.mv_linker.specs.Linked.{AreParts, IsDatum, IsJoined};
ghost use Rattle.mv_linker.specs.Tables.{FitTables};
ghost use Rattle.mv_linker.specs.Outcome.{datum_word, HasFewSites, WithinLimit, IsLinked, IsRefusal};

use crate::error::LinkError;
use crate::joined::{Joined, join_parts};
use crate::parts::{Datum, Parts};
use crate::rows::{
    function_rows, guard_rows, names, pointer_rows, switch_rows, target_rows, variant_rows,
};
use crate::sites::{point_rows, site_rows, site_weight};
use mv_asm::error::AsmError;
use mv_asm::{Placed, place};
use mv_descriptors::PointRow;
use mv_image::Image;
use mv_image::facts::format_law;
use mv_num::limits::SITE_LIMIT;
use mv_num::list::List;
use mv_num::regions::{DATA_LIMIT, TEXT_START};
use std::alloc::{AllocError, Global};

/// Which item of the joined code the stub of calls through pointer switches begins with, where there is one.
const CHECK_ITEM: usize = 38;

/// The image of parts. A run of it begins at a stub that calls `main`, with an empty stack and all calls left, and exits
/// with its result. Its tables say what a commit may patch: the entries of the attributed functions, and as sites all slots.
///
/// `Sites` comes exactly where there are more than 16,384 slots, one of four words counted twice, else `DataLimit` exactly where there are more than 262,144
/// words of data, and else `TextLimit` exactly where the words of text, with as many short branches as can be, pass its end.
pub fn link(alloc: Global, parts: &Parts) -> Result<Image, LinkError>
    requires parts { AreParts parts.now }
    requires tables { FitTables parts.now }
    ensures { MatchResult result (IsLinked parts.now) (IsRefusal parts.now) }
{
    let joined = join_parts(alloc, parts).map_err(LinkError::Memory)?;
    let sites = site_weight(joined.code.items.as_slice());
    if sites > SITE_LIMIT {
        return Err(LinkError::Sites(sites as u64));
    }
    let words = parts.globals.len();
    if words > DATA_LIMIT {
        return Err(LinkError::DataLimit(words as u64));
    }
    assembled(alloc, parts, &joined)
}

/// The image of parts whose code is joined.
fn assembled(alloc: Global, parts: &Parts, joined: &Joined) -> Result<Image, LinkError>
    requires parts { AreParts parts.now }
    requires tables { FitTables parts.now }
    requires joined { IsJoined parts.now joined.now }
    requires sites { HasFewSites parts.now }
    requires data { WithinLimit parts.now }
    ensures { MatchResult result (IsLinked parts.now) (IsRefusal parts.now) }
{
    let placed = match place(alloc, &joined.code, TEXT_START) {
        Ok(placed) => placed,
        Err(AsmError::TextLimit(count)) => return Err(LinkError::TextLimit(count)),
        Err(AsmError::Memory(e)) => return Err(LinkError::Memory(e)),
    };
    tabled(alloc, parts, joined, placed).map_err(LinkError::Memory)
}

/// The image of parts whose code is placed.
fn tabled(
    alloc: Global,
    parts: &Parts,
    joined: &Joined,
    placed: Placed,
) -> Result<Image, AllocError>
    requires parts { AreParts parts.now }
    requires tables { FitTables parts.now }
    requires joined { IsJoined parts.now joined.now }
    requires sites { HasFewSites parts.now }
    requires data { WithinLimit parts.now }
    requires placed { ArePlaced text_start joined.now.code.items placed.words placed.addresses }
    ensures { IfOk result (IsLinked parts.now) }
{
    format_law();
    let addresses = placed.addresses.as_slice();
    let starts = starts(alloc, joined.entries.as_slice(), addresses)?;
    let starts = starts.as_slice();
    let attributed = parts.attributed.as_slice();
    let globals = data(alloc, parts.globals.as_slice(), starts)?;
    let switches = switch_rows(alloc, parts.switches.as_slice())?;
    let functions = function_rows(alloc, attributed, starts)?;
    let variants = variant_rows(alloc, attributed, starts, parts.functions.len())?;
    let guards = guard_rows(alloc, attributed)?;
    let sites = site_rows(alloc, attributed, joined.code.items.as_slice(), addresses)?;
    let pointers = parts.pointers.as_slice();
    let points = point_rows(alloc, pointers, joined.code.items.as_slice(), addresses)?;
    let pointers = pointer_rows(alloc, pointers)?;
    let targets = target_rows(alloc, parts.targets.as_slice(), starts)?;
    let check = check_at(&points, addresses);
    let names = names(alloc, parts)?;
    Ok(Image::of_parts(
        2,
        TEXT_START,
        placed.words,
        globals,
        switches,
        functions,
        variants,
        guards,
        sites,
        pointers,
        points,
        targets,
        check,
        names,
    ))
}

/// The address of the stub of calls through pointer switches, given that of each item; and 0 where there is no such call.
fn check_at(points: &List<PointRow>, addresses: &[u32]) -> u32
    requires { 0 < length points.now → CHECK_ITEM < length addresses.now }
    ensures { result ≡ (if nat_lt 0 (length points.now) then slice_index addresses.now CHECK_ITEM else 0) }
{
    if points.len() == 0 {
        0
    } else {
        addresses[CHECK_ITEM]
    }
}

/// The address at which each code begins, given at which item, and the address of each item.
fn starts(alloc: Global, entries: &[usize], addresses: &[u32]) -> Result<List<u32>, AllocError>
    requires { All (λ entry. entry < length addresses.now) entries.now }
    ensures { IfOk result (λ starts. starts ≡ map (slice_index addresses.now) entries.now) }
{
    let mut starts = List::new(alloc);
    for entry in entries {
        starts.push(addresses[*entry])?;
    }
    Ok(starts)
}

/// The words of data, given the address at which each code begins.
fn data(alloc: Global, globals: &[Datum], starts: &[u32]) -> Result<List<u32>, AllocError>
    requires { All (IsDatum (length starts.now)) globals.now }
    ensures { IfOk result (λ words. words ≡ map (datum_word (slice_index starts.now)) globals.now) }
{
    let mut words = List::new(alloc);
    for datum in globals {
        words.push(word_of(*datum, starts))?;
    }
    Ok(words)
}

fn word_of(datum: Datum, starts: &[u32]) -> u32
    requires { IsDatum (length starts.now) datum }
    ensures { result ≡ datum_word (slice_index starts.now) datum }
{
    match datum {
        Datum::Number(number) => number,
        Datum::Function(function) => starts[function as usize],
    }
}
