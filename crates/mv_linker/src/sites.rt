//! The sites of joined code.

ghost use Rattle.std.specs.Prelude.{◌≡◌, ◌*◌, ◌<◌, ◌≤◌, ◌^◌, [], ◌∷◌, All, IfOk, length, slice_index};
ghost use Rattle.mv_linker.specs.Tables.{attributed_numbers, pointer_addresses, place_among, sites_from, points_from, site_weight, FitsPointerRow};

use crate::parts::{PartFunction, PartPointer};
use mv_descriptors::{PointRow, SiteRow};
use mv_isa::labelled::Line;
use mv_num::list::List;
use mv_num::regions::DATA_START;
use std::alloc::{AllocError, Global};

/// One site for each slot, given the address of each line.
pub fn site_rows(
    alloc: Global,
    attributed: &[PartFunction],
    lines: &[Line],
    addresses: &[u32],
) -> Result<List<SiteRow>, AllocError>
    requires attributed { length attributed.now < 2 ^ 32 }
    requires lines { length lines.now ≤ length addresses.now }
    ensures { IfOk result (λ rows. rows ≡ sites_from (slice_index addresses.now) (attributed_numbers attributed.now) 0 lines.now) }
{
    let mut rows = List::new(alloc);
    for (index, line) in lines.iter().enumerate() {
        if let Line::Slot(function) = line {
            rows.push(SiteRow {
                address: addresses[index],
                function: place_among(attributed, *function),
            })?;
        }
    }
    Ok(rows)
}

/// The place of a function among the attributed ones.
fn place_among(attributed: &[PartFunction], function: u32) -> u32
    requires { length attributed.now < 2 ^ 32 }
    ensures { result ≡ place_among (attributed_numbers attributed.now) function }
{
    for (place, own) in attributed.iter().enumerate() {
        if own.function == function {
            return place as u32;
        }
    }
    attributed.len() as u32
}

/// One pointer site for each slot of four words, given the address of each line.
pub fn point_rows(
    alloc: Global,
    pointers: &[PartPointer],
    lines: &[Line],
    addresses: &[u32],
) -> Result<List<PointRow>, AllocError>
    requires few { length pointers.now < 2 ^ 32 }
    requires words { All FitsPointerRow pointers.now }
    requires lines { length lines.now ≤ length addresses.now }
    ensures { IfOk result (λ rows. rows ≡ points_from (slice_index addresses.now) (pointer_addresses pointers.now) 0 lines.now) }
{
    let mut rows = List::new(alloc);
    for (index, line) in lines.iter().enumerate() {
        if let Line::Point(pointer) = line {
            rows.push(PointRow {
                address: addresses[index],
                pointer: pointer_among(pointers, *pointer),
            })?;
        }
    }
    Ok(rows)
}

/// The place of the pointer switch with an address.
fn pointer_among(pointers: &[PartPointer], address: u32) -> u32
    requires few { length pointers.now < 2 ^ 32 }
    requires words { All FitsPointerRow pointers.now }
    ensures { result ≡ place_among (pointer_addresses pointers.now) address }
{
    for (place, pointer) in pointers.iter().enumerate() {
        if DATA_START + 4 * pointer.word == address {
            return place as u32;
        }
    }
    pointers.len() as u32
}

/// How many slots lines have, those of four words counted twice.
pub fn site_weight(lines: &[Line]) -> usize
    requires { 2 * length lines.now < 2 ^ 64 }
    ensures { result ≡ site_weight lines.now }
{
    let mut count = 0;
    for line in lines {
        count += weight_of(*line);
    }
    count
}

fn weight_of(line: Line) -> usize
    ensures { result ≡ site_weight (line ∷ []) }
{
    match line {
        Line::Slot(_) => 1,
        Line::Point(_) => 2,
        _ => 0,
    }
}
