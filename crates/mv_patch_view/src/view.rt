//! The patch view.

ghost use Rattle.std.specs.Prelude.{◌≡◌, ◌++◌, ◌+◌, ◌<◌, ◌^◌, length, IfOk, OnOk, slice_get, Some};
ghost use Rattle.mv_patch_view.specs.PatchView.{AreStarts, entries_text, entry_lines, patch_view_text, site_lines, sites_text};

use crate::heads::push_head;
use crate::place::Place;
use crate::points::push_points;
use crate::words::push_place;
use mv_descriptors::{FunctionRow, SiteRow};
use mv_image::Image;
use mv_image::facts::{rows_belong, within_limits};
use mv_list::names::function_name;
use mv_list::place_name;
use mv_patch::standing::site_at;
use std::alloc::{AllocError, Global};

/// How many variants the functions before each have, and how many all have.
fn starts_of(alloc: Global, image: &Image) -> Result<Vec<usize>, AllocError>
    ensures { IfOk result (λ starts. AreStarts image.now starts.items) }
{
    within_limits(image);
    rows_belong(image);
    let mut starts = Vec::new(alloc);
    let mut count = 0;
    starts.push(count)?;
    for row in image.functions().as_slice() {
        count += row.variants as usize;
        starts.push(count)?;
    }
    Ok(starts)
}

/// Adds the line of the entry of the function with a number, and what stands there.
fn push_entry(
    alloc: Global,
    out: &mut Vec<u8>,
    image: &Image,
    starts: &[usize],
    number: usize,
    row: &FunctionRow,
) -> Result<(), AllocError>
    requires starts { AreStarts image.now starts.now }
    requires number { number < length image.now.functions }
    ensures { OnOk result (out.new.items ≡ out.old.items ++ entry_lines image.now number row.now) }
{
    let name = function_name(image, number);
    push_head(alloc, out, b"entry", row.entry, name, None)?;
    push_place(alloc, out, image, starts, Place::Entry(row.entry), number)
}

/// Adds what stands at all entries.
#[tactic(auto, unfolding(crate::specs::PatchView::entries_text))]
fn push_entries(
    alloc: Global,
    out: &mut Vec<u8>,
    image: &Image,
    starts: &[usize],
) -> Result<(), AllocError>
    requires { AreStarts image.now starts.now }
    ensures { OnOk result (out.new.items ≡ out.old.items ++ entries_text image.now 0 image.now.functions) }
{
    let rows = image.functions().as_slice();
    let mut number = 0;
    for row in rows {
        push_entry(alloc, out, image, starts, number, row)?;
        number += 1;
    }
    Ok(())
}

/// Adds the line of a site and what stands there.
fn push_called(
    alloc: Global,
    out: &mut Vec<u8>,
    image: &Image,
    starts: &[usize],
    row: &SiteRow,
) -> Result<(), AllocError>
    requires starts { AreStarts image.now starts.now }
    requires function { row.now.function < length image.now.functions }
    requires address { row.now.address + 4 < 2 ^ 32 }
    ensures { OnOk result (out.new.items ≡ out.old.items ++ site_lines image.now row.now) }
{
    let name = function_name(image, row.function as usize);
    let within = place_name(image, row.address);
    push_head(alloc, out, b"site", row.address, name, within)?;
    let place = Place::Site(row.address);
    push_place(alloc, out, image, starts, place, row.function as usize)
}

/// Adds what stands at all sites.
#[tactic(auto, unfolding(crate::specs::PatchView::sites_text))]
fn push_sites(
    alloc: Global,
    out: &mut Vec<u8>,
    image: &Image,
    starts: &[usize],
) -> Result<(), AllocError>
    requires { AreStarts image.now starts.now }
    ensures { OnOk result (out.new.items ≡ out.old.items ++ sites_text image.now image.now.sites) }
{
    for number in 0..image.sites().len() {
        let site = site_at(image, number);
        push_called(alloc, out, image, starts, &site)?;
    }
    Ok(())
}

/// The words that stand at each entry, at each site and at each pointer site, as instructions: while its function or pointer switch is free, and
/// under each variant or target.
#[tactic(auto, unfolding(crate::specs::PatchView::patch_view_text))]
pub fn patch_view(alloc: Global, image: &Image) -> Result<Vec<u8>, AllocError>
    ensures { IfOk result (λ text. text.items ≡ patch_view_text image.now) }
{
    let starts = starts_of(alloc, image)?;
    let mut out = Vec::new(alloc);
    push_entries(alloc, &mut out, image, starts.as_slice())?;
    push_sites(alloc, &mut out, image, starts.as_slice())?;
    push_points(alloc, &mut out, image)?;
    Ok(out)
}
