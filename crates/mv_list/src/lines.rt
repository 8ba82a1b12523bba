//! The listing of an image.

ghost use Rattle.std.specs.Prelude.{◌≡◌, ◌++◌, OnOk, IfOk};
ghost use Rattle.mv_list.specs.Listing.{site_line, sites_text, listing_text};

use crate::functions::push_functions;
use crate::names::function_name;
use crate::numbers::push_address;
use crate::pointers::{push_pointers, push_points, push_targets};
use crate::switches::push_switches;
use mv_descriptors::SiteRow;
use mv_image::Image;
use std::alloc::{AllocError, Global};

/// Adds the line of a site.
#[tactic(auto, unfolding(crate::specs::Listing::site_line))]
fn push_site(
    alloc: Global,
    out: &mut Vec<u8>,
    image: &Image,
    row: &SiteRow,
) -> Result<(), AllocError>
    ensures { OnOk result (out.new.items ≡ out.old.items ++ site_line image.now row.now) }
{
    out.extend_from_slice(b"site ")?;
    push_address(alloc, out, row.address)?;
    out.push(b' ')?;
    out.extend_from_slice(function_name(image, row.function as usize))?;
    out.push(b'\n')?;
    Ok(())
}

/// Adds the lines of all sites.
#[tactic(auto, unfolding(crate::specs::Listing::sites_text))]
fn push_sites(alloc: Global, out: &mut Vec<u8>, image: &Image) -> Result<(), AllocError>
    ensures { OnOk result (out.new.items ≡ out.old.items ++ sites_text image.now image.now.sites) }
{
    let rows = image.sites().as_slice();
    for row in rows {
        push_site(alloc, out, image, row)?;
    }
    Ok(())
}

/// A line for each switch with its domain; for each attributed function, behind which stand its
/// variants, each with its guard rows; for each site; and for each pointer switch, pointer site and target.
#[tactic(auto, unfolding(crate::specs::Listing::listing_text))]
pub fn listing(alloc: Global, image: &Image) -> Result<Vec<u8>, AllocError>
    ensures { IfOk result (λ text. text.items ≡ listing_text image.now) }
{
    let mut out = Vec::new(alloc);
    push_switches(alloc, &mut out, image)?;
    push_functions(alloc, &mut out, image)?;
    push_sites(alloc, &mut out, image)?;
    push_pointers(alloc, &mut out, image)?;
    push_points(alloc, &mut out, image)?;
    push_targets(alloc, &mut out, image)?;
    Ok(out)
}
