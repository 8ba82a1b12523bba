//! The lines of pointer switches, of their sites and of targets.

ghost use Rattle.std.specs.Prelude.{◌≡◌, ◌++◌, OnOk};
ghost use Rattle.mv_list.specs.Listing.{pointer_line, pointers_text, point_line, points_text, target_line, targets_text};

use crate::names::{pointer_name, target_name};
use crate::numbers::push_address;
use mv_descriptors::{PointRow, PointerRow, TargetRow};
use mv_image::Image;
use std::alloc::{AllocError, Global};

/// Adds the line of the pointer switch with this number.
#[tactic(auto, unfolding(crate::specs::Listing::pointer_line))]
fn push_pointer(
    alloc: Global,
    out: &mut Vec<u8>,
    image: &Image,
    number: usize,
    row: &PointerRow,
) -> Result<(), AllocError>
    ensures { OnOk result (out.new.items ≡ out.old.items ++ pointer_line image.now number row.now) }
{
    out.extend_from_slice(b"pointer ")?;
    out.extend_from_slice(pointer_name(image, number))?;
    out.push(b' ')?;
    push_address(alloc, out, row.address)?;
    out.push(b'\n')?;
    Ok(())
}

/// Adds the lines of all pointer switches.
#[tactic(auto, unfolding(crate::specs::Listing::pointers_text))]
pub(crate) fn push_pointers(
    alloc: Global,
    out: &mut Vec<u8>,
    image: &Image,
) -> Result<(), AllocError>
    ensures { OnOk result (out.new.items ≡ out.old.items ++ pointers_text image.now 0 image.now.pointers) }
{
    let rows = image.pointers().as_slice();
    let mut number = 0;
    for row in rows {
        push_pointer(alloc, out, image, number, row)?;
        number += 1;
    }
    Ok(())
}

/// Adds the line of a pointer site.
#[tactic(auto, unfolding(crate::specs::Listing::point_line))]
fn push_point(
    alloc: Global,
    out: &mut Vec<u8>,
    image: &Image,
    row: &PointRow,
) -> Result<(), AllocError>
    ensures { OnOk result (out.new.items ≡ out.old.items ++ point_line image.now row.now) }
{
    out.extend_from_slice(b"through ")?;
    push_address(alloc, out, row.address)?;
    out.push(b' ')?;
    out.extend_from_slice(pointer_name(image, row.pointer as usize))?;
    out.push(b'\n')?;
    Ok(())
}

/// Adds the lines of all pointer sites.
#[tactic(auto, unfolding(crate::specs::Listing::points_text))]
pub(crate) fn push_points(alloc: Global, out: &mut Vec<u8>, image: &Image) -> Result<(), AllocError>
    ensures { OnOk result (out.new.items ≡ out.old.items ++ points_text image.now image.now.points) }
{
    let rows = image.points().as_slice();
    for row in rows {
        push_point(alloc, out, image, row)?;
    }
    Ok(())
}

/// Adds the line of the target with this number.
#[tactic(auto, unfolding(crate::specs::Listing::target_line))]
fn push_target(
    alloc: Global,
    out: &mut Vec<u8>,
    image: &Image,
    number: usize,
    row: &TargetRow,
) -> Result<(), AllocError>
    ensures { OnOk result (out.new.items ≡ out.old.items ++ target_line image.now number row.now) }
{
    out.extend_from_slice(b"target ")?;
    push_address(alloc, out, row.entry)?;
    out.push(b' ')?;
    out.extend_from_slice(target_name(image, number))?;
    out.push(b'\n')?;
    Ok(())
}

/// Adds the lines of all targets.
#[tactic(auto, unfolding(crate::specs::Listing::targets_text))]
pub(crate) fn push_targets(
    alloc: Global,
    out: &mut Vec<u8>,
    image: &Image,
) -> Result<(), AllocError>
    ensures { OnOk result (out.new.items ≡ out.old.items ++ targets_text image.now 0 image.now.targets) }
{
    let rows = image.targets().as_slice();
    let mut number = 0;
    for row in rows {
        push_target(alloc, out, image, number, row)?;
        number += 1;
    }
    Ok(())
}
