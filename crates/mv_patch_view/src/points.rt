//! The lines of what stands at pointer sites.

ghost use Rattle.std.specs.Prelude.{◌≡◌, ◌++◌, ◌<◌, codes, length, None, OnOk, Some, slice_get};
ghost use Rattle.mv_list.specs.Listing.{target_name};
ghost use Rattle.mv_patch_view.specs.PatchView.{IsPointAddressed, point_lines, points_text, targets_lines, word_lines, words_through};

use crate::heads::push_head;
use crate::words::push_words;
use mv_descriptors::{PointRow, TargetRow};
use mv_image::Image;
use mv_image::facts::{fits_format, within_limits};
use mv_list::names::{pointer_name, target_name};
use mv_list::place_name;
use mv_patch::standing::{at_point, point_at, text_word};
use std::alloc::{AllocError, Global};

/// The four words of a pointer site under a target, or while it is free.
fn words_through(image: &Image, row: PointRow, target: Option<TargetRow>) -> [u32; 4]
    requires { IsPointAddressed image.now row }
    ensures { result ≡ words_through image.now row target }
{
    let entry = target.map(|row| row.entry);
    let at = row.address;
    let check = image.check();
    [
        at_point(check, at, 0, text_word(image, at), entry),
        at_point(check, at, 1, text_word(image, at + 4), entry),
        at_point(check, at, 2, text_word(image, at + 8), entry),
        at_point(check, at, 3, text_word(image, at + 12), entry),
    ]
}

/// Adds what stands at a pointer site under the target with a number.
fn push_target(
    alloc: Global,
    out: &mut Vec<u8>,
    image: &Image,
    point: PointRow,
    number: usize,
    row: &TargetRow,
) -> Result<(), AllocError>
    requires { IsPointAddressed image.now point }
    ensures { OnOk result (out.new.items ≡ out.old.items ++ word_lines (codes "target " ++ target_name image.now number) (words_through image.now point (Some row.now))) }
{
    let mut state = Vec::new(alloc);
    state.extend_from_slice(b"target ")?;
    state.extend_from_slice(target_name(image, number))?;
    let words = words_through(image, point, Some(*row));
    push_words(out, state.as_slice(), &words)
}

/// Adds what stands at a pointer site under each target.
#[tactic(auto, unfolding(crate::specs::PatchView::targets_lines))]
fn push_targets(
    alloc: Global,
    out: &mut Vec<u8>,
    image: &Image,
    point: PointRow,
) -> Result<(), AllocError>
    requires { IsPointAddressed image.now point }
    ensures { OnOk result (out.new.items ≡ out.old.items ++ targets_lines image.now point 0 image.now.targets) }
{
    let rows = image.targets().as_slice();
    let mut number = 0;
    for row in rows {
        push_target(alloc, out, image, point, number, row)?;
        number += 1;
    }
    Ok(())
}

/// The pointer site with a number, and that its words and those that it jumps to have addresses.
fn point_with(image: &Image, number: usize) -> PointRow
    requires { number < length image.now.points }
    ensures there { slice_get image.now.points number ≡ Some result }
    ensures addressed { IsPointAddressed image.now result }
{
    within_limits(image);
    fits_format(image);
    point_at(image, number)
}

/// Adds the line of a pointer site and what stands there, while its pointer switch is free and under each target.
fn push_through(
    alloc: Global,
    out: &mut Vec<u8>,
    image: &Image,
    point: PointRow,
) -> Result<(), AllocError>
    requires { IsPointAddressed image.now point }
    ensures { OnOk result (out.new.items ≡ out.old.items ++ point_lines image.now point) }
{
    let name = pointer_name(image, point.pointer as usize);
    let within = place_name(image, point.address);
    push_head(alloc, out, b"through", point.address, name, within)?;
    let words = words_through(image, point, None);
    push_words(out, b"free", &words)?;
    push_targets(alloc, out, image, point)
}

/// Adds what stands at all pointer sites.
#[tactic(auto, unfolding(crate::specs::PatchView::points_text))]
pub(crate) fn push_points(alloc: Global, out: &mut Vec<u8>, image: &Image) -> Result<(), AllocError>
    ensures { OnOk result (out.new.items ≡ out.old.items ++ points_text image.now image.now.points) }
{
    for number in 0..image.points().len() {
        let point = point_with(image, number);
        push_through(alloc, out, image, point)?;
    }
    Ok(())
}
