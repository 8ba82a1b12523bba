//! The rows of a function's variants and of their guards, among those of all functions.

ghost use Rattle.std.specs.Prelude.{◌≡◌, ◌≤◌, ◌<◌, ◌+◌, length, map, take, drop, sum_by, slice_get, slice_index, Some};
ghost use Rattle.mv_descriptors.specs.declared.rows.VariantRow.{VariantRow};
ghost use Rattle.mv_image.specs.Patched.{kind_of, kinds_of, fitting_variant};
ghost use Rattle.mv_patch.specs.Groups.{IsGroup, IsRow};

use mv_descriptors::{FunctionRow, Row, VariantRow, fitting};
use mv_image::Image;
use mv_image::facts::{rows_belong, rows_fit, within_limits};

/// Where the rows of a function stand: its number, and where those of its variants and of their guards begin.
#[derive(Clone, Copy, Debug)]
pub(crate) struct Group {
    pub(crate) function: usize,
    variant: usize,
    guard: usize,
}

/// Those of the first function.
pub(crate) fn first_group(image: &Image) -> Group
    ensures group { IsGroup image.now result }
    ensures function { result.function ≡ 0 }
{
    Group {
        function: 0,
        variant: 0,
        guard: 0,
    }
}

/// Those of the next function.
pub(crate) fn next_group(image: &Image, group: Group, row: &FunctionRow) -> Group
    requires group { IsGroup image.now group }
    requires row { IsRow image.now group.function row.now }
    ensures group { IsGroup image.now result }
    ensures function { result.function ≡ group.function + 1 }
{
    within_limits(image);
    rows_belong(image);
    let variants = own_variants(image, group, row);
    Group {
        function: group.function + 1,
        variant: group.variant + variants.len(),
        guard: group.guard + count_guards(variants),
    }
}

/// How many guard rows variants have.
fn count_guards(variants: &[VariantRow]) -> usize
    requires { length variants.now ≤ 64000 }
    ensures { result ≡ sum_by (λ (row : VariantRow). row.guards) variants.now }
{
    let mut total = 0;
    for variant in variants {
        total += variant.guards as usize;
    }
    total
}

/// The row of a function.
pub(crate) fn row_at(image: &Image, function: usize) -> &FunctionRow
    requires { function < length image.now.functions }
    ensures { IsRow image.now function result.now }
{
    rows_fit(image);
    &image.functions().as_slice()[function]
}

/// The variants of a function.
fn own_variants<'a>(image: &'a Image, group: Group, row: &FunctionRow) -> &'a [VariantRow]
    requires group { IsGroup image.now group }
    requires row { IsRow image.now group.function row.now }
    ensures variants { result.now ≡ take row.now.variants (drop group.variant image.now.variants) }
    ensures count { length result.now ≡ row.now.variants }
    ensures within { group.variant + row.now.variants ≤ length image.now.variants }
{
    within_limits(image);
    rows_belong(image);
    let end = group.variant + row.variants as usize;
    &image.variants().as_slice()[group.variant..end]
}

/// The number of the kind of a switch.
fn kind_of(image: &Image, switch: u32) -> u32
    ensures { result ≡ kind_of image.now switch }
{
    match image.switches().get(switch as usize) {
        None => 0,
        Some(row) => row.kind.number(),
    }
}

/// The numbers of the kinds of a function's switches, and zeros behind them.
fn kinds_of(image: &Image, row: &FunctionRow) -> [u32; 6]
    requires { row.now.count ≤ 6 }
    ensures { take row.now.count result ≡ kinds_of image.now row.now }
{
    row.has_width();
    let mut kinds = [0; 6];
    for i in 0..row.count as usize {
        kinds[i] = kind_of(image, row.switches[i]);
    }
    kinds
}

/// The number of the variant of a function that fits values of its switches.
pub(crate) fn fitting_variant(
    image: &Image,
    group: Group,
    row: &FunctionRow,
    values: &[u32; 6],
) -> Option<usize>
    requires group { IsGroup image.now group }
    requires row { IsRow image.now group.function row.now }
    ensures { result ≡ fitting_variant image.now group.function values.now }
{
    within_limits(image);
    rows_belong(image);
    let kinds = kinds_of(image, row);
    let variants = own_variants(image, group, row);
    let guards = &image.guards().as_slice()[group.guard..];
    fitting(
        &kinds[..row.count as usize],
        values,
        group.variant,
        variants,
        guards,
    )
}
