//! The lines of functions, of their variants and of the guard rows of these.

ghost use Rattle.std.specs.Prelude.{◌≡◌, ◌≤◌, ◌++◌, length, OnOk};
ghost use Rattle.mv_list.specs.Listing.{separator, range_text, ranges_text, condition_text, guard_line, guards_text, variant_line, variants_text, guards_behind, names_text, own_switches, function_line, functions_text};

use crate::names::{function_name, kind_of, switch_name};
use crate::numbers::{push_address, push_number, push_value};
use crate::parts::{behind, front};
use mv_descriptors::{FunctionRow, GuardRow, VariantRow};
use mv_image::Image;
use std::alloc::{AllocError, Global};

/// Adds a range of values, by the number of their kind.
#[tactic(auto, unfolding(crate::specs::Listing::range_text))]
fn push_range(
    alloc: Global,
    out: &mut Vec<u8>,
    kind: u32,
    low: u32,
    high: u32,
) -> Result<(), AllocError>
    ensures { OnOk result (out.new.items ≡ out.old.items ++ range_text kind low high) }
{
    out.extend_from_slice(b" in ")?;
    push_value(alloc, out, kind, low)?;
    out.extend_from_slice(b"..")?;
    push_value(alloc, out, kind, high)
}

/// Adds what parts a range from the one before it.
#[tactic(auto, using(crate::proofs::Turns::separator_none, crate::proofs::Turns::separator_more))]
fn push_separator(out: &mut Vec<u8>, range: usize) -> Result<(), AllocError>
    ensures { OnOk result (out.new.items ≡ out.old.items ++ separator range) }
{
    if range > 0 {
        out.extend_from_slice(b", ")
    } else {
        Ok(())
    }
}

/// Adds the ranges of a guard row, one for each of its function's switches.
#[tactic(auto, unfolding(crate::specs::Listing::ranges_text))]
fn push_ranges(
    alloc: Global,
    out: &mut Vec<u8>,
    image: &Image,
    switches: &[u32],
    row: &GuardRow,
) -> Result<(), AllocError>
    requires { length switches.now ≤ 6 }
    ensures { OnOk result (out.new.items ≡ out.old.items ++ ranges_text image.now row.now 0 switches.now) }
{
    let mut i = 0;
    for switch in switches {
        push_separator(out, i)?;
        out.extend_from_slice(switch_name(image, *switch as usize))?;
        push_range(alloc, out, kind_of(image, *switch), row.low[i], row.high[i])?;
        i += 1;
    }
    Ok(())
}

/// Adds when a guard row of a function with these switches holds.
#[tactic(auto, using(crate::proofs::Turns::condition_none, crate::proofs::Turns::condition_more))]
fn push_condition(
    alloc: Global,
    out: &mut Vec<u8>,
    image: &Image,
    switches: &[u32],
    row: &GuardRow,
) -> Result<(), AllocError>
    requires { length switches.now ≤ 6 }
    ensures { OnOk result (out.new.items ≡ out.old.items ++ condition_text image.now switches.now row.now) }
{
    if switches.is_empty() {
        return out.extend_from_slice(b"always");
    }
    out.extend_from_slice(b"when ")?;
    push_ranges(alloc, out, image, switches, row)
}

/// Adds the line of a guard row of a function with these switches.
#[tactic(auto, unfolding(crate::specs::Listing::guard_line))]
fn push_guard(
    alloc: Global,
    out: &mut Vec<u8>,
    image: &Image,
    switches: &[u32],
    row: &GuardRow,
) -> Result<(), AllocError>
    requires { length switches.now ≤ 6 }
    ensures { OnOk result (out.new.items ≡ out.old.items ++ guard_line image.now switches.now row.now) }
{
    out.extend_from_slice(b"    ")?;
    push_condition(alloc, out, image, switches, row)?;
    out.push(b'\n')?;
    Ok(())
}

/// Adds the lines of some guard rows.
#[tactic(auto, unfolding(crate::specs::Listing::guards_text))]
fn push_guards(
    alloc: Global,
    out: &mut Vec<u8>,
    image: &Image,
    switches: &[u32],
    rows: &[GuardRow],
) -> Result<(), AllocError>
    requires { length switches.now ≤ 6 }
    ensures { OnOk result (out.new.items ≡ out.old.items ++ guards_text image.now switches.now rows.now) }
{
    for row in rows {
        push_guard(alloc, out, image, switches, row)?;
    }
    Ok(())
}

/// Adds the line of the variant that has this number in its function.
#[tactic(auto, unfolding(crate::specs::Listing::variant_line))]
fn push_variant(
    alloc: Global,
    out: &mut Vec<u8>,
    number: usize,
    row: &VariantRow,
) -> Result<(), AllocError>
    ensures { OnOk result (out.new.items ≡ out.old.items ++ variant_line number row.now) }
{
    out.extend_from_slice(b"  variant ")?;
    push_number(alloc, out, number)?;
    out.extend_from_slice(b" at ")?;
    push_address(alloc, out, row.address)?;
    if row.inlined == 1 {
        out.extend_from_slice(b" inline\n")
    } else {
        out.extend_from_slice(b" call\n")
    }
}

/// Adds the lines of a function's variants, to which the first of the guard rows belong.
#[tactic(auto, unfolding(crate::specs::Listing::variants_text))]
fn push_variants(
    alloc: Global,
    out: &mut Vec<u8>,
    image: &Image,
    switches: &[u32],
    rows: &[VariantRow],
    guards: &[GuardRow],
) -> Result<(), AllocError>
    requires { length switches.now ≤ 6 }
    ensures { OnOk result (out.new.items ≡ out.old.items ++ variants_text image.now switches.now 0 rows.now guards.now) }
{
    let mut number = 0;
    let mut left = guards;
    for row in rows {
        push_variant(alloc, out, number, row)?;
        push_guards(
            alloc,
            out,
            image,
            switches,
            front(left, row.guards as usize),
        )?;
        left = behind(left, row.guards as usize);
        number += 1;
    }
    Ok(())
}

/// The guard rows behind those of some variants.
#[tactic(auto, unfolding(crate::specs::Listing::guards_behind))]
fn guards_behind<'a>(rows: &[VariantRow], guards: &'a [GuardRow]) -> &'a [GuardRow]
    ensures { result.now ≡ guards_behind rows.now guards.now }
{
    let mut left = guards;
    for row in rows {
        left = behind(left, row.guards as usize);
    }
    left
}

/// Adds the names of switches, each behind a space.
#[tactic(auto, unfolding(crate::specs::Listing::names_text))]
fn push_names(out: &mut Vec<u8>, image: &Image, switches: &[u32]) -> Result<(), AllocError>
    ensures { OnOk result (out.new.items ≡ out.old.items ++ names_text image.now switches.now) }
{
    for switch in switches {
        out.push(b' ')?;
        out.extend_from_slice(switch_name(image, *switch as usize))?;
    }
    Ok(())
}

/// Adds the line of the function with this number.
#[tactic(auto, unfolding(crate::specs::Listing::function_line))]
fn push_function(
    alloc: Global,
    out: &mut Vec<u8>,
    image: &Image,
    number: usize,
    row: &FunctionRow,
) -> Result<(), AllocError>
    ensures { OnOk result (out.new.items ≡ out.old.items ++ function_line image.now number row.now) }
{
    out.extend_from_slice(b"function ")?;
    out.extend_from_slice(function_name(image, number))?;
    out.extend_from_slice(b" entry ")?;
    push_address(alloc, out, row.entry)?;
    out.extend_from_slice(b" switches")?;
    push_names(out, image, front(&row.switches, row.count as usize))?;
    out.push(b'\n')?;
    Ok(())
}

/// Adds the lines of all functions, with those of their variants and of the guard rows.
#[tactic(auto, unfolding(crate::specs::Listing::functions_text))]
pub(crate) fn push_functions(
    alloc: Global,
    out: &mut Vec<u8>,
    image: &Image,
) -> Result<(), AllocError>
    ensures { OnOk result (out.new.items ≡ out.old.items ++ functions_text image.now 0 image.now.functions image.now.variants image.now.guards) }
{
    let rows = image.functions().as_slice();
    let mut number = 0;
    let mut variants = image.variants().as_slice();
    let mut guards = image.guards().as_slice();
    for row in rows {
        push_function(alloc, out, image, number, row)?;
        let own = front(variants, row.variants as usize);
        let switches = front(&row.switches, row.count as usize);
        push_variants(alloc, out, image, switches, own, guards)?;
        guards = guards_behind(own, guards);
        variants = behind(variants, row.variants as usize);
        number += 1;
    }
    Ok(())
}
