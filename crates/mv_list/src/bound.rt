//! The lines of bindings.

ghost use Rattle.std.specs.Prelude.{◌≡◌, ◌≤◌, ◌++◌, length, slice_index_or, OnOk, IfOk};
ghost use Rattle.mv_bindings.specs.Bindings.{free};
ghost use Rattle.mv_list.specs.Bindings.{held_text, bound_text, binding_line, bindings_from, pointed_text, pointed_line, pointed_from, bindings_text};

use crate::names::{function_name, kind_of, pointer_name, switch_name, target_name};
use crate::numbers::push_value;
use crate::parts::{behind, front};
use mv_bindings::binding::Binding;
use mv_descriptors::FunctionRow;
use mv_image::Image;
use mv_num::list::List;
use std::alloc::{AllocError, Global};

/// The binding with this number.
#[tactic(auto, using(std::proofs::lemmas::Option::get_or_from_slice_get, crate::proofs::Missing::item_missing))]
fn binding_at(bound: &[Binding], number: usize) -> Binding
    ensures { result ≡ slice_index_or bound.now number free }
{
    match bound.get(number) {
        Some(binding) => *binding,
        None => Binding::free(),
    }
}

/// Adds the values of a function's switches.
#[tactic(auto, unfolding(crate::specs::Bindings::held_text))]
pub(crate) fn push_held(
    alloc: Global,
    out: &mut Vec<u8>,
    image: &Image,
    switches: &[u32],
    binding: &Binding,
) -> Result<(), AllocError>
    requires { length switches.now ≤ 6 }
    ensures { OnOk result (out.new.items ≡ out.old.items ++ held_text image.now binding.now 0 switches.now) }
{
    let mut i = 0;
    for switch in switches {
        out.push(b' ')?;
        out.extend_from_slice(switch_name(image, *switch as usize))?;
        out.push(b'=')?;
        push_value(alloc, out, kind_of(image, *switch), binding.values[i])?;
        i += 1;
    }
    Ok(())
}

/// Adds what a function of these switches is bound to.
fn push_bound(
    alloc: Global,
    out: &mut Vec<u8>,
    image: &Image,
    switches: &[u32],
    binding: &Binding,
) -> Result<(), AllocError>
    requires { length switches.now ≤ 6 }
    ensures { OnOk result (out.new.items ≡ out.old.items ++ bound_text image.now switches.now binding.now) }
{
    if binding.bound {
        push_held(alloc, out, image, switches, binding)
    } else {
        out.extend_from_slice(b" free")
    }
}

/// Adds the line of the function with this number.
#[tactic(auto, unfolding(crate::specs::Bindings::binding_line))]
fn push_binding(
    alloc: Global,
    out: &mut Vec<u8>,
    image: &Image,
    number: usize,
    row: &FunctionRow,
    binding: &Binding,
) -> Result<(), AllocError>
    ensures { OnOk result (out.new.items ≡ out.old.items ++ binding_line image.now number row.now binding.now) }
{
    out.extend_from_slice(b"binding ")?;
    out.extend_from_slice(function_name(image, number))?;
    let switches = front(&row.switches, row.count as usize);
    push_bound(alloc, out, image, switches, binding)?;
    out.push(b'\n')?;
    Ok(())
}

/// Adds the lines of all attributed functions.
#[tactic(auto, unfolding(crate::specs::Bindings::bindings_from))]
fn push_bindings(
    alloc: Global,
    out: &mut Vec<u8>,
    image: &Image,
    bound: &[Binding],
) -> Result<(), AllocError>
    ensures { OnOk result (out.new.items ≡ out.old.items ++ bindings_from image.now bound.now 0 image.now.functions) }
{
    let rows = image.functions().as_slice();
    let mut number = 0;
    for row in rows {
        push_binding(alloc, out, image, number, row, &binding_at(bound, number))?;
        number += 1;
    }
    Ok(())
}

/// Adds what a pointer switch is bound to.
pub(crate) fn push_target(
    out: &mut Vec<u8>,
    image: &Image,
    binding: &Binding,
) -> Result<(), AllocError>
    ensures { OnOk result (out.new.items ≡ out.old.items ++ pointed_text image.now binding.now) }
{
    if binding.bound {
        out.extend_from_slice(b" -> ")?;
        let target = (binding.values[0] as usize).saturating_sub(1);
        out.extend_from_slice(target_name(image, target))
    } else {
        out.extend_from_slice(b" free")
    }
}

/// Adds the line of the pointer switch with this number.
#[tactic(auto, unfolding(crate::specs::Bindings::pointed_line))]
fn push_pointed(
    out: &mut Vec<u8>,
    image: &Image,
    number: usize,
    binding: &Binding,
) -> Result<(), AllocError>
    ensures { OnOk result (out.new.items ≡ out.old.items ++ pointed_line image.now number binding.now) }
{
    out.extend_from_slice(b"binding ")?;
    out.extend_from_slice(pointer_name(image, number))?;
    push_target(out, image, binding)?;
    out.push(b'\n')?;
    Ok(())
}

/// Adds the lines of all pointer switches.
#[tactic(auto, unfolding(crate::specs::Bindings::pointed_from))]
fn push_pointers(out: &mut Vec<u8>, image: &Image, bound: &[Binding]) -> Result<(), AllocError>
    ensures { OnOk result (out.new.items ≡ out.old.items ++ pointed_from image.now bound.now 0 image.now.pointers) }
{
    let rows = image.pointers().as_slice();
    let mut number = 0;
    for _row in rows {
        push_pointed(out, image, number, &binding_at(bound, number))?;
        number += 1;
    }
    Ok(())
}

/// A line for each attributed function: free, or the value that each of its switches is bound to; and for each pointer
/// switch: free, or the target that it is bound to.
pub fn bindings(alloc: Global, image: &Image, bound: &List<Binding>) -> Result<Vec<u8>, AllocError>
    ensures { IfOk result (λ text. text.items ≡ bindings_text image.now bound.now) }
{
    let mut out = Vec::new(alloc);
    let bound = bound.as_slice();
    push_bindings(alloc, &mut out, image, bound)?;
    push_pointers(&mut out, image, behind(bound, image.functions().len()))?;
    Ok(out)
}
