//! The rows of the tables, of what may be patched.

ghost use Rattle.std.specs.Prelude.{◌≡◌, ◌+◌, ◌≤◌, ◌<◌, ◌^◌, ◌++◌, All, IfOk, OnOk, length, map, slice_index};
ghost use Rattle.mv_linker.specs.Linked.{function_variants};
ghost use Rattle.mv_linker.specs.Tables.{padded, switch_row, function_row, variant_row, variant_rows, pointer_row, target_rows, guards_of, FitsSwitchRow, FitsPointerRow, FitsFunctionRow, HasFewGuards};
ghost use Rattle.mv_linker.specs.declared.parts.PartSwitch.{PartSwitch};
ghost use Rattle.mv_linker.specs.declared.parts.PartFunction.{PartFunction};
ghost use Rattle.mv_linker.specs.declared.parts.PartPointer.{PartPointer};

use crate::parts::{PartFunction, PartPointer, PartSwitch, PartVariant, Parts};
use mv_descriptors::{FunctionRow, GuardRow, PointerRow, SwitchRow, TargetRow, VariantRow};
use mv_num::list::List;
use mv_num::regions::DATA_START;
use mv_num::text::Text;
use std::alloc::{AllocError, Global};

/// The rows of switches.
pub fn switch_rows(alloc: Global, switches: &[PartSwitch]) -> Result<List<SwitchRow>, AllocError>
    requires { All FitsSwitchRow switches.now }
    ensures { IfOk result (λ rows. rows ≡ map switch_row switches.now) }
{
    let mut rows = List::new(alloc);
    for switch in switches {
        rows.push(switch_row(switch))?;
    }
    Ok(rows)
}

fn switch_row(switch: &PartSwitch) -> SwitchRow
    requires { FitsSwitchRow switch.now }
    ensures { result ≡ switch_row switch.now }
{
    SwitchRow {
        length: switch.name.bytes().len() as u32,
        address: DATA_START + 4 * switch.word,
        kind: switch.kind,
        count: switch.values.len() as u32,
        values: padded_to_16(switch.values.as_slice()),
    }
}

fn padded_to_16(words: &[u32]) -> [u32; 16]
    requires { length words.now ≤ 16 }
    ensures { result ≡ padded 16 words.now }
{
    let mut row = [0; 16];
    for (place, word) in words.iter().enumerate() {
        row[place] = *word;
    }
    row
}

/// The rows of attributed functions, given the address at which each code begins.
pub fn function_rows(
    alloc: Global,
    attributed: &[PartFunction],
    starts: &[u32],
) -> Result<List<FunctionRow>, AllocError>
    requires { All (FitsFunctionRow (length starts.now)) attributed.now }
    ensures { IfOk result (λ rows. rows ≡ map (function_row (slice_index starts.now)) attributed.now) }
{
    let mut rows = List::new(alloc);
    for function in attributed {
        rows.push(function_row(function, starts))?;
    }
    Ok(rows)
}

fn function_row(function: &PartFunction, starts: &[u32]) -> FunctionRow
    requires { FitsFunctionRow (length starts.now) function.now }
    ensures { result ≡ function_row (slice_index starts.now) function.now }
{
    FunctionRow {
        length: function.name.bytes().len() as u32,
        entry: starts[function.function as usize],
        count: function.switches.len() as u32,
        switches: padded_to_6(function.switches.as_slice()),
        variants: function.variants.len() as u32,
    }
}

fn padded_to_6(words: &[u32]) -> [u32; 6]
    requires { length words.now ≤ 6 }
    ensures { result ≡ padded 6 words.now }
{
    let mut row = [0; 6];
    for (place, word) in words.iter().enumerate() {
        row[place] = *word;
    }
    row
}

/// The rows of all variants, whose codes have the numbers from one on.
pub fn variant_rows(
    alloc: Global,
    attributed: &[PartFunction],
    starts: &[u32],
    number: usize,
) -> Result<List<VariantRow>, AllocError>
    requires guards { All HasFewGuards (function_variants attributed.now) }
    requires starts { number + length (function_variants attributed.now) ≤ length starts.now }
    ensures { IfOk result (λ rows. rows ≡ variant_rows (slice_index starts.now) number (function_variants attributed.now)) }
{
    let mut rows = List::new(alloc);
    let mut next = number;
    for function in attributed {
        push_variant_rows(&mut rows, function.variants.as_slice(), starts, next)?;
        next += function.variants.len();
    }
    Ok(rows)
}

fn push_variant_rows(
    rows: &mut List<VariantRow>,
    variants: &[PartVariant],
    starts: &[u32],
    number: usize,
) -> Result<(), AllocError>
    requires guards { All HasFewGuards variants.now }
    requires starts { number + length variants.now ≤ length starts.now }
    ensures { OnOk result (rows.new ≡ rows.old ++ variant_rows (slice_index starts.now) number variants.now) }
{
    for (index, variant) in variants.iter().enumerate() {
        rows.push(variant_row(starts[number + index], variant))?;
    }
    Ok(())
}

fn variant_row(address: u32, variant: &PartVariant) -> VariantRow
    requires { HasFewGuards variant.now }
    ensures { result ≡ variant_row address variant.now }
{
    let (inlined, words) = match variant.inline {
        Some(words) => (1, words),
        None => (0, [0; 2]),
    };
    VariantRow {
        address,
        inlined,
        words,
        guards: variant.guards.len() as u32,
    }
}

/// The guard rows of all variants.
pub fn guard_rows(alloc: Global, attributed: &[PartFunction]) -> Result<List<GuardRow>, AllocError>
    ensures { IfOk result (λ rows. rows ≡ guards_of (function_variants attributed.now)) }
{
    let mut rows = List::new(alloc);
    for function in attributed {
        push_guard_rows(alloc, &mut rows, function.variants.as_slice())?;
    }
    Ok(rows)
}

fn push_guard_rows(
    alloc: Global,
    rows: &mut List<GuardRow>,
    variants: &[PartVariant],
) -> Result<(), AllocError>
    ensures { OnOk result (rows.new ≡ rows.old ++ guards_of variants.now) }
{
    for variant in variants {
        rows.append(variant.guards.copied(alloc)?)?;
    }
    Ok(())
}

/// The rows of pointer switches.
pub fn pointer_rows(alloc: Global, pointers: &[PartPointer]) -> Result<List<PointerRow>, AllocError>
    requires { All FitsPointerRow pointers.now }
    ensures { IfOk result (λ rows. rows ≡ map pointer_row pointers.now) }
{
    let mut rows = List::new(alloc);
    for pointer in pointers {
        rows.push(PointerRow {
            length: pointer.name.bytes().len() as u32,
            address: DATA_START + 4 * pointer.word,
        })?;
    }
    Ok(rows)
}

/// The rows of targets, given the address at which each code begins.
pub fn target_rows(
    alloc: Global,
    targets: &[Text],
    starts: &[u32],
) -> Result<List<TargetRow>, AllocError>
    requires names { All (λ name. length name < 2 ^ 32) targets.now }
    requires starts { length targets.now ≤ length starts.now }
    ensures { IfOk result (λ rows. rows ≡ target_rows (slice_index starts.now) 0 targets.now) }
{
    let mut rows = List::new(alloc);
    for (number, name) in targets.iter().enumerate() {
        rows.push(TargetRow {
            length: name.bytes().len() as u32,
            entry: starts[number],
        })?;
    }
    Ok(rows)
}

/// The names of the switches, of the attributed functions, of the pointer switches and then of the targets.
pub fn names(alloc: Global, parts: &Parts) -> Result<List<Text>, AllocError>
    ensures { IfOk result (λ names. names ≡ map (λ (s : PartSwitch). s.name) parts.now.switches ++ map (λ (a : PartFunction). a.name) parts.now.attributed
        ++ map (λ (q : PartPointer). q.name) parts.now.pointers ++ parts.now.targets) }
{
    let mut names = List::new(alloc);
    for switch in parts.switches.as_slice() {
        names.push(Text::new(alloc, switch.name.bytes())?)?;
    }
    push_function_names(alloc, &mut names, parts.attributed.as_slice())?;
    push_pointer_names(alloc, &mut names, parts.pointers.as_slice())?;
    push_names(alloc, &mut names, parts.targets.as_slice())?;
    Ok(names)
}

fn push_pointer_names(
    alloc: Global,
    names: &mut List<Text>,
    pointers: &[PartPointer],
) -> Result<(), AllocError>
    ensures { OnOk result (names.new ≡ names.old ++ map (λ (q : PartPointer). q.name) pointers.now) }
{
    for pointer in pointers {
        names.push(Text::new(alloc, pointer.name.bytes())?)?;
    }
    Ok(())
}

fn push_names(alloc: Global, names: &mut List<Text>, more: &[Text]) -> Result<(), AllocError>
    ensures { OnOk result (names.new ≡ names.old ++ more.now) }
{
    for name in more {
        names.push(Text::new(alloc, name.bytes())?)?;
    }
    Ok(())
}

fn push_function_names(
    alloc: Global,
    names: &mut List<Text>,
    attributed: &[PartFunction],
) -> Result<(), AllocError>
    ensures { OnOk result (names.new ≡ names.old ++ map (λ (a : PartFunction). a.name) attributed.now) }
{
    for function in attributed {
        names.push(Text::new(alloc, function.name.bytes())?)?;
    }
    Ok(())
}
