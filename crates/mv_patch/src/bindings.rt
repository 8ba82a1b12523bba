//! The bindings behind an order, and the variants and targets that they lead to.

ghost use Rattle.std.specs.Prelude.{◌≡◌, ◌++◌, ◌≤◌, ◌<◌, ◌+◌, ◌^◌, ◌&&◌, ◌==◌, ℕ, if◌then◌else◌, length, take, replicate, slice_get, slice_index, slice_index_or, option_map, Some};
ghost use Rattle.std.specs.List.{position};
ghost use Rattle.mv_descriptors.specs.declared.rows.PointerRow.{PointerRow};
ghost use Rattle.mv_descriptors.specs.declared.rows.TargetRow.{TargetRow};
ghost use Rattle.mv_num.specs.Limits.{own_switch_limit};
ghost use Rattle.mv_bindings.specs.Bindings.{bound_to, free};
ghost use Rattle.mv_image.specs.Spelling.{Fields};
ghost use Rattle.mv_image.specs.Patched.{variant_under, target_under};
ghost use Rattle.mv_patch.specs.Groups.{IsGroup, IsRow};
ghost use Rattle.mv_patch.specs.Orders.{code_of, index_of, is_ordered, is_pointer_ordered, binding_count, pointer_bindings, bound_values, values_of, word_in, words_of_switches, bound_now, pointed_now, next_binding, next_pointer, bindings_ordered, bound_rows, answer_after};
ghost use Rattle.mv_patch.specs.Shown.{AreShown};

use crate::groups::{Group, first_group, fitting_variant, next_group, row_at};
use crate::order::Order;
use mv_bindings::binding::Binding;
use mv_descriptors::{FunctionRow, PointerRow, Row, VariantRow};
use mv_fetch::Memory;
use mv_image::Image;
use mv_image::facts::within_limits;

/// A value, and 0 behind the last.
fn value_at(values: &[u32], i: usize) -> u32
    ensures { result ≡ slice_index values.now i }
{
    if i < values.len() { values[i] } else { 0 }
}

/// The first six values, with zeros behind the last.
fn padded(values: &[u32]) -> [u32; 6]
    ensures { result ≡ take own_switch_limit (values.now ++ replicate own_switch_limit 0) }
{
    [
        value_at(values, 0),
        value_at(values, 1),
        value_at(values, 2),
        value_at(values, 3),
        value_at(values, 4),
        value_at(values, 5),
    ]
}

/// The word of a switch in memory.
fn switch_word(image: &Image, memory: &Memory, switch: u32) -> u32
    ensures { result ≡ word_in memory.now.held (slice_get image.now.switches switch) }
{
    match image.switches().get(switch as usize) {
        None => 0,
        Some(row) => memory.load(row.address, 4).unwrap_or(0),
    }
}

/// The words of a function's switches, and zeros behind them.
fn switch_words(image: &Image, memory: &Memory, row: &FunctionRow) -> [u32; 6]
    requires { row.now.count ≤ 6 }
    ensures { result ≡ take own_switch_limit (words_of_switches image.now memory.now.held row.now ++ replicate own_switch_limit 0) }
{
    row.has_width();
    let mut words = [0; 6];
    for i in 0..row.count as usize {
        words[i] = switch_word(image, memory, row.switches[i]);
    }
    padded(&words[..row.count as usize])
}

/// What a commit binds a function to.
fn bound_now(image: &Image, memory: &Memory, group: Group, row: &FunctionRow) -> Binding
    requires group { IsGroup image.now group }
    requires row { IsRow image.now group.function row.now }
    ensures { result ≡ bound_now image.now memory.now.held group.function row.now }
{
    row.has_width();
    let values = switch_words(image, memory, row);
    match fitting_variant(image, group, row, &values) {
        None => Binding::free(),
        Some(_) => Binding {
            bound: true,
            count: row.count,
            values,
        },
    }
}

/// What an order leaves of a function's binding.
fn next_binding(
    image: &Image,
    memory: &Memory,
    order: Order,
    group: Group,
    row: &FunctionRow,
    old: Binding,
) -> Binding
    requires group { IsGroup image.now group }
    requires row { IsRow image.now group.function row.now }
    ensures { result ≡ (if is_ordered (code_of order) (index_of order) group.function row.now then next_binding image.now memory.now.held (code_of order) group.function row.now else old) }
{
    if !order.addresses(group.function, row) {
        old
    } else if order.is_commit() {
        bound_now(image, memory, group, row)
    } else {
        Binding::free()
    }
}

// The number of the first target with an entry.
fn target_with(image: &Image, entry: u32) -> Option<usize>
    ensures { result ≡ position (λ (target : TargetRow). target.entry == entry) image.now.targets }
{
    image
        .targets()
        .as_slice()
        .iter()
        .position(|target| target.entry == entry)
}

/// What a commit binds a pointer switch to: the first target whose entry is its word in memory.
fn pointed_now(image: &Image, memory: &Memory, row: &PointerRow) -> Binding
    ensures { result ≡ pointed_now image.now memory.now.held row.now }
{
    within_limits(image);
    let entry = memory.load(row.address, 4).unwrap_or(0);
    match target_with(image, entry) {
        None => Binding::free(),
        Some(target) => Binding {
            bound: true,
            count: 1,
            values: [target as u32 + 1, 0, 0, 0, 0, 0],
        },
    }
}

/// What an order leaves of the binding of the pointer switch with a number.
fn next_pointer(
    image: &Image,
    memory: &Memory,
    order: Order,
    number: usize,
    old: Binding,
) -> Binding
    requires { number < length image.now.pointers }
    ensures { (d : PointerRow) → let row = slice_index_or image.now.pointers number d in
        result ≡ (if is_pointer_ordered image.now (code_of order) (index_of order) number row then next_pointer image.now memory.now.held (code_of order) number row else old) }
{
    within_limits(image);
    if !order.addresses_pointer(image.switches().len(), number) {
        old
    } else if order.is_commit() {
        pointed_now(image, memory, &image.pointers().as_slice()[number])
    } else {
        Binding::free()
    }
}

/// Puts the bindings behind an order in place of others.
pub(crate) fn rebind(
    image: &Image,
    memory: &Memory,
    order: Order,
    old: &[Binding],
    new: &mut [Binding],
)
    requires old { length old.now ≡ binding_count image.now }
    requires new { length new.old ≡ binding_count image.now }
    ensures { new.new ≡ bindings_ordered image.now memory.now.held (code_of order) (index_of order) old.now }
{
    within_limits(image);
    let mut group = first_group(image);
    for i in 0..image.functions().len() {
        let row = row_at(image, i);
        new[i] = next_binding(image, memory, order, group, row, old[i]);
        group = next_group(image, group, row);
    }
    let first = image.functions().len();
    for number in 0..image.pointers().len() {
        new[first + number] = next_pointer(image, memory, order, number, old[first + number]);
    }
}

/// 1 for a function that an order addresses and that is bound.
fn one_if_bound(order: Order, number: usize, row: &FunctionRow, binding: Binding) -> u32
    requires { row.now.count ≤ 6 }
    ensures { result ≡ (if is_ordered (code_of order) (index_of order) number row.now && binding.bound then 1 else 0) }
{
    if order.addresses(number, row) && binding.bound {
        1
    } else {
        0
    }
}

/// 1 for a pointer switch that an order addresses and that is bound, where there are so many switches.
fn one_if_pointed(order: Order, switches: usize, number: usize, binding: Binding) -> u32
    requires { switches + number < 2 ^ 64 }
    ensures { (image : Fields) (row : PointerRow) → length image.switches ≡ switches → result ≡ (if is_pointer_ordered image (code_of order) (index_of order) number row && binding.bound then 1 else 0) }
{
    if order.addresses_pointer(switches, number) && binding.bound {
        1
    } else {
        0
    }
}

/// How many functions are bound of those that an order addresses.
fn count_functions(image: &Image, order: Order, bound: &[Binding]) -> u32
    requires { length bound.now ≡ binding_count image.now }
    ensures value { result ≡ bound_rows (is_ordered (code_of order) (index_of order)) 0 image.now.functions bound.now }
    ensures few { result ≤ length image.now.functions }
{
    within_limits(image);
    let mut count = 0;
    for i in 0..image.functions().len() {
        count += one_if_bound(order, i, row_at(image, i), bound[i]);
    }
    count
}

/// How many pointer switches.
fn count_pointers(image: &Image, order: Order, bound: &[Binding]) -> u32
    requires { length bound.now ≡ binding_count image.now }
    ensures value { result ≡ bound_rows (is_pointer_ordered image.now (code_of order) (index_of order)) 0 image.now.pointers (pointer_bindings image.now bound.now) }
    ensures few { result ≤ length image.now.pointers }
{
    within_limits(image);
    let switches = image.switches().len();
    let first = image.functions().len();
    let mut count = 0;
    for number in 0..image.pointers().len() {
        count += one_if_pointed(order, switches, number, bound[first + number]);
    }
    count
}

/// The answer to an order, given the bindings behind it.
#[tactic(auto, unfolding(crate::specs::Orders::answer_after))]
pub(crate) fn answer_to(image: &Image, order: Order, bound: &[Binding]) -> u32
    requires { length bound.now ≡ binding_count image.now }
    ensures { result ≡ answer_after image.now (code_of order) (index_of order) bound.now }
{
    if order.is_commit() {
        within_limits(image);
        count_functions(image, order, bound) + count_pointers(image, order, bound)
    } else {
        0
    }
}

/// An array of six values has six.
fn has_six(values: &[u32; 6])
    ensures { length values.now ≡ 6 }
{}

/// The entry of the target that a pointer switch is bound to.
#[tactic(auto, unfolding(mv_image::specs::Patched::target_under))]
pub(crate) fn bound_target(image: &Image, binding: &Binding) -> Option<u32>
    ensures { result ≡ option_map (λ (target : TargetRow). target.entry) (target_under image.now (bound_values binding.now)) }
{
    if !binding.bound {
        return None;
    }
    has_six(&binding.values);
    let value = if binding.count > 0 {
        binding.values[0]
    } else {
        0
    };
    let target = image.targets().get(value.saturating_sub(1) as usize)?;
    Some(target.entry)
}

/// The variant that a function is bound to.
#[tactic(auto, unfolding(mv_image::specs::Patched::variant_under))]
fn bound_variant(
    image: &Image,
    group: Group,
    row: &FunctionRow,
    binding: &Binding,
) -> Option<VariantRow>
    requires group { IsGroup image.now group }
    requires row { IsRow image.now group.function row.now }
    ensures { result ≡ variant_under image.now group.function (bound_values binding.now) }
{
    if !binding.bound {
        return None;
    }
    has_six(&binding.values);
    let count = binding.count.min(6) as usize;
    let values = padded(&binding.values[..count]);
    match fitting_variant(image, group, row, &values) {
        None => None,
        Some(number) => image.variants().get(number).copied(),
    }
}

/// Puts the variants that functions are bound to in place of others.
pub(crate) fn show(image: &Image, bound: &[Binding], shown: &mut [Option<VariantRow>])
    requires bound { length bound.now ≡ binding_count image.now }
    requires shown { length shown.old ≡ binding_count image.now }
    ensures { AreShown image.now (values_of bound.now) shown.new }
{
    let mut group = first_group(image);
    for i in 0..image.functions().len() {
        let row = row_at(image, i);
        shown[i] = bound_variant(image, group, row, &bound[i]);
        group = next_group(image, group, row);
    }
}
