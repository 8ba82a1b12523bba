// Reads of globals: what a switch gives in a frame of a bound function.

ghost use Rattle.std.specs.Prelude.{◌≡◌, ◌+◌, ◌<◌, ◌^◌, Some, length, slice_get};
ghost use Rattle.mv_ast.specs.Numbering.{own_numbers, place_from};
ghost use Rattle.mv_ast.specs.Switches.{attributed_before, switch_global, value_among, bound_value, global_read, pointer_number, bound_function, called_word};
ghost use Rattle.mv_meaning.specs.Meaning.{called_global};
ghost use Rattle.mv_interpret.specs.Runs.{world_of};

use crate::numbers::number_of;
use crate::state::{Here, State, word_at};
use crate::work::count_attributed;
use mv_ast::program::{Function, Program};
use mv_bindings::binding::Binding;
use mv_meaning::state::Frame;
use mv_num::list::List;

// The number of attributed functions among the first so many.
fn attributed_before(functions: &List<Function>, n: u32) -> usize
    ensures { result ≡ attributed_before functions.now n }
{
    let all = functions.as_slice();
    let n = n as usize;
    let mut number = 0;
    for f in if n < all.len() { &all[..n] } else { all } {
        if f.attributed {
            number += 1;
        }
    }
    number
}

/// The global that a switch is.
pub fn switch_global(program: &Program, switch: u32) -> u32
    ensures { result ≡ switch_global program.now switch }
{
    match program.switches.get(switch as usize) {
        Some(s) => s.global,
        None => 0,
    }
}

// The value that goes with a global among some switches.
fn value_among(program: &Program, global: u32, switches: &[u32], values: &[u32]) -> Option<u32>
    ensures { result ≡ value_among program.now global switches.now values.now }
{
    for (i, s) in switches.iter().enumerate() {
        if i >= values.len() {
            return None;
        }
        if global == switch_global(program, *s) {
            return Some(values[i]);
        }
    }
    None
}

// The value that a global is bound to in a frame of a function.
fn bound_value(
    program: &Program,
    bindings: &List<Binding>,
    function: u32,
    global: u32,
) -> Option<u32>
    ensures { result ≡ bound_value program.now bindings.now function (slice_get program.now.functions function) global }
{
    match program.functions.get(function as usize) {
        None => None,
        Some(f) => {
            if !f.attributed {
                return None;
            }
            match bindings.get(attributed_before(&program.functions, function)) {
                None => None,
                Some(binding) => {
                    if binding.bound {
                        value_among(program, global, f.switches.as_slice(), &binding.values)
                    } else {
                        None
                    }
                }
            }
        }
    }
}

/// A read of a word of a global in a frame of a function.
pub fn global_read(
    program: &Program,
    here: Here,
    state: &State,
    function: u32,
    global: u32,
    i: u32,
) -> u32
    ensures { result ≡ global_read program.now (world_of here state.now) function global i }
{
    match bound_value(program, &state.bindings, function, global) {
        Some(value) => value,
        None => word_at(&state.globals, global, i),
    }
}

// The place of a number in a list, counted on from another place.
fn place_from(first: usize, numbers: &[u32], number: u32) -> Option<usize>
    requires { first + length numbers.now < 2 ^ 64 }
    ensures { result ≡ place_from first numbers.now number }
{
    for (i, n) in numbers.iter().enumerate() {
        if *n == number {
            return Some(first + i);
        }
    }
    None
}

// The number of a pointer switch among the bindings, by its global.
fn pointer_number(program: &Program, global: u32) -> Option<usize>
    requires { length program.now.functions + length program.now.pointers < 2 ^ 32 }
    ensures { result ≡ pointer_number program.now global }
{
    place_from(
        count_attributed(program) as usize,
        program.pointers.as_slice(),
        global,
    )
}

// The function to which a pointer switch is bound, where it is.
fn bound_function(binding: &Binding) -> Option<u32>
    ensures { result ≡ bound_function (Some binding.now) }
{
    if binding.bound {
        Some(binding.values[0].saturating_sub(1))
    } else {
        None
    }
}

/// The number in a global as a call through it sees it, in a frame of a function.
pub fn called_global(
    program: &Program,
    here: Here,
    state: &State,
    frame: &Frame,
    global: u32,
    i: u32,
) -> u32
    requires { length program.now.functions + length program.now.pointers < 2 ^ 32 }
    ensures { result ≡ called_global program.now (own_numbers program.now) global i (pointer_number program.now global) frame.now (world_of here state.now) }
{
    match pointer_number(program, global) {
        None => global_read(program, here, state, frame.function, global, i),
        Some(number) => match state.bindings.get(number) {
            None => word_at(&state.globals, global, 0),
            Some(binding) => match bound_function(binding) {
                None => word_at(&state.globals, global, 0),
                Some(f) => number_of(program, f),
            },
        },
    }
}
