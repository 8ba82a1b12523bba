// What a commit, a revert and a poll do.

ghost use Rattle.std.specs.Prelude.{◌≡◌, ◌+◌, ◌++◌, ◌<◌, ◌≤◌, ◌^◌, ◌&&◌, if◌then◌else◌, length, map, slice_index, OnOk, IfOk};
ghost use Rattle.mv_ast.specs.Numbering.{own_numbers};
ghost use Rattle.mv_num.specs.Lists.{is_among};
ghost use Rattle.mv_ast.specs.Switches.{switch_domain, switch_words, all_in_domain, committed, pointed, all_free, attributed_functions, pointer_bindings};
ghost use Rattle.mv_bindings.specs.Bindings.{bound_to, free, events_from};
ghost use Rattle.mv_ast.specs.Orders.{is_addressed, is_pointer_addressed, ordered_from, ordered_function, ordered_pointer, bindings_after, bound_from, bound_after, ordered, polled};
ghost use Rattle.mv_bindings.specs.OrderNumbers.{is_commit};
ghost use Rattle.mv_interpret.specs.Runs.{world_of};
ghost use Rattle.mv_interpret.specs.Answers.{HasAnswered, CarriedOut};

use crate::numbers::function_of_number;
use crate::reads::switch_global;
use crate::state::{Here, State, put_word, word_at};
use crate::work::count_attributed;
use mv_ast::program::{Function, Program};
use mv_bindings::action::Action;
use mv_bindings::binding::{Binding, Event};
use mv_bindings::orders;
use mv_num::list::List;
use std::alloc::{AllocError, Global};

/// Whether a number is one of some numbers.
pub fn is_among(n: u32, all: &[u32]) -> bool
    ensures { result ≡ is_among n all.now }
{
    for m in all {
        if n == *m {
            return true;
        }
    }
    false
}

// Whether a value is in the domain of a switch.
fn in_domain(program: &Program, switch: u32, value: u32) -> bool
    ensures { result ≡ is_among value (switch_domain program.now switch) }
{
    match program.switches.get(switch as usize) {
        Some(s) => is_among(value, s.values.as_slice()),
        None => false,
    }
}

// The number in memory of each of some switches.
fn switch_words(
    alloc: Global,
    program: &Program,
    globals: &List<List<u32>>,
    switches: &[u32],
) -> Result<List<u32>, AllocError>
    ensures { IfOk result (λ words. words ≡ switch_words program.now globals.now switches.now) }
{
    let mut words = List::new(alloc);
    for s in switches {
        words.push(word_at(globals, switch_global(program, *s), 0))?;
    }
    Ok(words)
}

// Whether each value is in the domain of its switch.
fn all_in_domain(program: &Program, switches: &[u32], values: &[u32]) -> bool
    ensures { result ≡ all_in_domain program.now switches.now values.now }
{
    for (i, s) in switches.iter().enumerate() {
        if i >= values.len() {
            return true;
        }
        if !in_domain(program, *s, values[i]) {
            return false;
        }
    }
    true
}

// A value, and 0 behind the last.
fn value_at(values: &[u32], i: usize) -> u32
    ensures { result ≡ slice_index values.now i }
{
    if i < values.len() { values[i] } else { 0 }
}

// The binding to the values of at most six switches.
fn bound_to(values: &[u32]) -> Binding
    ensures { result ≡ bound_to values.now }
{
    let count = if values.len() < 6 {
        values.len() as u32
    } else {
        6
    };
    Binding {
        bound: true,
        count,
        values: [
            value_at(values, 0),
            value_at(values, 1),
            value_at(values, 2),
            value_at(values, 3),
            value_at(values, 4),
            value_at(values, 5),
        ],
    }
}

// What a commit binds a function to.
fn committed(
    alloc: Global,
    program: &Program,
    globals: &List<List<u32>>,
    f: &Function,
) -> Result<Binding, AllocError>
    ensures { IfOk result (λ b. b ≡ committed program.now globals.now f.now) }
{
    let words = switch_words(alloc, program, globals, f.switches.as_slice())?;
    Ok(if all_in_domain(program, f.switches.as_slice(), words.as_slice()) {
        bound_to(words.as_slice())
    } else {
        Binding::free()
    })
}

// What a commit binds a pointer switch to: the function that has the number in memory.
fn pointed(program: &Program, globals: &List<List<u32>>, global: u32) -> Binding
    ensures { result ≡ pointed (own_numbers program.now) globals.now global }
{
    let number = word_at(globals, global, 0);
    match function_of_number(program, number) {
        None => Binding::free(),
        Some(_) => bound_to(&[number]),
    }
}

// A commit or a revert by its code, with the index of the function or the switch that it names.
#[derive(Clone, Copy, Debug)]
struct Order {
    code: u8,
    index: u32,
}

// Whether an order addresses an attributed function, given with its number among them.
fn is_addressed(order: Order, number: usize, f: &Function) -> bool
    ensures { result ≡ is_addressed order.code order.index number f.now }
{
    if order.code < orders::COMMIT_FUNCTION {
        true
    } else if order.code < orders::COMMIT_REFERENCES {
        number == order.index as usize
    } else {
        is_among(order.index, f.switches.as_slice())
    }
}

// Whether it addresses a pointer switch, given with its number among them.
fn is_pointer_addressed(program: &Program, order: Order, number: usize, global: u32) -> bool
    ensures { result ≡ is_pointer_addressed program.now order.code order.index number global }
{
    if order.code < orders::COMMIT_FUNCTION {
        true
    } else if order.code < orders::COMMIT_REFERENCES {
        false
    } else {
        // an index below the number of switches is none of a pointer switch
        let index = order.index as usize;
        let switches = program.switches.len();
        index >= switches && index - switches == number
    }
}

fn is_commit(code: u8) -> bool
    ensures { result ≡ is_commit code }
{
    code == orders::COMMIT || code == orders::COMMIT_FUNCTION || code == orders::COMMIT_REFERENCES
}

// What an order binds an attributed function to that had a binding.
fn next_binding(
    alloc: Global,
    program: &Program,
    order: Order,
    number: usize,
    globals: &List<List<u32>>,
    f: &Function,
    old: Binding,
) -> Result<Binding, AllocError>
    ensures { IfOk result (λ b. b ≡ (if is_addressed order.code order.index number f.now then ordered_function program.now order.code globals.now f.now else old)) }
{
    if !is_addressed(order, number, f) {
        return Ok(old);
    }
    if is_commit(order.code) {
        committed(alloc, program, globals, f)
    } else {
        Ok(Binding::free())
    }
}

// The bindings of the attributed functions after an order on these globals.
fn functions_after(
    alloc: Global,
    program: &Program,
    order: Order,
    globals: &List<List<u32>>,
    bindings: &[Binding],
) -> Result<List<Binding>, AllocError>
    ensures { IfOk result (λ bs. bs ≡ ordered_from (is_addressed order.code order.index) (ordered_function program.now order.code globals.now) 0 (attributed_functions program.now) bindings.now) }
{
    let mut after = List::new(alloc);
    let mut number = 0;
    for f in program.functions.as_slice() {
        if !f.attributed {
            continue;
        }
        if number >= bindings.len() {
            return Ok(after);
        }
        let binding = next_binding(alloc, program, order, number, globals, f, bindings[number])?;
        after.push(binding)?;
        number += 1;
    }
    Ok(after)
}

// What an order binds a pointer switch to that had a binding.
fn next_pointer(
    program: &Program,
    order: Order,
    number: usize,
    globals: &List<List<u32>>,
    global: u32,
    old: Binding,
) -> Binding
    ensures { result ≡ (if is_pointer_addressed program.now order.code order.index number global then ordered_pointer (own_numbers program.now) order.code globals.now global else old) }
{
    if !is_pointer_addressed(program, order, number, global) {
        return old;
    }
    if is_commit(order.code) {
        pointed(program, globals, global)
    } else {
        Binding::free()
    }
}

// Adds the bindings of the pointer switches after an order on these globals.
fn add_pointers_after(
    program: &Program,
    order: Order,
    globals: &List<List<u32>>,
    bindings: &[Binding],
    after: &mut List<Binding>,
) -> Result<(), AllocError>
    ensures { OnOk result (after.new ≡ after.old ++ ordered_from (is_pointer_addressed program.now order.code order.index) (ordered_pointer (own_numbers program.now) order.code globals.now) 0 program.now.pointers bindings.now) }
{
    for (number, global) in program.pointers.as_slice().iter().enumerate() {
        if number >= bindings.len() {
            return Ok(());
        }
        after.push(next_pointer(program, order, number, globals, *global, bindings[number]))?;
    }
    Ok(())
}

// The bindings of the pointer switches, behind those of the attributed functions.
fn pointers_of<'a>(program: &Program, bindings: &'a [Binding]) -> &'a [Binding]
    ensures { result.now ≡ pointer_bindings program.now bindings.now }
{
    let functions = count_attributed(program) as usize;
    if functions < bindings.len() {
        &bindings[functions..]
    } else {
        &[]
    }
}

// The bindings after an order on these globals.
fn bindings_after(
    alloc: Global,
    program: &Program,
    order: Order,
    globals: &List<List<u32>>,
    bindings: &[Binding],
) -> Result<List<Binding>, AllocError>
    ensures { IfOk result (λ bs. bs ≡ bindings_after program.now (own_numbers program.now) order.code order.index globals.now bindings.now) }
{
    let mut after = functions_after(alloc, program, order, globals, bindings)?;
    add_pointers_after(
        program,
        order,
        globals,
        pointers_of(program, bindings),
        &mut after,
    )?;
    Ok(after)
}

// 1 for an addressed function that is bound.
fn one_if_bound(order: Order, number: usize, f: &Function, binding: Binding) -> u32
    ensures { result ≡ (if is_addressed order.code order.index number f.now && binding.bound then 1 else 0) }
{
    if is_addressed(order, number, f) && binding.bound {
        1
    } else {
        0
    }
}

// How many addressed functions are bound.
fn count_bound(program: &Program, order: Order, bindings: &[Binding]) -> u32
    requires { length program.now.functions < 2 ^ 32 }
    ensures few { result ≤ length program.now.functions }
    ensures count { result ≡ bound_from (is_addressed order.code order.index) 0 (attributed_functions program.now) bindings.now }
{
    let mut bound = 0;
    let mut number = 0;
    for f in program.functions.as_slice() {
        if !f.attributed {
            continue;
        }
        if number >= bindings.len() {
            return bound;
        }
        bound += one_if_bound(order, number, f, bindings[number]);
        number += 1;
    }
    bound
}

// 1 for an addressed pointer switch that is bound.
fn one_if_pointer_bound(
    program: &Program,
    order: Order,
    number: usize,
    global: u32,
    binding: Binding,
) -> u32
    ensures { result ≡ (if is_pointer_addressed program.now order.code order.index number global && binding.bound then 1 else 0) }
{
    if is_pointer_addressed(program, order, number, global) && binding.bound {
        1
    } else {
        0
    }
}

// How many addressed pointer switches are bound.
fn count_pointers_bound(program: &Program, order: Order, bindings: &[Binding]) -> u32
    requires { length program.now.pointers < 2 ^ 32 }
    ensures few { result ≤ length program.now.pointers }
    ensures count { result ≡ bound_from (is_pointer_addressed program.now order.code order.index) 0 program.now.pointers bindings.now }
{
    let mut bound = 0;
    for (number, global) in program.pointers.as_slice().iter().enumerate() {
        if number >= bindings.len() {
            return bound;
        }
        bound += one_if_pointer_bound(program, order, number, *global, bindings[number]);
    }
    bound
}

// How many of what an order addresses are bound.
fn bound_after(program: &Program, order: Order, bindings: &[Binding]) -> u32
    requires { length program.now.functions + length program.now.pointers < 2 ^ 32 }
    ensures { result ≡ bound_after program.now order.code order.index bindings.now }
{
    count_bound(program, order, bindings)
        + count_pointers_bound(program, order, pointers_of(program, bindings))
}

// Adds one event for each binding that differs.
fn push_events(old: &[Binding], new: &[Binding], log: &mut List<Event>) -> Result<(), AllocError>
    requires { length new.now < 2 ^ 32 }
    ensures { OnOk result (log.new ≡ log.old ++ events_from 0 old.now new.now) }
{
    for (i, binding) in new.iter().enumerate() {
        if i < old.len() && old[i] != *binding {
            log.push(Event {
                function: i as u32,
                binding: *binding,
            })?;
        }
    }
    Ok(())
}

// Carries out an order, where no frame of an attributed function is live, and answers it.
fn carry_out(program: &Program, order: Order, state: &mut State) -> Result<u32, AllocError>
    requires { length program.now.functions + length program.now.pointers < 2 ^ 32 }
    ensures { IfOk result (CarriedOut program.now order.code order.index state.old state.new) }
{
    let after = bindings_after(
        state.alloc,
        program,
        order,
        &state.globals,
        state.bindings.as_slice(),
    )?;
    push_events(state.bindings.as_slice(), after.as_slice(), &mut state.log)?;
    let answer = if is_commit(order.code) {
        bound_after(program, order, after.as_slice())
    } else {
        0
    };
    state.bindings = after;
    Ok(answer)
}

/// A commit or a revert, refused with -1 while a frame of an attributed function is live.
pub fn ordered(
    program: &Program,
    here: Here,
    code: u8,
    index: u32,
    state: &mut State,
) -> Result<u32, AllocError>
    requires { length program.now.functions + length program.now.pointers < 2 ^ 32 }
    ensures { IfOk result (HasAnswered (ordered program.now (own_numbers program.now) code index (world_of here state.old)) here state.old state.new) }
{
    if here.live == 0 {
        carry_out(program, Order { code, index }, state)
    } else {
        Ok(0xFFFF_FFFF)
    }
}

/// The point at which the operator acts: a poll takes the next action, but nothing while a frame of an attributed function is live.
pub fn polled(program: &Program, here: Here, state: &mut State) -> Result<u32, AllocError>
    requires { length program.now.functions + length program.now.pointers < 2 ^ 32 }
    ensures { IfOk result (HasAnswered (polled program.now (own_numbers program.now) (world_of here state.old)) here state.old state.new) }
{
    if here.live != 0 || state.acted >= state.actions.len() {
        return Ok(0);
    }
    let action = state.actions.as_slice()[state.acted];
    state.acted += 1;
    match action {
        Action::Skip => Ok(0),
        Action::Flip { switch, value } => {
            let global = switch_global(program, switch);
            put_word(state.alloc, &mut state.globals, global, 0, value);
            carry_out(program, Order { code: 0, index: 0 }, state)?;
            Ok(1)
        }
    }
}

// A free binding for each attributed function.
fn free_functions(alloc: Global, program: &Program) -> Result<List<Binding>, AllocError>
    ensures { IfOk result (λ bs. bs ≡ map (λ f. free) (attributed_functions program.now)) }
{
    let mut bindings = List::new(alloc);
    for f in program.functions.as_slice() {
        if f.attributed {
            bindings.push(Binding::free())?;
        }
    }
    Ok(bindings)
}

// Adds so many free bindings.
fn add_free(globals: &[u32], bindings: &mut List<Binding>) -> Result<(), AllocError>
    ensures { OnOk result (bindings.new ≡ bindings.old ++ map (λ g. free) globals.now) }
{
    for _global in globals {
        bindings.push(Binding::free())?;
    }
    Ok(())
}

/// The bindings at the start: all functions and pointer switches are free.
pub fn all_free(alloc: Global, program: &Program) -> Result<List<Binding>, AllocError>
    ensures { IfOk result (λ bs. bs ≡ all_free program.now) }
{
    let mut bindings = free_functions(alloc, program)?;
    add_free(program.pointers.as_slice(), &mut bindings)?;
    Ok(bindings)
}
