//! The switches and pointer switches of a program.

ghost use Rattle.std.specs.Prelude.{◌≡◌, ◌<◌, ◌^◌, length, slice_get, Some, IfOk};
ghost use Rattle.mv_parts.specs.Switches as spec;

use mv_ast::program::{Global as Object, Program, Switch};
use mv_link_data::words_of_size;
use mv_linker::{PartPointer, PartSwitch};
use mv_num::list::List;
use mv_num::text::Text;
use mv_variants::switch_kind;
use std::alloc::{AllocError, Global};

/// The switches of a program, in order of declaration.
pub fn part_switches(alloc: Global, program: &Program) -> Result<List<PartSwitch>, AllocError>
    requires { spec.HasSwitches program.now }
    ensures { IfOk result (λ parts. parts ≡ spec.part_switches program.now) }
{
    let mut parts = List::new(alloc);
    for (number, switch) in program.switches.as_slice().iter().enumerate() {
        parts.push(part_switch(alloc, program, number as u32, switch)?)?;
    }
    Ok(parts)
}

// The switch with a number.
fn part_switch(
    alloc: Global,
    program: &Program,
    number: u32,
    switch: &Switch,
) -> Result<PartSwitch, AllocError>
    requires has { spec.HasSwitches program.now }
    requires there { slice_get program.now.switches number ≡ Some switch.now }
    ensures { IfOk result (λ part. part ≡ spec.part_switch program.now switch.now) }
{
    let global = &program.globals.as_slice()[switch.global as usize];
    Ok(PartSwitch {
        name: Text::new(alloc, global.name.bytes())?,
        word: word_of(program, switch.global as usize),
        kind: switch_kind(program, number),
        values: switch.values.copied(alloc)?,
    })
}

/// The pointer switches of a program, in order of declaration.
pub fn part_pointers(alloc: Global, program: &Program) -> Result<List<PartPointer>, AllocError>
    requires { spec.HasSwitches program.now }
    ensures { IfOk result (λ parts. parts ≡ spec.part_pointers program.now) }
{
    let mut parts = List::new(alloc);
    for global in program.pointers.as_slice() {
        parts.push(part_pointer(alloc, program, *global)?)?;
    }
    Ok(parts)
}

// The pointer switch that a global is.
fn part_pointer(alloc: Global, program: &Program, global: u32) -> Result<PartPointer, AllocError>
    requires has { spec.HasSwitches program.now }
    requires there { global < length program.now.globals }
    ensures { IfOk result (λ part. part ≡ spec.part_pointer program.now global) }
{
    let object = &program.globals.as_slice()[global as usize];
    Ok(PartPointer {
        name: Text::new(alloc, object.name.bytes())?,
        word: word_of(program, global as usize),
    })
}

/// What pointer switches may be bound to: the names of all functions, and none where there is no pointer switch.
pub fn part_targets(alloc: Global, program: &Program) -> Result<List<Text>, AllocError>
    ensures { IfOk result (λ targets. targets ≡ spec.part_targets program.now) }
{
    let mut targets = List::new(alloc);
    if program.pointers.len() == 0 {
        return Ok(targets);
    }
    for function in program.functions.as_slice() {
        targets.push(Text::new(alloc, function.name.bytes())?)?;
    }
    Ok(targets)
}

// The index of a global's word in data.
fn word_of(program: &Program, global: usize) -> u32
    requires few { spec.HasSwitches program.now }
    requires there { global < length program.now.globals }
    ensures { result ≡ spec.word_of program.now global }
{
    words_of(&program.globals.as_slice()[..global])
}

// How many words some globals have together.
fn words_of(globals: &[Object]) -> u32
    requires { spec.words_of globals.now < 2 ^ 32 }
    ensures { result ≡ spec.words_of globals.now }
{
    let mut words = 0;
    for global in globals {
        words += words_of_size(global.size);
    }
    words
}
