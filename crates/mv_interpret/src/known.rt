// The functions that are known without declaration.

ghost use Rattle.mv_ast.specs.Numbering.{own_numbers};
ghost use Rattle.mv_meaning.specs.Meaning.{get_byte, put_byte, known_value};
ghost use Rattle.mv_interpret.specs.Runs.{IsReady, IsOutcome, world_of};

use crate::arguments::Arguments;
use crate::commits::{ordered, polled};
use crate::state::{Halt, Here, State, count};
use mv_ast::program::{Known, Program};
use mv_meaning::state::Frame;
use std::alloc::AllocError;

// The next byte of the input, or -1 at its end (C11 7.21.7.6).
fn get_byte(here: Here, frame: &Frame, state: &mut State) -> Result<u32, Halt>
    ensures { IsOutcome state.old.work (get_byte frame.now (world_of here state.old)) here result frame.now state.new }
{
    let _work = state.work;
    let at = state.taken;
    if at < state.input.len() {
        let byte = state.input.as_slice()[at];
        state.taken = at + 1;
        Ok(byte as u32)
    } else {
        Ok(0xFFFF_FFFF)
    }
}

// Writes the low byte of a value, and gives it (C11 7.21.7.8).
fn put_byte(here: Here, value: u32, frame: &Frame, state: &mut State) -> Result<u32, Halt>
    ensures { IsOutcome state.old.work (put_byte value frame.now (world_of here state.old)) here result frame.now state.new }
{
    let _work = state.work;
    let byte = value % 256;
    match state.output.push(byte as u8) {
        Ok(()) => Ok(byte),
        Err(e) => Err(Halt::Memory(AllocError::from(e))),
    }
}

/// The value of a known function.
pub fn known_value(
    program: &Program,
    here: Here,
    known: Known,
    values: &Arguments,
    frame: &Frame,
    state: &mut State,
) -> Result<u32, Halt>
    requires { IsReady program.now here.depth here.live here.plan_work }
    ensures { IsOutcome state.old.work (known_value program.now (own_numbers program.now) known values.now frame.now (world_of here state.old)) here result frame.now state.new }
{
    let _work = state.work;
    match known {
        Known::Getchar => get_byte(here, frame, state),
        Known::Putchar => match values.as_slice().first() {
            Some(v) => put_byte(here, *v, frame, state),
            None => put_byte(here, 0, frame, state),
        },
        Known::Poll => {
            let answer = polled(program, here, state)?;
            if answer == 1 {
                count(state, here.plan_work);
            }
            Ok(answer)
        }
        Known::Plan(code, index) => {
            let answer = ordered(program, here, code, index, state)?;
            count(state, here.plan_work);
            Ok(answer)
        }
    }
}
