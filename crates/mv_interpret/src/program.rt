// The interpretation of a whole program.

ghost use Rattle.std.specs.Prelude.{◌≡◌, ℕ, ◌+◌, ◌<◌, ◌≤◌, ◌^◌, length, IfOk};
ghost use Rattle.mv_meaning.specs.Meaning.{mean};
ghost use Rattle.mv_meaning.specs.Growth.{Extends, with_capped_work};
ghost use Rattle.mv_interpret.specs.Runs.{IsReady};
ghost use Rattle.mv_interpret.specs.Programs.{IsStart, HasRun, HasEnd};

use crate::arguments::Arguments;
use crate::commits::all_free;
use crate::interpreter::{flow_of_all, returned_value};
use crate::objects::{first_globals, frame_of};
use crate::state::{Halt, Here, State};
use crate::work::plan_work;
use mv_ast::program::Program;
use mv_bindings::action::Action;
use mv_bindings::stop::Stop;
use mv_meaning::meant::{End, Meant};
use mv_meaning::state::Flow;
use mv_num::list::List;
use std::alloc::{AllocError, Global};

// The state in which a program starts.
fn start(
    alloc: Global,
    program: &Program,
    input: &[u8],
    actions: &[Action],
) -> Result<State, AllocError>
    ensures { IfOk result (IsStart program.now input.now actions.now) }
{
    let globals = first_globals(alloc, program)?;
    let bindings = all_free(alloc, program)?;
    let input = List::from_vec(Vec::from_slice(alloc, input)?);
    let actions = List::from_vec(Vec::from_slice(alloc, actions)?);
    Ok(State {
        alloc,
        globals,
        input,
        taken: 0,
        output: List::new(alloc),
        bindings,
        actions,
        acted: 0,
        log: List::new(alloc),
        work: 0,
    })
}

// Runs the body of `main`.
fn run_main(program: &Program, here: Here, state: &mut State) -> Result<Flow, Halt>
    requires { IsReady program.now here.depth here.live here.plan_work }
    ensures { HasRun program.now here state.old result state.new }
{
    let _work = state.work;
    match program.functions.get(program.main as usize) {
        None => Ok(Flow::Goes),
        Some(main) => {
            let mut frame = frame_of(
                state.alloc,
                main,
                program.main,
                &Arguments::new(state.alloc),
            )?;
            flow_of_all(program, here, 0, &main.body, &mut frame, state)
        }
    }
}

// The end of a program whose `main` came to this.
fn end_of(flow: Result<Flow, Halt>) -> Result<End, AllocError>
    ensures { IfOk result (HasEnd flow) }
{
    match flow {
        Ok(flow) => Ok(End::Exit((returned_value(flow) % 256) as u8)),
        Err(halt) => match halt {
            Halt::Stopped(stop) => match stop {
                Stop::Trapped(code) => Ok(End::Trap(code)),
                Stop::Unfinished => Ok(End::More),
            },
            Halt::Memory(e) => Err(e),
        },
    }
}

/// What a program means at a bound, on an input and with the operator's actions: the reference interpreter.
/// A call of a defined function is evaluated at the bound below, and so is a loop that goes back to its start; where
/// either is due at bound 0, the end is `More`. The first clause says that the answer is the meaning, its work stopping
/// at the greatest number of 64 bits; the second that the meaning at each greater bound extends it. Each function and
/// pointer switch must have a number of 32 bits above 0.
pub fn evaluate(
    alloc: Global,
    program: &Program,
    input: &[u8],
    actions: &[Action],
    bound: u32,
) -> Result<Meant, AllocError>
    requires { length program.now.functions + length program.now.pointers < 2 ^ 32 }
    ensures meaning { IfOk result (λ meant. meant ≡ with_capped_work (mean program.now input.now actions.now bound)) }
    ensures goes_on { IfOk result (λ meant. (greater : ℕ) → bound ≤ greater → Extends meant (with_capped_work (mean program.now input.now actions.now greater))) }
{
    let mut state = start(alloc, program, input, actions)?;
    let here = Here {
        bound,
        depth: 0,
        live: 0,
        plan_work: plan_work(program),
    };
    let flow = run_main(program, here, &mut state);
    let end = end_of(flow)?;
    Ok(Meant {
        output: state.output,
        taken: state.taken as u64,
        end,
        bindings: state.bindings,
        log: state.log,
        work: state.work,
    })
}
