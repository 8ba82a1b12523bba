//! The code of a whole body.

ghost use Rattle.std.specs.Prelude.{◌≡◌, ◌≤◌, IfOk, MatchResult};
ghost use Rattle.mv_ir.specs.Measures.{deepest};
ghost use Rattle.mv_ir.specs.WellFormed.{IsWellFormed};
ghost use Rattle.mv_select.specs.Functions.FunctionCode.{frame_bytes, led};
ghost use Rattle.mv_select.specs.Functions.Functions.{keeping_of};
ghost use Rattle.mv_select.specs.Selected.{layout_in, IsSuitable, IsSelected, PassesFrame, OnFrame};

use crate::calls::Calls;
use crate::error::SelectError;
use crate::frame::{frame_bytes, spaces};
use crate::functions::{Outline, push_entry, push_return};
use crate::pins::pins_of;
use crate::silent::calls_nothing;
use mv_ir::body::Body;
use mv_isa::Instr;
use mv_isa::labelled::{Labelled, Line};
use mv_num::list::List;
use mv_select_code::control::emitter::Emitter;
use mv_select_code::control::enclosing::Way;
use mv_select_code::control::layout::Layout;
use mv_select_code::control::push_statements;
use mv_select_code::trees::places::{Keeping, Places};
use std::alloc::{AllocError, Global};

/// The greatest frame, in bytes.
const MOST: u128 = 2032;

/// The instruction that does nothing.
const NOP: Instr = Instr::Addi {
    rd: 0,
    rs1: 0,
    imm: 0,
};

/// The label of a function's end. Those of its body come behind it.
const END: u32 = 0;

// The bytes of a function's frame, if there are few enough.
fn fitting_bytes(body: &Body, function: u32) -> Result<u32, SelectError>
    ensures { MatchResult result (λ bytes. (bytes ≡ frame_bytes body.now.temps body.now.arrays) × (bytes ≤ 2032))
        (λ e. OnFrame e (PassesFrame function body.now)) }
{
    let bytes = frame_bytes(body.temps, body.arrays.as_slice());
    if bytes <= MOST {
        Ok(bytes as u32)
    } else {
        Err(SelectError::Frame {
            function,
            bytes: bytes.min(u128::from(u64::MAX)) as u64,
        })
    }
}

// In which registers a body keeps its temporaries.
fn keeping_of(body: &Body, attributed: bool) -> Keeping
    ensures { result ≡ keeping_of attributed body.now }
{
    if attributed || !calls_nothing(&body.code) {
        Keeping::Saved
    } else if body.temps < 9 {
        Keeping::Arguments
    } else {
        Keeping::Mixed
    }
}

// Where things stand in a body whose frame is small enough. Its end has the first label.
fn layout_of(alloc: Global, body: &Body, attributed: bool) -> Result<Layout, AllocError>
    requires { frame_bytes body.now.temps body.now.arrays ≤ 2032 }
    ensures { IfOk result (λ layout. layout ≡ layout_in attributed body.now) }
{
    let keeping = keeping_of(body, attributed);
    Ok(Layout {
        rooms: body.rooms.copied(alloc)?,
        keeping,
        pins: pins_of(alloc, body, keeping)?,
        arrays: spaces(alloc, body.temps, body.arrays.as_slice())?,
        end: END,
    })
}

// Lines that begin with a word.
fn led(alloc: Global, lines: List<Line>) -> Result<List<Line>, AllocError>
    ensures { IfOk result (λ all. all ≡ led lines) }
{
    match lines.as_slice() {
        [Line::Label(_), ..] => {
            let mut all = List::new(alloc);
            all.push(Line::Word(NOP))?;
            for line in lines.as_slice() {
                all.push(*line)?;
            }
            Ok(all)
        }
        _ => Ok(lines),
    }
}

// The code of a body whose frame has so many bytes.
fn written(alloc: Global, body: &Body, attributed: bool, bytes: u32) -> Result<Labelled, AllocError>
    requires suitable { IsSuitable body.now }
    requires bytes { bytes ≡ frame_bytes body.now.temps body.now.arrays }
    requires few { bytes ≤ 2032 }
    ensures { IfOk result (λ code. IsSelected attributed body.now code) }
{
    let layout = layout_of(alloc, body, attributed)?;
    let outline = Outline {
        attributed,
        keeping: layout.keeping,
        params: body.params,
        temps: body.temps,
        arrays: body.arrays.as_slice(),
        pins: layout.pins.as_slice(),
        bytes,
    };
    let calls = Calls {
        places: Places {
            rooms: body.rooms.as_slice(),
            keeping: layout.keeping,
            pins: layout.pins.as_slice(),
        },
        marked: body.marked.as_slice(),
    };
    let mut emitter = Emitter::new(alloc, END + 1);
    push_entry(&mut emitter.lines, outline)?;
    let way = Way {
        after: END,
        falls: true,
    };
    push_statements(&mut emitter, &layout, &calls, &body.code, way)?;
    emitter.lines.push(Line::Label(END))?;
    push_return(&mut emitter.lines, outline)?;
    let Emitter {
        lines,
        around: _,
        free,
    } = emitter;
    Ok(Labelled {
        items: led(alloc, lines)?,
        labels: free,
    })
}

/// The code of a function, given by its body and whether it is attributed. It makes the frame, carries the body out and takes the
/// frame down. What this code does is said by `function_code_law` of `mv_select::functions`, and what stands in it by `selection_law`.
///
/// The body is well formed, and no tree has more than four nodes one below the other. `Frame` comes where the frame needs more
/// than 2,032 bytes, and only there. `function` is the number that this error names.
pub fn select(
    alloc: Global,
    body: &Body,
    attributed: bool,
    function: u32,
) -> Result<Labelled, SelectError>
    requires { IsSuitable body.now }
    ensures { MatchResult result (λ code. IsSelected attributed body.now code) (λ e. OnFrame e (PassesFrame function body.now)) }
{
    let bytes = fitting_bytes(body, function)?;
    written(alloc, body, attributed, bytes).map_err(SelectError::Memory)
}
