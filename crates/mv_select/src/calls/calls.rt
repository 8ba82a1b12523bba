//! The code of calls, of functions and of known functions.

ghost use Rattle.std.specs.Prelude.{◌≡◌, ◌+◌, ◌<◌, ◌≤◌, ◌++◌, pos, All, length, IfSome, OnOk};
ghost use Rattle.mv_ir.specs.Measures.{callee_trees};
ghost use Rattle.mv_select_code.specs.Trees.TreeCode.{seats_at};
ghost use Rattle.mv_select_code.specs.Statements.Encoded.{IsSmall};
ghost use Rattle.mv_select.specs.Calls.CallCode.{result_lines, argument_lines, depth_lines, guard_lines, back_lines, slot_lines, entry_lines, guarded_lines, jump_lines, pointer_lines, transfer_lines, pad_lines, call_lines, order_lines, ask_lines, known_lines, request_of, is_marked};

use mv_ast::program::Known;
use mv_bindings::traps::{CALL_TOO_DEEP, NULL_CALL};
use mv_ir::stm::Callee;
use mv_ir::tree::Tree;
use mv_isa::Instr;
use mv_isa::labelled::Line;
use mv_isa::labels::{COMMIT, ENTRIES, TRAPS};
use mv_isa::requests::{PLAN, POLL, READ, WRITE};
use mv_num::list::List;
use mv_select_code::statements::write_temp;
use mv_select_code::trees::places::Places;
use mv_select_code::trees::{place_of, push_into, push_number, push_one, push_tree};
use std::alloc::AllocError;

/// The return address, ra.
const LINK: u8 = 1;
/// The first argument and the result, a0.
const FIRST: u8 = 10;
/// The second argument, a1.
const SECOND: u8 = 11;
/// The number of an environment call, a7.
const REQUEST: u8 = 17;
/// How many calls are left, s11.
const LEFT: u8 = 27;
/// The address that a call goes to, t3. An argument is computed by way of it and the registers behind it.
const SCRATCH: u8 = 28;
/// The instruction that does nothing.
const NOP: Instr = Instr::Addi {
    rd: 0,
    rs1: 0,
    imm: 0,
};

// The result of a call into a temporary, if it has one.
fn push_result(
    code: &mut List<Line>,
    places: Places<'_>,
    temp: Option<u32>,
) -> Result<(), AllocError>
    requires { IfSome temp (λ t. t < 507) }
    ensures { OnOk result (code.new ≡ code.old ++ result_lines (seats_at places.entry.rooms.now places.entry.keeping places.entry.pins.now) temp) }
{
    match temp {
        None => Ok(()),
        Some(temp) => push_one(code, write_temp(places, temp, FIRST)),
    }
}

// Arguments into registers from one on.
fn push_arguments(
    code: &mut List<Line>,
    places: Places<'_>,
    arguments: &[Tree],
) -> Result<(), AllocError>
    requires few { length arguments.now < 9 }
    requires small { All IsSmall arguments.now }
    ensures { OnOk result (code.new ≡ code.old ++ argument_lines (seats_at places.entry.rooms.now places.entry.keeping places.entry.pins.now) 10 arguments.now) }
{
    for (index, argument) in arguments.iter().enumerate() {
        push_into(code, places, argument, FIRST + index as u8, SCRATCH)?;
    }
    Ok(())
}

// Trap 4 where no call is left.
fn push_depth(code: &mut List<Line>) -> Result<(), AllocError>
    ensures { OnOk result (code.new ≡ code.old ++ depth_lines) }
{
    code.push(Line::Branch(0, LEFT, 0, TRAPS + u32::from(CALL_TOO_DEEP)))?;
    Ok(())
}

// One call less is left; trap 4 where none is.
fn push_guard(code: &mut List<Line>) -> Result<(), AllocError>
    ensures { OnOk result (code.new ≡ code.old ++ guard_lines) }
{
    push_depth(code)?;
    push_one(
        code,
        Instr::Addi {
            rd: LEFT,
            rs1: LEFT,
            imm: -1,
        },
    )
}

// One call more is left again, and the result comes into its temporary.
fn push_back(code: &mut List<Line>, places: Places<'_>, temp: Option<u32>) -> Result<(), AllocError>
    requires { IfSome temp (λ t. t < 507) }
    ensures { OnOk result (code.new ≡ code.old ++ back_lines (seats_at places.entry.rooms.now places.entry.keeping places.entry.pins.now) temp) }
{
    push_one(
        code,
        Instr::Addi {
            rd: LEFT,
            rs1: LEFT,
            imm: 1,
        },
    )?;
    push_result(code, places, temp)
}

// A call by a slot.
fn push_slot(
    code: &mut List<Line>,
    places: Places<'_>,
    function: u32,
    temp: Option<u32>,
) -> Result<(), AllocError>
    requires { IfSome temp (λ t. t < 507) }
    ensures { OnOk result (code.new ≡ code.old ++ guarded_lines (seats_at places.entry.rooms.now places.entry.keeping places.entry.pins.now) (slot_lines function) temp) }
{
    push_guard(code)?;
    code.push(Line::Slot(function))?;
    push_back(code, places, temp)
}

// A call of a function that isn't attributed.
fn push_entry(
    code: &mut List<Line>,
    places: Places<'_>,
    function: u32,
    temp: Option<u32>,
) -> Result<(), AllocError>
    requires { IfSome temp (λ t. t < 507) }
    ensures { OnOk result (code.new ≡ code.old ++ guarded_lines (seats_at places.entry.rooms.now places.entry.keeping places.entry.pins.now) (entry_lines function) temp) }
{
    push_guard(code)?;
    code.push(Line::Jump(LINK, ENTRIES + function % ENTRIES))?;
    push_back(code, places, temp)
}

// A call to the address in t3.
fn push_jump(code: &mut List<Line>, places: Places<'_>, temp: Option<u32>) -> Result<(), AllocError>
    requires { IfSome temp (λ t. t < 507) }
    ensures { OnOk result (code.new ≡ code.old ++ guarded_lines (seats_at places.entry.rooms.now places.entry.keeping places.entry.pins.now) jump_lines temp) }
{
    push_guard(code)?;
    push_one(
        code,
        Instr::Jalr {
            rd: LINK,
            rs1: SCRATCH,
            imm: 0,
        },
    )?;
    push_back(code, places, temp)
}

// A call to the address in t3, with a trap where it is null.
fn push_pointer(
    code: &mut List<Line>,
    places: Places<'_>,
    temp: Option<u32>,
) -> Result<(), AllocError>
    requires { IfSome temp (λ t. t < 507) }
    ensures { OnOk result (code.new ≡ code.old ++ pointer_lines (seats_at places.entry.rooms.now places.entry.keeping places.entry.pins.now) temp) }
{
    code.push(Line::Branch(0, SCRATCH, 0, TRAPS + u32::from(NULL_CALL)))?;
    push_jump(code, places, temp)
}

// The call, its arguments in their registers.
fn push_transfer(
    code: &mut List<Line>,
    places: Places<'_>,
    marked: &[u32],
    callee: &Callee,
    temp: Option<u32>,
) -> Result<(), AllocError>
    requires temp { IfSome temp (λ t. t < 507) }
    requires small { All IsSmall (callee_trees callee.now) }
    ensures { OnOk result (code.new ≡ code.old ++ transfer_lines (seats_at places.entry.rooms.now places.entry.keeping places.entry.pins.now) (is_marked marked.now) callee.now temp) }
{
    match callee {
        Callee::Direct(function) => {
            if marked.contains(function) {
                push_slot(code, places, *function, temp)
            } else {
                push_entry(code, places, *function, temp)
            }
        }
        Callee::Through(pointer) => {
            push_tree(code, places, pointer, SCRATCH)?;
            push_pointer(code, places, temp)
        }
        Callee::Switched(global) => {
            code.push(Line::Point(place_of(places.rooms, *global)))?;
            push_back(code, places, temp)
        }
        Callee::Expanded => push_depth(code),
    }
}

// What stands before a call through a pointer switch that has no arguments, so that no other call returns to its first word.
fn push_pad(code: &mut List<Line>, callee: &Callee, arguments: &[Tree]) -> Result<(), AllocError>
    ensures { OnOk result (code.new ≡ code.old ++ pad_lines callee.now arguments.now) }
{
    match callee {
        Callee::Switched(_) if arguments.is_empty() => push_one(code, NOP),
        _ => Ok(()),
    }
}

/// Calls a function, and puts its result into a temporary where one is named. `marked` has the attributed functions that are
/// called directly: such a call is a slot, and one through a pointer switch a slot of four words. Null is trap 3, and a call too
/// many trap 4.
pub fn push_call(
    code: &mut List<Line>,
    places: Places<'_>,
    marked: &[u32],
    temp: Option<u32>,
    callee: &Callee,
    arguments: &[Tree],
) -> Result<(), AllocError>
    requires temp { IfSome temp (λ t. t < 507) }
    requires few { length arguments.now < 9 }
    requires small { All IsSmall arguments.now }
    requires small_callee { All IsSmall (callee_trees callee.now) }
    ensures { OnOk result (code.new ≡ code.old ++ call_lines (seats_at places.entry.rooms.now places.entry.keeping places.entry.pins.now) (is_marked marked.now) temp callee.now arguments.now) }
{
    push_pad(code, callee, arguments)?;
    push_arguments(code, places, arguments)?;
    push_transfer(code, places, marked, callee, temp)
}

// The numbers of an order.
fn push_order(code: &mut List<Line>, known: Known) -> Result<(), AllocError>
    ensures { OnOk result (code.new ≡ code.old ++ order_lines known) }
{
    match known {
        Known::Plan(order, index) => {
            push_one(
                code,
                Instr::Addi {
                    rd: FIRST,
                    rs1: 0,
                    imm: i32::from(order),
                },
            )?;
            push_number(code, index, SECOND)
        }
        Known::Getchar | Known::Putchar | Known::Poll => Ok(()),
    }
}

// The number of the environment call that a known function makes.
fn request_of(known: Known) -> i32
    ensures { result ≡ pos (request_of known) }
{
    match known {
        Known::Getchar => READ as i32,
        Known::Putchar => WRITE as i32,
        Known::Plan(_, _) => PLAN as i32,
        Known::Poll => POLL as i32,
    }
}

// The environment call, or the jump to the stub that makes it.
fn push_ask(code: &mut List<Line>, known: Known) -> Result<(), AllocError>
    ensures { OnOk result (code.new ≡ code.old ++ ask_lines known) }
{
    match known {
        Known::Getchar | Known::Putchar => push_one(code, Instr::Ecall),
        Known::Plan(_, _) | Known::Poll => {
            code.push(Line::Jump(LINK, COMMIT))?;
            Ok(())
        }
    }
}

/// Calls a known function, and puts its answer into a temporary where one is named.
pub fn push_known(
    code: &mut List<Line>,
    places: Places<'_>,
    temp: Option<u32>,
    known: Known,
    arguments: &[Tree],
) -> Result<(), AllocError>
    requires temp { IfSome temp (λ t. t < 507) }
    requires few { length arguments.now < 9 }
    requires small { All IsSmall arguments.now }
    ensures { OnOk result (code.new ≡ code.old ++ known_lines (seats_at places.entry.rooms.now places.entry.keeping places.entry.pins.now) temp known arguments.now) }
{
    push_arguments(code, places, arguments)?;
    push_order(code, known)?;
    push_one(
        code,
        Instr::Addi {
            rd: REQUEST,
            rs1: 0,
            imm: request_of(known),
        },
    )?;
    push_ask(code, known)?;
    push_result(code, places, temp)
}
