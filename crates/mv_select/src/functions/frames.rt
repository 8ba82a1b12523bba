//! The entry of a function, which makes its frame, and its return, which takes it down.

ghost use Rattle.std.specs.Prelude.{◌≡◌, ◌+◌, ◌<◌, ◌≤◌, ◌++◌, length, OnOk};
ghost use Rattle.mv_select.specs.Functions.FunctionCode.{saved_seats, first_saved, saved_count, saved_register, save_lines, restore_lines, parameter_lines, enter_lines, leave_lines, prologue_lines, epilogue_lines, move_lines, entry_by, return_by, seated_of, bytes_of};
ghost use Rattle.mv_select.specs.Functions.Outlines.{outlined};
ghost use Rattle.mv_select.specs.Functions.Pins.{pin_lines, first_pin, moving_words};

use crate::frame::words_of;
use crate::pins::first_pin;
use mv_isa::Instr;
use mv_isa::labelled::Line;
use mv_num::list::List;
use mv_select_code::trees::places::{Keeping, Pin};
use mv_select_code::trees::{push_number, push_one, push_two, temp_register};
use std::alloc::AllocError;

/// The return address, ra.
const LINK: u8 = 1;
/// The stack pointer, sp.
const STACK: u8 = 2;
/// The first argument, a0.
const FIRST: u8 = 10;
/// How many attributed frames are live, s10.
const LIVE: u8 = 26;

// How many of s1 to s9 have a temporary or a number.
fn saved_seats(keeping: Keeping, temps: u32, pins: &[Pin]) -> u32
    ensures count { result ≡ saved_seats keeping (first_pin keeping temps + length pins.now) }
    ensures few { result ≤ 9 }
{
    let seated = u128::from(first_pin(keeping, temps)) + pins.len() as u128;
    match keeping {
        Keeping::Saved => seated.min(9) as u32,
        Keeping::Arguments => 0,
        Keeping::Mixed => seated.saturating_sub(8).min(9) as u32,
    }
}

// The first word with a saved register.
fn first_saved(keeping: Keeping) -> u32
    ensures first { result ≡ first_saved keeping }
    ensures few { result ≤ 1 }
{
    match keeping {
        Keeping::Saved => 0,
        Keeping::Arguments | Keeping::Mixed => 1,
    }
}

// How many registers a frame saves.
fn saved_count(keeping: Keeping, temps: u32, pins: &[Pin]) -> u32
    ensures count { result ≡ saved_count keeping (first_pin keeping temps + length pins.now) }
    ensures few { first_saved keeping + result ≤ 10 }
{
    saved_seats(keeping, temps, pins) + 1 - first_saved(keeping)
}

// The register that a frame saves in one of its first words.
fn saved_register(index: u32) -> u8
    requires { index < 10 }
    ensures { result ≡ saved_register index }
{
    if index == 0 {
        LINK
    } else {
        temp_register(index - 1)
    }
}

// Registers are saved, from a word on.
#[tactic(auto, using(crate::proofs::OfFunctions::Equations::frames))]
fn push_save(code: &mut List<Line>, first: u32, count: u32) -> Result<(), AllocError>
    requires { first + count ≤ 10 }
    ensures { OnOk result (code.new ≡ code.old ++ save_lines first count) }
{
    for index in 0..count {
        push_one(
            code,
            Instr::Sw {
                rs1: STACK,
                rs2: saved_register(first + index),
                imm: (4 * (first + index)) as i32,
            },
        )?;
    }
    Ok(())
}

// Registers are restored, from a word on.
#[tactic(auto, using(crate::proofs::OfFunctions::Equations::frames))]
fn push_restore(code: &mut List<Line>, first: u32, count: u32) -> Result<(), AllocError>
    requires { first + count ≤ 10 }
    ensures { OnOk result (code.new ≡ code.old ++ restore_lines first count) }
{
    for index in 0..count {
        push_one(
            code,
            Instr::Lw {
                rd: saved_register(first + index),
                rs1: STACK,
                imm: (4 * (first + index)) as i32,
            },
        )?;
    }
    Ok(())
}

// Parameters come into the registers of the first temporaries.
#[tactic(auto, using(crate::proofs::OfFunctions::Equations::frames))]
fn push_parameters(code: &mut List<Line>, count: u32) -> Result<(), AllocError>
    requires { count ≤ 8 }
    ensures { OnOk result (code.new ≡ code.old ++ parameter_lines count) }
{
    for index in 0..count {
        push_one(
            code,
            Instr::Addi {
                rd: temp_register(index),
                rs1: FIRST + index as u8,
                imm: 0,
            },
        )?;
    }
    Ok(())
}

// Numbers come into their registers.
fn push_pins(code: &mut List<Line>, pins: &[Pin]) -> Result<(), AllocError>
    ensures { OnOk result (code.new ≡ code.old ++ pin_lines pins.now) }
{
    for pin in pins {
        push_number(code, pin.number, pin.register)?;
    }
    Ok(())
}

// An attributed function counts as live.
fn push_enter(code: &mut List<Line>, attributed: bool) -> Result<(), AllocError>
    ensures { OnOk result (code.new ≡ code.old ++ enter_lines attributed) }
{
    if attributed {
        push_one(
            code,
            Instr::Addi {
                rd: LIVE,
                rs1: LIVE,
                imm: 1,
            },
        )
    } else {
        Ok(())
    }
}

// It does so no longer.
fn push_leave(code: &mut List<Line>, attributed: bool) -> Result<(), AllocError>
    ensures { OnOk result (code.new ≡ code.old ++ leave_lines attributed) }
{
    if attributed {
        push_one(
            code,
            Instr::Addi {
                rd: LIVE,
                rs1: LIVE,
                imm: -1,
            },
        )
    } else {
        Ok(())
    }
}

/// A function's own numbers, with the bytes of its frame.
#[derive(Clone, Copy, Debug, Drop)]
pub struct Outline<'a> {
    pub attributed: bool,
    pub keeping: Keeping,
    pub params: u32,
    pub temps: u32,
    /// How many words each array has.
    pub arrays: &'a [u32],
    /// The numbers that stand in registers.
    pub pins: &'a [Pin],
    pub bytes: u32,
}

// Moves sp, where the arrays have words.
fn push_move(code: &mut List<Line>, arrays: &[u32], bytes: i32) -> Result<(), AllocError>
    ensures { OnOk result (code.new ≡ code.old ++ move_lines arrays.now bytes) }
{
    if words_of(arrays) == 0 {
        return Ok(());
    }
    push_one(
        code,
        Instr::Addi {
            rd: STACK,
            rs1: STACK,
            imm: bytes,
        },
    )
}

/// The entry of a function: its frame is made, and its parameters and numbers come to their registers. One that keeps all its temporaries
/// where arguments come needs a frame for arrays alone.
pub fn push_entry(code: &mut List<Line>, outline: Outline<'_>) -> Result<(), AllocError>
    requires params { outline.params ≤ 8 }
    requires bytes { outline.bytes ≡ bytes_of (outlined outline) }
    requires few { outline.bytes ≤ 2032 }
    ensures { OnOk result (code.new ≡ code.old ++ entry_by outline.entry.keeping (outlined outline.entry)) }
{
    match outline.keeping {
        Keeping::Saved | Keeping::Mixed => push_prologue(code, outline),
        Keeping::Arguments => {
            push_move(code, outline.arrays, -(outline.bytes as i32))?;
            push_pins(code, outline.pins)
        }
    }
}

/// The return of a function: its frame is taken down.
pub fn push_return(code: &mut List<Line>, outline: Outline<'_>) -> Result<(), AllocError>
    requires bytes { outline.bytes ≡ bytes_of (outlined outline) }
    requires few { outline.bytes ≤ 2032 }
    ensures { OnOk result (code.new ≡ code.old ++ return_by outline.entry.keeping (outlined outline.entry)) }
{
    match outline.keeping {
        Keeping::Saved | Keeping::Mixed => push_epilogue(code, outline),
        Keeping::Arguments => {
            push_move(code, outline.arrays, outline.bytes as i32)?;
            push_one(
                code,
                Instr::Jalr {
                    rd: 0,
                    rs1: LINK,
                    imm: 0,
                },
            )
        }
    }
}

// How many parameters come to other registers.
fn moved_parameters(keeping: Keeping, params: u32) -> u32
    requires { params ≤ 8 }
    ensures count { result ≡ moving_words keeping params }
    ensures few { result ≤ 8 }
{
    match keeping {
        Keeping::Saved => params,
        Keeping::Arguments | Keeping::Mixed => 0,
    }
}

// Makes the frame of a function that saves registers, and puts its parameters into its first temporaries, and numbers into registers.
fn push_prologue(code: &mut List<Line>, outline: Outline<'_>) -> Result<(), AllocError>
    requires params { outline.params ≤ 8 }
    requires bytes { outline.bytes ≤ 2032 }
    ensures { let o = outlined outline.entry in
        OnOk result (code.new ≡ code.old ++ prologue_lines o.keeping o.attributed o.params (seated_of o) outline.entry.bytes o.pins) }
{
    push_one(
        code,
        Instr::Addi {
            rd: STACK,
            rs1: STACK,
            imm: -(outline.bytes as i32),
        },
    )?;
    let count = saved_count(outline.keeping, outline.temps, outline.pins);
    push_save(code, first_saved(outline.keeping), count)?;
    push_parameters(code, moved_parameters(outline.keeping, outline.params))?;
    push_pins(code, outline.pins)?;
    push_enter(code, outline.attributed)
}

// Takes the frame of a function that saves registers down, and returns.
fn push_epilogue(code: &mut List<Line>, outline: Outline<'_>) -> Result<(), AllocError>
    requires { outline.bytes ≤ 2032 }
    ensures { let o = outlined outline.entry in
        OnOk result (code.new ≡ code.old ++ epilogue_lines o.keeping o.attributed (seated_of o) outline.entry.bytes) }
{
    push_leave(code, outline.attributed)?;
    let count = saved_count(outline.keeping, outline.temps, outline.pins);
    push_restore(code, first_saved(outline.keeping), count)?;
    push_two(
        code,
        Instr::Addi {
            rd: STACK,
            rs1: STACK,
            imm: outline.bytes as i32,
        },
        Instr::Jalr {
            rd: 0,
            rs1: LINK,
            imm: 0,
        },
    )
}
