// The leaves of trees: numbers, temporaries and globals.
ghost use Rattle.std.specs.Prelude.{◌≡◌, ◌<◌, ◌++◌, pos, OnOk};
ghost use Rattle.mv_select_code.specs.Trees.TreeCode.{upper_bits, lower_bits, near, number_lines, load_lines, seats_at, temp_register, temp_offset, read_temp};
ghost use Rattle.mv_select_code.specs.Trees.Rooms.{place_in};

use crate::trees::lines::{push_one, push_two};
use crate::trees::places::Places;
use mv_ir::body::Room;
use mv_isa::Instr;
use mv_isa::labelled::Line;
use mv_num::list::List;
use mv_num::regions::{DATA_START, GP_VALUE, TP_VALUE};
use std::alloc::AllocError;

/// The global pointer, gp.
const GP: u8 = 3;

/// The thread pointer, tp.
const TP: u8 = 4;

/// The address of a global's first word, and 0 where it has no room.
pub fn place_of(rooms: &[Room], global: u32) -> u32
    ensures { result ≡ place_in rooms.now global }
{
    for room in rooms {
        if room.global == global {
            return room.at;
        }
    }
    0
}

/// The upper 20 bits of a number, for LUI.
#[tactic(auto, unfolding(crate::specs::Trees::TreeCode::upper_bits))]
pub fn upper_bits(n: u32) -> i32
    ensures { result ≡ pos (upper_bits n) }
{
    ((u64::from(n) + 2048) / 4096 % 1_048_576) as i32
}

/// What is added to the upper bits of a number.
#[tactic(auto, unfolding(crate::specs::Trees::TreeCode::lower_bits))]
pub fn lower_bits(n: u32) -> i32
    ensures { result ≡ lower_bits n }
{
    let low = (n % 4096) as i32;
    if low < 2048 { low } else { low - 4096 }
}

/// Puts code at the end that leaves a number in a register.
#[tactic(auto, unfolding(crate::specs::Trees::TreeCode::number_lines))]
pub fn push_number(code: &mut List<Line>, n: u32, rd: u8) -> Result<(), AllocError>
    ensures { OnOk result (code.new ≡ code.old ++ number_lines n rd) }
{
    let upper = upper_bits(n);
    let imm = lower_bits(n);
    if upper == 0 {
        push_one(code, Instr::Addi { rd, rs1: 0, imm })
    } else {
        push_two(
            code,
            Instr::Lui { rd, imm: upper },
            Instr::Addi { rd, rs1: rd, imm },
        )
    }
}

/// An address that a register reaches: the register, and what is added to it.
#[derive(Clone, Copy, PartialEq, Eq, Debug)]
pub struct Based {
    pub base: u8,
    pub offset: i32,
}

/// How gp or tp reaches an address of the first 8,192 bytes of data.
#[tactic(auto, unfolding(crate::specs::Trees::TreeCode::near))]
pub fn near(address: u32) -> Option<Based>
    ensures { result ≡ near address }
{
    if address >= DATA_START && address < DATA_START + 4096 {
        Some(Based {
            base: GP,
            offset: address as i32 - GP_VALUE as i32,
        })
    } else if address >= DATA_START + 4096 && address < DATA_START + 8192 {
        Some(Based {
            base: TP,
            offset: address as i32 - TP_VALUE as i32,
        })
    } else {
        None
    }
}

/// Puts code at the end that leaves the word at an address in a register, and changes no other.
#[tactic(auto, unfolding(crate::specs::Trees::TreeCode::load_lines))]
pub fn push_load(code: &mut List<Line>, address: u32, rd: u8) -> Result<(), AllocError>
    ensures { OnOk result (code.new ≡ code.old ++ load_lines address rd) }
{
    match near(address) {
        Some(Based { base, offset }) => push_one(
            code,
            Instr::Lw {
                rd,
                rs1: base,
                imm: offset,
            },
        ),
        None => {
            let imm = lower_bits(address);
            push_two(
                code,
                Instr::Lui {
                    rd,
                    imm: upper_bits(address),
                },
                Instr::Lw { rd, rs1: rd, imm },
            )
        }
    }
}

/// The register of one of the first nine temporaries.
#[tactic(auto, unfolding(crate::specs::Trees::TreeCode::temp_register))]
pub fn temp_register(temp: u32) -> u8
    requires { temp < 9 }
    ensures { result ≡ temp_register temp }
{
    if temp == 0 { 9 } else { 17 + temp as u8 }
}

/// The place of another temporary in the frame, in bytes above sp.
#[tactic(auto, unfolding(crate::specs::Trees::TreeCode::temp_offset))]
pub fn temp_offset(temp: u32) -> i32
    requires { temp < 507 }
    ensures { result ≡ pos (temp_offset temp) }
{
    (4 * (temp + 1)) as i32
}

/// The instruction that reads a temporary into a register.
#[tactic(auto, unfolding(crate::specs::Trees::TreeCode::read_temp))]
pub(crate) fn read_temp(places: Places<'_>, temp: u32, rd: u8) -> Instr
    requires { temp < 507 }
    ensures { result ≡ read_temp (seats_at places.entry.rooms.now places.entry.keeping places.entry.pins.now) temp rd }
{
    match places.keeping.register(temp) {
        Some(rs1) => Instr::Addi { rd, rs1, imm: 0 },
        None => Instr::Lw {
            rd,
            rs1: 2,
            imm: temp_offset(temp),
        },
    }
}
