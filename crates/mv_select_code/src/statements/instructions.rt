// Single instructions of statements.
ghost use Rattle.std.specs.Prelude.{◌≡◌, ◌<◌, ◌≤◌, ◌++◌, OnOk};
ghost use Rattle.mv_select_code.specs.Trees.TreeCode.{seats_at};
ghost use Rattle.mv_select_code.specs.Statements.StatementCode.{write_temp, target, keep_lines, is_seat, division, power_below, power_of, power_division};

use crate::trees::places::Places;
use crate::trees::{push_one, temp_offset};
use mv_isa::Instr;
use mv_isa::labelled::Line;
use mv_num::list::List;
use std::alloc::AllocError;

/// The register of a statement's first tree, t3.
pub(crate) const FIRST: u8 = 28;
/// That of its second tree, t0.
pub(crate) const SECOND: u8 = 5;
/// One more for addresses and sizes, t4.
pub(crate) const THIRD: u8 = 29;

/// The instruction that puts a register into a temporary.
#[tactic(auto, unfolding(crate::specs::Statements::StatementCode::write_temp))]
pub fn write_temp(places: Places<'_>, temp: u32, register: u8) -> Instr
    requires { temp < 507 }
    ensures { result ≡ write_temp (seats_at places.entry.rooms.now places.entry.keeping places.entry.pins.now) temp register }
{
    match places.keeping.register(temp) {
        Some(rd) => Instr::Addi {
            rd,
            rs1: register,
            imm: 0,
        },
        None => Instr::Sw {
            rs1: 2,
            rs2: register,
            imm: temp_offset(temp),
        },
    }
}

/// The register in which the new value of a temporary is computed: its own, and the first one for a temporary of the frame.
#[tactic(auto, unfolding(crate::specs::Statements::StatementCode::target))]
pub(crate) fn target(places: Places<'_>, temp: u32) -> u8
    ensures { result ≡ target (seats_at places.entry.rooms.now places.entry.keeping places.entry.pins.now) temp }
{
    places.keeping.register(temp).unwrap_or(FIRST)
}

/// Puts the value from there into the frame, if the temporary stands there.
#[tactic(auto, unfolding(crate::specs::Statements::StatementCode::keep_lines))]
pub(crate) fn push_keep(
    code: &mut List<Line>,
    places: Places<'_>,
    temp: u32,
) -> Result<(), AllocError>
    requires { temp < 507 }
    ensures { OnOk result (code.new ≡ code.old ++ keep_lines (seats_at places.entry.rooms.now places.entry.keeping places.entry.pins.now) temp) }
{
    if places.keeping.register(temp).is_some() {
        return Ok(());
    }
    push_one(
        code,
        Instr::Sw {
            rs1: 2,
            rs2: FIRST,
            imm: temp_offset(temp),
        },
    )
}

/// Whether a temporary's register, if it has one, is that in which a value stands already.
pub(crate) fn is_seat(seat: Option<u8>, own: Option<u8>) -> bool
    ensures { result ≡ is_seat seat own }
{
    match (seat, own) {
        (Some(q), Some(p)) => q == p,
        _ => false,
    }
}

/// A division of two registers, by its number in `mv_ir::operators`. Any other number gives 0.
#[tactic(auto, using(crate::proofs::OfStatements::Equations::divisions))]
pub(crate) fn division(operator: u8, rd: u8, rs1: u8, rs2: u8) -> Instr
    ensures { result ≡ division operator rd rs1 rs2 }
{
    match operator {
        0 => Instr::Div { rd, rs1, rs2 },
        1 => Instr::Divu { rd, rs1, rs2 },
        2 => Instr::Rem { rd, rs1, rs2 },
        3 => Instr::Remu { rd, rs1, rs2 },
        _ => Instr::Addi { rd, rs1: 0, imm: 0 },
    }
}

// The k below a bound for which 2 ^ k is a number.
#[tactic(auto, using(crate::proofs::OfStatements::Equations::powers))]
fn power_below(bound: u8, n: u32) -> Option<u8>
    requires { bound ≤ 32 }
    ensures { result ≡ power_below bound n }
{
    if bound == 0 {
        return None;
    }
    let k = bound - 1;
    if n == 1 << k {
        Some(k)
    } else {
        power_below(k, n)
    }
}

/// The power of two that a divisor is written as, where one instruction divides by it: any for a quotient without signs, for
/// such a remainder one up to 2 ^ 11.
#[tactic(auto, using(crate::proofs::OfStatements::Equations::powers))]
pub(crate) fn power_of(operator: u8, divisor: Option<u32>) -> Option<u8>
    ensures { result ≡ power_of operator divisor }
{
    match (operator, divisor) {
        (1, Some(n)) => power_below(32, n),
        (3, Some(n)) => power_below(12, n),
        _ => None,
    }
}

/// A division of a register by such a power of two: a shift to the right, or the last bits.
#[tactic(auto, unfolding(crate::specs::Statements::StatementCode::power_division))]
pub(crate) fn power_division(operator: u8, k: u8, rd: u8, rs1: u8) -> Instr
    requires { k < 32 }
    ensures { result ≡ power_division operator k rd rs1 }
{
    if operator == 1 {
        Instr::Srli {
            rd,
            rs1,
            imm: i32::from(k),
        }
    } else {
        let power: u32 = 1 << k;
        Instr::Andi {
            rd,
            rs1,
            imm: (power - 1) as i32,
        }
    }
}
