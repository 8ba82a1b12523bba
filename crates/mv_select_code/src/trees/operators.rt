ghost use Rattle.std.specs.Prelude.{◌≡◌, ◌<◌, ◌++◌, OnOk};
ghost use Rattle.mv_select_code.specs.Trees.TreeCode.{unary_lines, binary_lines, keeps_words, narrow_lines};

use crate::trees::lines::{push_one, push_two};
use mv_isa::Instr;
use mv_isa::labelled::Line;
use mv_num::kind::Kind;
use mv_num::list::List;
use std::alloc::AllocError;

/// Negation, complement or logical not of a register, by its number in `mv_ir::operators`. Any other number gives 0.
#[tactic(auto, using(crate::proofs::OfTrees::Equations::unary_operators))]
pub(crate) fn push_unary(
    code: &mut List<Line>,
    operator: u8,
    rd: u8,
    operand: u8,
) -> Result<(), AllocError>
    ensures { OnOk result (code.new ≡ code.old ++ unary_lines operator rd operand) }
{
    match operator {
        0 => push_one(
            code,
            Instr::Sub {
                rd,
                rs1: 0,
                rs2: operand,
            },
        ),
        1 => push_one(
            code,
            Instr::Xori {
                rd,
                rs1: operand,
                imm: -1,
            },
        ),
        2 => push_one(
            code,
            Instr::Sltiu {
                rd,
                rs1: operand,
                imm: 1,
            },
        ),
        _ => push_one(code, Instr::Addi { rd, rs1: 0, imm: 0 }),
    }
}

/// An operator on two registers, by its number in `mv_ir::operators`. Any other number gives 0.
#[tactic(auto, using(crate::proofs::OfTrees::Equations::binary_operators))]
pub(crate) fn push_binary(
    code: &mut List<Line>,
    operator: u8,
    rd: u8,
    rs1: u8,
    rs2: u8,
) -> Result<(), AllocError>
    ensures { OnOk result (code.new ≡ code.old ++ binary_lines operator rd rs1 rs2) }
{
    let difference = Instr::Sub { rd, rs1, rs2 };
    match operator {
        0 => push_one(code, Instr::Add { rd, rs1, rs2 }),
        1 => push_one(code, difference),
        2 => push_one(code, Instr::Mul { rd, rs1, rs2 }),
        3 => push_one(code, Instr::And { rd, rs1, rs2 }),
        4 => push_one(code, Instr::Or { rd, rs1, rs2 }),
        5 => push_one(code, Instr::Xor { rd, rs1, rs2 }),
        6 => push_one(code, Instr::Sll { rd, rs1, rs2 }),
        7 => push_one(code, Instr::Sra { rd, rs1, rs2 }),
        8 => push_one(code, Instr::Srl { rd, rs1, rs2 }),
        9 => push_one(code, Instr::Slt { rd, rs1, rs2 }),
        10 => push_one(code, Instr::Sltu { rd, rs1, rs2 }),
        11 => push_two(
            code,
            difference,
            Instr::Sltiu {
                rd,
                rs1: rd,
                imm: 1,
            },
        ),
        12 => push_two(
            code,
            difference,
            Instr::Sltu {
                rd,
                rs1: 0,
                rs2: rd,
            },
        ),
        _ => push_one(code, Instr::Addi { rd, rs1: 0, imm: 0 }),
    }
}

/// Whether a conversion to this kind leaves each word as it is.
pub(crate) fn keeps_words(kind: Kind) -> bool
    ensures { result ≡ keeps_words kind }
{
    matches!(kind, Kind::Int | Kind::UInt)
}

/// A conversion of a register: to `_Bool` by a comparison with 0, to `char` and `short` types by a shift to the left, and one
/// back with the sign or with zeros.
#[tactic(auto, unfolding(crate::specs::Trees::TreeCode::narrow_lines))]
pub(crate) fn push_narrow(
    code: &mut List<Line>,
    kind: Kind,
    rd: u8,
    operand: u8,
) -> Result<(), AllocError>
    ensures { OnOk result (code.new ≡ code.old ++ narrow_lines kind rd operand) }
{
    let byte = Instr::Slli {
        rd,
        rs1: operand,
        imm: 24,
    };
    let half = Instr::Slli {
        rd,
        rs1: operand,
        imm: 16,
    };
    let rs1 = rd;
    match kind {
        Kind::Bool => push_one(
            code,
            Instr::Sltu {
                rd,
                rs1: 0,
                rs2: operand,
            },
        ),
        Kind::SChar => push_two(code, byte, Instr::Srai { rd, rs1, imm: 24 }),
        Kind::UChar => push_two(code, byte, Instr::Srli { rd, rs1, imm: 24 }),
        Kind::Short => push_two(code, half, Instr::Srai { rd, rs1, imm: 16 }),
        Kind::UShort => push_two(code, half, Instr::Srli { rd, rs1, imm: 16 }),
        Kind::Int | Kind::UInt => push_one(
            code,
            Instr::Addi {
                rd,
                rs1: operand,
                imm: 0,
            },
        ),
    }
}
