// Operators on a register and a number, which stands in the instruction.
ghost use Rattle.std.specs.Prelude.{◌≡◌, ◌++◌, OnOk};
ghost use Rattle.mv_select_code.specs.Trees.TreeCode.{short_immediate, count_immediate, immediate, immediate_of, immediate_lines, literal};

use crate::trees::leaves::{lower_bits, upper_bits};
use crate::trees::lines::{push_one, push_two};
use mv_ir::tree::Tree;
use mv_isa::Instr;
use mv_isa::labelled::Line;
use mv_num::list::List;
use mv_num::word::sub;
use std::alloc::AllocError;

fn short_immediate(n: u32) -> Option<i32>
    ensures { result ≡ short_immediate n }
{
    if upper_bits(n) == 0 {
        Some(lower_bits(n))
    } else {
        None
    }
}

fn count_immediate(n: u32) -> Option<i32>
    ensures { result ≡ count_immediate n }
{
    if n < 32 { Some(n as i32) } else { None }
}

// What stands for a number at the right of an operator, if that is possible.
#[tactic(auto, using(crate::proofs::OfTrees::Equations::immediates))]
fn immediate(operator: u8, n: u32) -> Option<i32>
    ensures { result ≡ immediate operator n }
{
    match operator {
        0 => short_immediate(n),
        1 => short_immediate(sub(0, n)),
        2 => None,
        3 => short_immediate(n),
        4 => short_immediate(n),
        5 => short_immediate(n),
        6 => count_immediate(n),
        7 => count_immediate(n),
        8 => count_immediate(n),
        9 => short_immediate(n),
        10 => short_immediate(n),
        11 => short_immediate(sub(0, n)),
        12 => short_immediate(sub(0, n)),
        _ => None,
    }
}

/// What stands in an instruction for a tree at the right of an operator, by its number in `mv_ir::operators`, where the tree is
/// a number that fits: from -2048 to 2047, negated for a difference, `==` and `!=`; or the count of a shift, below 32.
#[tactic(auto, unfolding(crate::specs::Trees::TreeCode::immediate_of))]
pub(crate) fn immediate_of(operator: u8, tree: &Tree) -> Option<i32>
    ensures { result ≡ immediate_of operator tree.now }
{
    match literal(tree) {
        Some(n) => immediate(operator, n),
        None => None,
    }
}

/// The number that a tree is written as.
#[tactic(auto, using(crate::proofs::OfTrees::Equations::trees))]
pub fn literal(tree: &Tree) -> Option<u32>
    ensures { result ≡ literal tree.now }
{
    match tree {
        Tree::Number(n) => Some(*n),
        Tree::Temp(_) => None,
        Tree::Global(_) => None,
        Tree::Function(_) => None,
        Tree::Unary(_, _) => None,
        Tree::Binary(_, _, _) => None,
        Tree::Narrow(_, _) => None,
    }
}

/// An operator on a register and what stands for a number at its right.
#[tactic(auto, using(crate::proofs::OfTrees::Equations::immediate_operators))]
pub(crate) fn push_immediate(
    code: &mut List<Line>,
    operator: u8,
    rd: u8,
    rs1: u8,
    imm: i32,
) -> Result<(), AllocError>
    ensures { OnOk result (code.new ≡ code.old ++ immediate_lines operator rd rs1 imm) }
{
    let difference = Instr::Addi { rd, rs1, imm };
    match operator {
        0 => push_one(code, difference),
        1 => push_one(code, difference),
        2 => push_one(code, Instr::Addi { rd, rs1: 0, imm: 0 }),
        3 => push_one(code, Instr::Andi { rd, rs1, imm }),
        4 => push_one(code, Instr::Ori { rd, rs1, imm }),
        5 => push_one(code, Instr::Xori { rd, rs1, imm }),
        6 => push_one(code, Instr::Slli { rd, rs1, imm }),
        7 => push_one(code, Instr::Srai { rd, rs1, imm }),
        8 => push_one(code, Instr::Srli { rd, rs1, imm }),
        9 => push_one(code, Instr::Slti { rd, rs1, imm }),
        10 => push_one(code, Instr::Sltiu { rd, rs1, imm }),
        11 => push_two(
            code,
            difference,
            Instr::Sltiu {
                rd,
                rs1: rd,
                imm: 1,
            },
        ),
        12 => push_two(
            code,
            difference,
            Instr::Sltu {
                rd,
                rs1: 0,
                rs2: rd,
            },
        ),
        _ => push_one(code, Instr::Addi { rd, rs1: 0, imm: 0 }),
    }
}
