ghost use Rattle.std.specs.Prelude.{◌≡◌, ◌<◌};
ghost use Rattle.mv_isa.specs.Encoding.{Fits};
ghost use Rattle.mv_asmtext.specs.Mnemonics.{parts_of};

use crate::mnemonic::Mnemonic;
use crate::operand::Registers;
use crate::register::Register;
use mv_isa::Instr;

/// An instruction by its name and operands. Operands that it doesn't have are 0.
#[derive(Clone, Copy)]
pub struct Parts {
    pub mnemonic: Mnemonic,
    pub registers: Registers,
    pub imm: i32,
}

fn with_operands(mnemonic: Mnemonic, rd: u8, rs1: u8, rs2: u8, imm: i32) -> Parts
    requires rd { rd < 32 }
    requires rs1 { rs1 < 32 }
    requires rs2 { rs2 < 32 }
    ensures { result ≡ record { mnemonic = mnemonic; registers = record { rd = rd; rs1 = rs1; rs2 = rs2 }; imm = imm } }
{
    Parts {
        mnemonic,
        registers: Registers {
            rd: Register::new(rd),
            rs1: Register::new(rs1),
            rs2: Register::new(rs2),
        },
        imm,
    }
}

/// Takes an instruction apart.
#[tactic(auto, unfolding(crate::specs::Mnemonics::parts_of))]
pub fn taken_apart(instr: Instr) -> Parts
    requires { Fits instr }
    ensures { result ≡ parts_of instr }
{
    // An arm for each instruction.
    match instr {
        Instr::Lui { rd, imm } => with_operands(Mnemonic::Lui, rd, 0, 0, imm),
        Instr::Auipc { rd, imm } => with_operands(Mnemonic::Auipc, rd, 0, 0, imm),
        Instr::Jal { rd, imm } => with_operands(Mnemonic::Jal, rd, 0, 0, imm),
        Instr::Jalr { rd, rs1, imm } => with_operands(Mnemonic::Jalr, rd, rs1, 0, imm),
        Instr::Beq { rs1, rs2, imm } => with_operands(Mnemonic::Beq, 0, rs1, rs2, imm),
        Instr::Bne { rs1, rs2, imm } => with_operands(Mnemonic::Bne, 0, rs1, rs2, imm),
        Instr::Blt { rs1, rs2, imm } => with_operands(Mnemonic::Blt, 0, rs1, rs2, imm),
        Instr::Bge { rs1, rs2, imm } => with_operands(Mnemonic::Bge, 0, rs1, rs2, imm),
        Instr::Bltu { rs1, rs2, imm } => with_operands(Mnemonic::Bltu, 0, rs1, rs2, imm),
        Instr::Bgeu { rs1, rs2, imm } => with_operands(Mnemonic::Bgeu, 0, rs1, rs2, imm),
        Instr::Lb { rd, rs1, imm } => with_operands(Mnemonic::Lb, rd, rs1, 0, imm),
        Instr::Lh { rd, rs1, imm } => with_operands(Mnemonic::Lh, rd, rs1, 0, imm),
        Instr::Lw { rd, rs1, imm } => with_operands(Mnemonic::Lw, rd, rs1, 0, imm),
        Instr::Lbu { rd, rs1, imm } => with_operands(Mnemonic::Lbu, rd, rs1, 0, imm),
        Instr::Lhu { rd, rs1, imm } => with_operands(Mnemonic::Lhu, rd, rs1, 0, imm),
        Instr::Sb { rs1, rs2, imm } => with_operands(Mnemonic::Sb, 0, rs1, rs2, imm),
        Instr::Sh { rs1, rs2, imm } => with_operands(Mnemonic::Sh, 0, rs1, rs2, imm),
        Instr::Sw { rs1, rs2, imm } => with_operands(Mnemonic::Sw, 0, rs1, rs2, imm),
        Instr::Addi { rd, rs1, imm } => with_operands(Mnemonic::Addi, rd, rs1, 0, imm),
        Instr::Slti { rd, rs1, imm } => with_operands(Mnemonic::Slti, rd, rs1, 0, imm),
        Instr::Sltiu { rd, rs1, imm } => with_operands(Mnemonic::Sltiu, rd, rs1, 0, imm),
        Instr::Xori { rd, rs1, imm } => with_operands(Mnemonic::Xori, rd, rs1, 0, imm),
        Instr::Ori { rd, rs1, imm } => with_operands(Mnemonic::Ori, rd, rs1, 0, imm),
        Instr::Andi { rd, rs1, imm } => with_operands(Mnemonic::Andi, rd, rs1, 0, imm),
        Instr::Slli { rd, rs1, imm } => with_operands(Mnemonic::Slli, rd, rs1, 0, imm),
        Instr::Srli { rd, rs1, imm } => with_operands(Mnemonic::Srli, rd, rs1, 0, imm),
        Instr::Srai { rd, rs1, imm } => with_operands(Mnemonic::Srai, rd, rs1, 0, imm),
        Instr::Add { rd, rs1, rs2 } => with_operands(Mnemonic::Add, rd, rs1, rs2, 0),
        Instr::Sub { rd, rs1, rs2 } => with_operands(Mnemonic::Sub, rd, rs1, rs2, 0),
        Instr::Sll { rd, rs1, rs2 } => with_operands(Mnemonic::Sll, rd, rs1, rs2, 0),
        Instr::Slt { rd, rs1, rs2 } => with_operands(Mnemonic::Slt, rd, rs1, rs2, 0),
        Instr::Sltu { rd, rs1, rs2 } => with_operands(Mnemonic::Sltu, rd, rs1, rs2, 0),
        Instr::Xor { rd, rs1, rs2 } => with_operands(Mnemonic::Xor, rd, rs1, rs2, 0),
        Instr::Srl { rd, rs1, rs2 } => with_operands(Mnemonic::Srl, rd, rs1, rs2, 0),
        Instr::Sra { rd, rs1, rs2 } => with_operands(Mnemonic::Sra, rd, rs1, rs2, 0),
        Instr::Or { rd, rs1, rs2 } => with_operands(Mnemonic::Or, rd, rs1, rs2, 0),
        Instr::And { rd, rs1, rs2 } => with_operands(Mnemonic::And, rd, rs1, rs2, 0),
        Instr::Mul { rd, rs1, rs2 } => with_operands(Mnemonic::Mul, rd, rs1, rs2, 0),
        Instr::Mulh { rd, rs1, rs2 } => with_operands(Mnemonic::Mulh, rd, rs1, rs2, 0),
        Instr::Mulhsu { rd, rs1, rs2 } => with_operands(Mnemonic::Mulhsu, rd, rs1, rs2, 0),
        Instr::Mulhu { rd, rs1, rs2 } => with_operands(Mnemonic::Mulhu, rd, rs1, rs2, 0),
        Instr::Div { rd, rs1, rs2 } => with_operands(Mnemonic::Div, rd, rs1, rs2, 0),
        Instr::Divu { rd, rs1, rs2 } => with_operands(Mnemonic::Divu, rd, rs1, rs2, 0),
        Instr::Rem { rd, rs1, rs2 } => with_operands(Mnemonic::Rem, rd, rs1, rs2, 0),
        Instr::Remu { rd, rs1, rs2 } => with_operands(Mnemonic::Remu, rd, rs1, rs2, 0),
        Instr::Fence => with_operands(Mnemonic::Fence, 0, 0, 0, 0),
        Instr::FenceI => with_operands(Mnemonic::FenceI, 0, 0, 0, 0),
        Instr::Ecall => with_operands(Mnemonic::Ecall, 0, 0, 0, 0),
        Instr::Ebreak => with_operands(Mnemonic::Ebreak, 0, 0, 0, 0),
    }
}
