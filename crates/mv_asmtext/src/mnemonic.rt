//! The instructions by name: how each is spelled, which operands it has, and which instruction it is.

ghost use Rattle.std.specs.Prelude.{◌≡◌};

use crate::field::Field;
use crate::operand::{Element, Registers};
use mv_isa::Instr;

/// The name of an instruction.
#[derive(Clone, Copy)]
pub enum Mnemonic {
    Lui,
    Auipc,
    Jal,
    Jalr,
    Beq,
    Bne,
    Blt,
    Bge,
    Bltu,
    Bgeu,
    Lb,
    Lh,
    Lw,
    Lbu,
    Lhu,
    Sb,
    Sh,
    Sw,
    Addi,
    Slti,
    Sltiu,
    Xori,
    Ori,
    Andi,
    Slli,
    Srli,
    Srai,
    Add,
    Sub,
    Sll,
    Slt,
    Sltu,
    Xor,
    Srl,
    Sra,
    Or,
    And,
    Mul,
    Mulh,
    Mulhsu,
    Mulhu,
    Div,
    Divu,
    Rem,
    Remu,
    Fence,
    FenceI,
    Ecall,
    Ebreak,
}

/// Each name once.
pub const MNEMONICS: [Mnemonic; 49] = [
    Mnemonic::Lui,
    Mnemonic::Auipc,
    Mnemonic::Jal,
    Mnemonic::Jalr,
    Mnemonic::Beq,
    Mnemonic::Bne,
    Mnemonic::Blt,
    Mnemonic::Bge,
    Mnemonic::Bltu,
    Mnemonic::Bgeu,
    Mnemonic::Lb,
    Mnemonic::Lh,
    Mnemonic::Lw,
    Mnemonic::Lbu,
    Mnemonic::Lhu,
    Mnemonic::Sb,
    Mnemonic::Sh,
    Mnemonic::Sw,
    Mnemonic::Addi,
    Mnemonic::Slti,
    Mnemonic::Sltiu,
    Mnemonic::Xori,
    Mnemonic::Ori,
    Mnemonic::Andi,
    Mnemonic::Slli,
    Mnemonic::Srli,
    Mnemonic::Srai,
    Mnemonic::Add,
    Mnemonic::Sub,
    Mnemonic::Sll,
    Mnemonic::Slt,
    Mnemonic::Sltu,
    Mnemonic::Xor,
    Mnemonic::Srl,
    Mnemonic::Sra,
    Mnemonic::Or,
    Mnemonic::And,
    Mnemonic::Mul,
    Mnemonic::Mulh,
    Mnemonic::Mulhsu,
    Mnemonic::Mulhu,
    Mnemonic::Div,
    Mnemonic::Divu,
    Mnemonic::Rem,
    Mnemonic::Remu,
    Mnemonic::Fence,
    Mnemonic::FenceI,
    Mnemonic::Ecall,
    Mnemonic::Ebreak,
];

const REGISTERS: [Element; 5] = [
    Element::Rd,
    Element::Comma,
    Element::Rs1,
    Element::Comma,
    Element::Rs2,
];

const IMMEDIATE: [Element; 5] = [
    Element::Rd,
    Element::Comma,
    Element::Rs1,
    Element::Comma,
    Element::Number,
];

const LOAD: [Element; 6] = [
    Element::Rd,
    Element::Comma,
    Element::Number,
    Element::Open,
    Element::Rs1,
    Element::Close,
];

const STORE: [Element; 6] = [
    Element::Rs2,
    Element::Comma,
    Element::Number,
    Element::Open,
    Element::Rs1,
    Element::Close,
];

const BRANCH: [Element; 5] = [
    Element::Rs1,
    Element::Comma,
    Element::Rs2,
    Element::Comma,
    Element::Target,
];

const JUMP: [Element; 3] = [Element::Rd, Element::Comma, Element::Target];

const UPPER: [Element; 3] = [Element::Rd, Element::Comma, Element::Number];

impl Mnemonic {
    ghost use Rattle.mv_asmtext.specs.Mnemonics.{name_of, operands_of, field_of, instruction};

    /// How the name is spelled.
    #[tactic(auto, unfolding(crate::specs::Mnemonics::name_of))]
    pub fn name(self) -> &'static [u8]
        ensures { result.now ≡ name_of self }
    {
        // An arm for each mnemonic.
        match self {
            Mnemonic::Lui => b"lui",
            Mnemonic::Auipc => b"auipc",
            Mnemonic::Jal => b"jal",
            Mnemonic::Jalr => b"jalr",
            Mnemonic::Beq => b"beq",
            Mnemonic::Bne => b"bne",
            Mnemonic::Blt => b"blt",
            Mnemonic::Bge => b"bge",
            Mnemonic::Bltu => b"bltu",
            Mnemonic::Bgeu => b"bgeu",
            Mnemonic::Lb => b"lb",
            Mnemonic::Lh => b"lh",
            Mnemonic::Lw => b"lw",
            Mnemonic::Lbu => b"lbu",
            Mnemonic::Lhu => b"lhu",
            Mnemonic::Sb => b"sb",
            Mnemonic::Sh => b"sh",
            Mnemonic::Sw => b"sw",
            Mnemonic::Addi => b"addi",
            Mnemonic::Slti => b"slti",
            Mnemonic::Sltiu => b"sltiu",
            Mnemonic::Xori => b"xori",
            Mnemonic::Ori => b"ori",
            Mnemonic::Andi => b"andi",
            Mnemonic::Slli => b"slli",
            Mnemonic::Srli => b"srli",
            Mnemonic::Srai => b"srai",
            Mnemonic::Add => b"add",
            Mnemonic::Sub => b"sub",
            Mnemonic::Sll => b"sll",
            Mnemonic::Slt => b"slt",
            Mnemonic::Sltu => b"sltu",
            Mnemonic::Xor => b"xor",
            Mnemonic::Srl => b"srl",
            Mnemonic::Sra => b"sra",
            Mnemonic::Or => b"or",
            Mnemonic::And => b"and",
            Mnemonic::Mul => b"mul",
            Mnemonic::Mulh => b"mulh",
            Mnemonic::Mulhsu => b"mulhsu",
            Mnemonic::Mulhu => b"mulhu",
            Mnemonic::Div => b"div",
            Mnemonic::Divu => b"divu",
            Mnemonic::Rem => b"rem",
            Mnemonic::Remu => b"remu",
            Mnemonic::Fence => b"fence",
            Mnemonic::FenceI => b"fence.i",
            Mnemonic::Ecall => b"ecall",
            Mnemonic::Ebreak => b"ebreak",
        }
    }

    /// What follows the name.
    #[tactic(auto, unfolding(crate::specs::Mnemonics::operands_of))]
    pub fn operands(self) -> &'static [Element]
        ensures { result.now ≡ operands_of self }
    {
        // The arms name every mnemonic.
        match self {
            Mnemonic::Lui | Mnemonic::Auipc => &UPPER,
            Mnemonic::Jal => &JUMP,
            Mnemonic::Jalr
            | Mnemonic::Lb
            | Mnemonic::Lh
            | Mnemonic::Lw
            | Mnemonic::Lbu
            | Mnemonic::Lhu => &LOAD,
            Mnemonic::Beq
            | Mnemonic::Bne
            | Mnemonic::Blt
            | Mnemonic::Bge
            | Mnemonic::Bltu
            | Mnemonic::Bgeu => &BRANCH,
            Mnemonic::Sb | Mnemonic::Sh | Mnemonic::Sw => &STORE,
            Mnemonic::Addi
            | Mnemonic::Slti
            | Mnemonic::Sltiu
            | Mnemonic::Xori
            | Mnemonic::Ori
            | Mnemonic::Andi
            | Mnemonic::Slli
            | Mnemonic::Srli
            | Mnemonic::Srai => &IMMEDIATE,
            Mnemonic::Add
            | Mnemonic::Sub
            | Mnemonic::Sll
            | Mnemonic::Slt
            | Mnemonic::Sltu
            | Mnemonic::Xor
            | Mnemonic::Srl
            | Mnemonic::Sra
            | Mnemonic::Or
            | Mnemonic::And
            | Mnemonic::Mul
            | Mnemonic::Mulh
            | Mnemonic::Mulhsu
            | Mnemonic::Mulhu
            | Mnemonic::Div
            | Mnemonic::Divu
            | Mnemonic::Rem
            | Mnemonic::Remu => &REGISTERS,
            Mnemonic::Fence | Mnemonic::FenceI | Mnemonic::Ecall | Mnemonic::Ebreak => &[],
        }
    }

    /// The field that holds the number among the operands.
    #[tactic(auto, unfolding(crate::specs::Mnemonics::field_of))]
    pub fn field(self) -> Field
        ensures { result ≡ field_of self }
    {
        // The arms name every mnemonic.
        match self {
            Mnemonic::Lui | Mnemonic::Auipc => Field::Upper20,
            Mnemonic::Jal => Field::Offset21,
            Mnemonic::Beq
            | Mnemonic::Bne
            | Mnemonic::Blt
            | Mnemonic::Bge
            | Mnemonic::Bltu
            | Mnemonic::Bgeu => Field::Offset13,
            Mnemonic::Slli | Mnemonic::Srli | Mnemonic::Srai => Field::Count,
            Mnemonic::Jalr
            | Mnemonic::Lb
            | Mnemonic::Lh
            | Mnemonic::Lw
            | Mnemonic::Lbu
            | Mnemonic::Lhu
            | Mnemonic::Sb
            | Mnemonic::Sh
            | Mnemonic::Sw
            | Mnemonic::Addi
            | Mnemonic::Slti
            | Mnemonic::Sltiu
            | Mnemonic::Xori
            | Mnemonic::Ori
            | Mnemonic::Andi
            | Mnemonic::Add
            | Mnemonic::Sub
            | Mnemonic::Sll
            | Mnemonic::Slt
            | Mnemonic::Sltu
            | Mnemonic::Xor
            | Mnemonic::Srl
            | Mnemonic::Sra
            | Mnemonic::Or
            | Mnemonic::And
            | Mnemonic::Mul
            | Mnemonic::Mulh
            | Mnemonic::Mulhsu
            | Mnemonic::Mulhu
            | Mnemonic::Div
            | Mnemonic::Divu
            | Mnemonic::Rem
            | Mnemonic::Remu
            | Mnemonic::Fence
            | Mnemonic::FenceI
            | Mnemonic::Ecall
            | Mnemonic::Ebreak => Field::Signed12,
        }
    }

    /// The instruction of this name with these operands. Operands that it doesn't have are ignored.
    #[tactic(auto, unfolding(crate::specs::Mnemonics::instruction))]
    pub fn instruction(self, registers: Registers, imm: i32) -> Instr
        ensures { result ≡ instruction self registers imm }
    {
        let rd = registers.rd.number();
        let rs1 = registers.rs1.number();
        let rs2 = registers.rs2.number();
        // An arm for each mnemonic.
        match self {
            Mnemonic::Lui => Instr::Lui { rd, imm },
            Mnemonic::Auipc => Instr::Auipc { rd, imm },
            Mnemonic::Jal => Instr::Jal { rd, imm },
            Mnemonic::Jalr => Instr::Jalr { rd, rs1, imm },
            Mnemonic::Beq => Instr::Beq { rs1, rs2, imm },
            Mnemonic::Bne => Instr::Bne { rs1, rs2, imm },
            Mnemonic::Blt => Instr::Blt { rs1, rs2, imm },
            Mnemonic::Bge => Instr::Bge { rs1, rs2, imm },
            Mnemonic::Bltu => Instr::Bltu { rs1, rs2, imm },
            Mnemonic::Bgeu => Instr::Bgeu { rs1, rs2, imm },
            Mnemonic::Lb => Instr::Lb { rd, rs1, imm },
            Mnemonic::Lh => Instr::Lh { rd, rs1, imm },
            Mnemonic::Lw => Instr::Lw { rd, rs1, imm },
            Mnemonic::Lbu => Instr::Lbu { rd, rs1, imm },
            Mnemonic::Lhu => Instr::Lhu { rd, rs1, imm },
            Mnemonic::Sb => Instr::Sb { rs1, rs2, imm },
            Mnemonic::Sh => Instr::Sh { rs1, rs2, imm },
            Mnemonic::Sw => Instr::Sw { rs1, rs2, imm },
            Mnemonic::Addi => Instr::Addi { rd, rs1, imm },
            Mnemonic::Slti => Instr::Slti { rd, rs1, imm },
            Mnemonic::Sltiu => Instr::Sltiu { rd, rs1, imm },
            Mnemonic::Xori => Instr::Xori { rd, rs1, imm },
            Mnemonic::Ori => Instr::Ori { rd, rs1, imm },
            Mnemonic::Andi => Instr::Andi { rd, rs1, imm },
            Mnemonic::Slli => Instr::Slli { rd, rs1, imm },
            Mnemonic::Srli => Instr::Srli { rd, rs1, imm },
            Mnemonic::Srai => Instr::Srai { rd, rs1, imm },
            Mnemonic::Add => Instr::Add { rd, rs1, rs2 },
            Mnemonic::Sub => Instr::Sub { rd, rs1, rs2 },
            Mnemonic::Sll => Instr::Sll { rd, rs1, rs2 },
            Mnemonic::Slt => Instr::Slt { rd, rs1, rs2 },
            Mnemonic::Sltu => Instr::Sltu { rd, rs1, rs2 },
            Mnemonic::Xor => Instr::Xor { rd, rs1, rs2 },
            Mnemonic::Srl => Instr::Srl { rd, rs1, rs2 },
            Mnemonic::Sra => Instr::Sra { rd, rs1, rs2 },
            Mnemonic::Or => Instr::Or { rd, rs1, rs2 },
            Mnemonic::And => Instr::And { rd, rs1, rs2 },
            Mnemonic::Mul => Instr::Mul { rd, rs1, rs2 },
            Mnemonic::Mulh => Instr::Mulh { rd, rs1, rs2 },
            Mnemonic::Mulhsu => Instr::Mulhsu { rd, rs1, rs2 },
            Mnemonic::Mulhu => Instr::Mulhu { rd, rs1, rs2 },
            Mnemonic::Div => Instr::Div { rd, rs1, rs2 },
            Mnemonic::Divu => Instr::Divu { rd, rs1, rs2 },
            Mnemonic::Rem => Instr::Rem { rd, rs1, rs2 },
            Mnemonic::Remu => Instr::Remu { rd, rs1, rs2 },
            Mnemonic::Fence => Instr::Fence,
            Mnemonic::FenceI => Instr::FenceI,
            Mnemonic::Ecall => Instr::Ecall,
            Mnemonic::Ebreak => Instr::Ebreak,
        }
    }
}
