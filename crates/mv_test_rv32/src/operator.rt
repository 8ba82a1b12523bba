use crate::single::Vector;
use mv_num::kind::Kind;
use mv_num::word;

/// What the operator of an instruction gives for its operands. None where the instruction has no operator of its own, or the
/// operator no value, as for a division by 0.
pub(crate) fn operator(vector: &Vector) -> Option<u32> {
    let (a, b, cell) = (vector.first, vector.second, vector.cell);
    Some(match vector.name {
        "add" | "addi" => word::add(a, b),
        "sub" => word::sub(a, b),
        "mul" => word::mul(a, b),
        "mulh" => word::mul_high_ss(a, b),
        "mulhsu" => word::mul_high_su(a, b),
        "mulhu" => word::mul_high_uu(a, b),
        "sll" | "slli" => word::shl(a, b),
        "sra" | "srai" => word::shr_s(a, b),
        "srl" | "srli" => word::shr_u(a, b),
        "slt" | "slti" => u32::from(word::lt_s(a, b)),
        "sltu" | "sltiu" => u32::from(word::lt_u(a, b)),
        "lb" if b < 4 => word::narrow(Kind::SChar, cell >> (8 * b)),
        "lbu" if b < 4 => word::narrow(Kind::UChar, cell >> (8 * b)),
        "lh" if b < 4 => word::narrow(Kind::Short, cell >> (8 * b)),
        "lhu" if b < 4 => word::narrow(Kind::UShort, cell >> (8 * b)),
        "div" if b != 0 => word::div_s(a, b),
        "divu" if b != 0 => word::div_u(a, b),
        "rem" if b != 0 => word::rem_s(a, b),
        "remu" if b != 0 => word::rem_u(a, b),
        _ => return None,
    })
}
