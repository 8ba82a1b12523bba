//! The arithmetic of words of 32 bits, that of `int` and `unsigned int` with signed overflow that wraps (C11 6.5) and of RV32IM.
//! None of these calls takes memory.
ghost use Rattle.std.specs.Prelude.{◌≡◌, ◌≢◌};
ghost use Rattle.mv_num.specs.Words.{add, sub, mul, mul_high_ss, mul_high_su, mul_high_uu, div_s, div_u, rem_s, rem_u, shl, shr_s, shr_u, lt_s, lt_u, narrow, sign_extend, word_of};

use crate::kind::Kind;

/// The word of a signed number, its two's complement.
#[tactic(auto, using(crate::proofs::Signed::word_of_is))]
pub fn of_signed(value: i32) -> u32
    ensures { result ≡ word_of value }
{
    value.cast_unsigned()
}

/// The sum modulo 2^32 (C11 6.5.6, RISC-V ADD).
#[tactic(auto, unfolding(crate::specs::Words::add))]
pub fn add(a: u32, b: u32) -> u32
    ensures { result ≡ add a b }
{
    a.wrapping_add(b)
}

/// The difference modulo 2^32 (C11 6.5.6, RISC-V SUB).
#[tactic(auto, using(crate::proofs::Signed::sub_is))]
pub fn sub(a: u32, b: u32) -> u32
    ensures { result ≡ sub a b }
{
    a.wrapping_sub(b)
}

/// The lower word of the product, the same for signed and unsigned numbers (C11 6.5.5, RISC-V MUL).
#[tactic(auto, unfolding(crate::specs::Words::mul))]
pub fn mul(a: u32, b: u32) -> u32
    ensures { result ≡ mul a b }
{
    a.wrapping_mul(b)
}

/// The upper word of the product of two signed numbers (RISC-V MULH).
pub fn mul_high_ss(a: u32, b: u32) -> u32
    ensures { result ≡ mul_high_ss a b }
{
    let product = i64::from(a.cast_signed()) * i64::from(b.cast_signed());
    ((product >> 32) as i32).cast_unsigned()
}

/// The upper word of the product of a signed and an unsigned number (RISC-V MULHSU).
pub fn mul_high_su(a: u32, b: u32) -> u32
    ensures { result ≡ mul_high_su a b }
{
    let product = i64::from(a.cast_signed()) * i64::from(b);
    ((product >> 32) as i32).cast_unsigned()
}

/// The upper word of the product of two unsigned numbers (RISC-V MULHU).
#[tactic(auto, unfolding(crate::specs::Words::mul_high_uu))]
pub fn mul_high_uu(a: u32, b: u32) -> u32
    ensures { result ≡ mul_high_uu a b }
{
    ((u64::from(a) * u64::from(b)) >> 32) as u32
}

/// The quotient of signed numbers, rounded toward 0; -2^31 by -1 gives -2^31 (C11 6.5.5, RISC-V DIV).
pub fn div_s(a: u32, b: u32) -> u32
    requires { b ≢ 0 }
    ensures { result ≡ div_s a b }
{
    a.cast_signed()
        .wrapping_div(b.cast_signed())
        .cast_unsigned()
}

/// The quotient of unsigned numbers (C11 6.5.5, RISC-V DIVU).
#[tactic(auto, unfolding(crate::specs::Words::div_u))]
pub fn div_u(a: u32, b: u32) -> u32
    requires { b ≢ 0 }
    ensures { result ≡ div_u a b }
{
    a / b
}

/// The remainder of signed numbers, with the sign of the dividend; of -2^31 by -1 it is 0 (C11 6.5.5, RISC-V REM).
pub fn rem_s(a: u32, b: u32) -> u32
    requires { b ≢ 0 }
    ensures { result ≡ rem_s a b }
{
    a.cast_signed()
        .wrapping_rem(b.cast_signed())
        .cast_unsigned()
}

/// The remainder of unsigned numbers (C11 6.5.5, RISC-V REMU).
#[tactic(auto, unfolding(crate::specs::Words::rem_u))]
pub fn rem_u(a: u32, b: u32) -> u32
    requires { b ≢ 0 }
    ensures { result ≡ rem_u a b }
{
    a % b
}

/// A shift to the left, by the count modulo 32 (C11 6.5.7, RISC-V SLL).
#[tactic(auto, unfolding(crate::specs::Words::shl))]
pub fn shl(a: u32, b: u32) -> u32
    ensures { result ≡ shl a b }
{
    a.wrapping_shl(b)
}

/// An arithmetic shift to the right, by the count modulo 32: the sign is shifted in (C11 6.5.7, RISC-V SRA).
pub fn shr_s(a: u32, b: u32) -> u32
    ensures { result ≡ shr_s a b }
{
    a.cast_signed().wrapping_shr(b).cast_unsigned()
}

/// A logical shift to the right, by the count modulo 32: zeros are shifted in (C11 6.5.7, RISC-V SRL).
#[tactic(auto, unfolding(crate::specs::Words::shr_u))]
pub fn shr_u(a: u32, b: u32) -> u32
    ensures { result ≡ shr_u a b }
{
    a.wrapping_shr(b)
}

/// Whether a signed number is less than another (C11 6.5.8, RISC-V SLT).
pub fn lt_s(a: u32, b: u32) -> bool
    ensures { result ≡ lt_s a b }
{
    a.cast_signed() < b.cast_signed()
}

/// Whether an unsigned number is less than another (C11 6.5.8, RISC-V SLTU).
#[tactic(auto, unfolding(crate::specs::Words::lt_u))]
pub fn lt_u(a: u32, b: u32) -> bool
    ensures { result ≡ lt_u a b }
{
    a < b
}

/// Converts a value of type `int` or `unsigned int` to a type (C11 6.3.1.2 for `_Bool`, 6.3.1.3 for the others, where a signed type wraps).
/// The answer is the value's word: a negative one has all its upper bits set.
#[tactic(auto, using(crate::proofs::Signed::sign_extend_ways), unfolding(crate::specs::Words::narrow))]
pub fn narrow(kind: Kind, a: u32) -> u32
    ensures { result ≡ narrow kind a }
{
    match kind {
        Kind::Bool => { if a == 0 { 0 } else { 1 } }
        Kind::SChar => sign_extend_byte(a),
        Kind::UChar => a % 0x100,
        Kind::Short => sign_extend_half(a),
        Kind::UShort => a % 0x1_0000,
        Kind::Int | Kind::UInt => a,
    }
}

// The low byte of a word, with its sign.
#[tactic(auto, using(crate::proofs::Signed::sign_extend_ways))]
fn sign_extend_byte(a: u32) -> u32
    ensures { result ≡ sign_extend 8 a }
{
    let low = a % 0x100;
    if low < 0x80 { low } else { low + 0xFFFF_FF00 }
}

// The low half of a word, with its sign.
#[tactic(auto, using(crate::proofs::Signed::sign_extend_ways))]
fn sign_extend_half(a: u32) -> u32
    ensures { result ≡ sign_extend 16 a }
{
    let low = a % 0x1_0000;
    if low < 0x8000 { low } else { low + 0xFFFF_0000 }
}
