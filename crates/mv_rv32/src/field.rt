// The fields of a word: registers as indices, and immediates as words.
ghost use Rattle.std.specs.Prelude.{◌≡◌, ◌<◌, ◌^◌, pos};
ghost use Rattle.mv_num.specs.Words.{word_of};
ghost use Rattle.mv_isa.specs.Formats.{opcode_of, rd_of, funct3_of, rs1_of, rs2_of, functs_of, signed_in, i_imm, s_imm, b_imm, u_imm, j_imm};
ghost use Rattle.mv_isa.specs.Execution.{upper};

use crate::arith;
use mv_num::word::of_signed;

/// The opcode: bits 6 to 0 (RISC-V unprivileged ISA 2.2).
#[inline(always)]
#[tactic(auto, unfolding(mv_isa::specs::Formats::opcode_of))]
pub(crate) fn opcode(word: u32) -> u32
    ensures { result ≡ opcode_of word }
{
    word & 0x7f
}

/// The register that is written: bits 11 to 7.
#[inline(always)]
#[tactic(auto, unfolding(mv_isa::specs::Formats::rd_of))]
pub(crate) fn rd(word: u32) -> usize
    ensures value { result ≡ rd_of word }
    ensures bound { result < 32 }
{
    ((word >> 7) & 0x1f) as usize
}

/// funct3: bits 14 to 12.
#[inline(always)]
#[tactic(auto, unfolding(mv_isa::specs::Formats::funct3_of))]
pub(crate) fn funct3(word: u32) -> u32
    ensures value { result ≡ funct3_of word }
    ensures bound { result < 8 }
{
    (word >> 12) & 7
}

/// The first register that is read: bits 19 to 15.
#[inline(always)]
#[tactic(auto, unfolding(mv_isa::specs::Formats::rs1_of))]
pub(crate) fn rs1(word: u32) -> usize
    ensures value { result ≡ rs1_of word }
    ensures bound { result < 32 }
{
    ((word >> 15) & 0x1f) as usize
}

/// The second one: bits 24 to 20.
#[inline(always)]
#[tactic(auto, unfolding(mv_isa::specs::Formats::rs2_of))]
pub(crate) fn rs2(word: u32) -> usize
    ensures value { result ≡ rs2_of word }
    ensures bound { result < 32 }
{
    ((word >> 20) & 0x1f) as usize
}

/// The count of a shift by an immediate, from 0 to 31: bits 24 to 20 (2.4).
#[inline(always)]
#[tactic(auto, unfolding(mv_isa::specs::Formats::rs2_of))]
pub(crate) fn count(word: u32) -> u32
    ensures { result ≡ word_of (pos (rs2_of word)) }
{
    of_signed(((word >> 20) & 0x1f) as i32)
}

/// funct7 and funct3 as one number below 1024: bits 31 to 25 above bits 14 to 12.
#[inline(always)]
#[tactic(auto, unfolding(mv_isa::specs::Formats::functs_of, mv_isa::specs::Formats::funct7_of, mv_isa::specs::Formats::funct3_of))]
pub(crate) fn functs(word: u32) -> u32
    ensures { result ≡ functs_of word }
{
    (word >> 25) * 8 + ((word >> 12) & 7)
}

// Signed numbers of 12 and 21 bits.
#[inline(always)]
fn signed_12(x: u32) -> i32
    requires { x < 2 ^ 12 }
    ensures { result ≡ signed_in (2 ^ 11) x }
{
    (x << 20).cast_signed() >> 20
}

#[inline(always)]
fn signed_21(x: u32) -> i32
    requires { x < 2 ^ 21 }
    ensures { result ≡ signed_in (2 ^ 20) x }
{
    (x << 11).cast_signed() >> 11
}

/// The immediate of format I, the word of a number from -2048 to 2047: bits 31 to 20 (2.3).
#[inline(always)]
#[tactic(auto, unfolding(mv_isa::specs::Formats::i_imm))]
pub(crate) fn imm_i(word: u32) -> u32
    ensures { result ≡ word_of (i_imm word) }
{
    of_signed(signed_12(word >> 20))
}

/// That of format S, of the same range: bits 31 to 25, and 11 to 7.
#[inline(always)]
#[tactic(auto, unfolding(mv_isa::specs::Formats::s_imm))]
pub(crate) fn imm_s(word: u32) -> u32
    ensures { result ≡ word_of (s_imm word) }
{
    of_signed(signed_12((word >> 25) * 0x20 + ((word >> 7) & 0x1f)))
}

/// That of format B, the word of an even distance in bytes from -4096 to 4094.
#[inline(always)]
pub(crate) fn imm_b(word: u32) -> u32
    ensures { result ≡ word_of (b_imm word) }
{
    let low = (word >> 7) % 2 * 0x800 + (word >> 25) % 0x40 * 0x20 + (word >> 8) % 0x10 * 2;
    (word >> 31) * 0xffff_f000 + low
}

/// That of format U: bits 31 to 12 where they stand, and zeros below.
#[inline(always)]
#[tactic(auto, unfolding(mv_isa::specs::Formats::u_imm))]
pub(crate) fn upper(word: u32) -> u32
    ensures { result ≡ upper (u_imm word) }
{
    arith::upper((word >> 12) as i32)
}

/// That of format J, the word of an even distance in bytes from -2^20 to 2^20 - 2.
#[inline(always)]
#[tactic(auto, unfolding(mv_isa::specs::Formats::j_imm))]
pub(crate) fn imm_j(word: u32) -> u32
    ensures { result ≡ word_of (j_imm word) }
{
    let sign = (word >> 31) * 0x10_0000;
    of_signed(signed_21(
        sign + ((word >> 12) & 0xff) * 0x1000
            + ((word >> 20) & 1) * 0x800
            + ((word >> 21) & 0x3ff) * 2,
    ))
}
