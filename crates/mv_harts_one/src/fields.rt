//! The fields of a word that a glance and a store need.

ghost use Rattle.std.specs.Prelude.{◌≡◌, ◌<◌, ◌^◌};
ghost use Rattle.mv_isa.specs.Formats.{opcode_of, funct3_of, rs1_of, rs2_of, signed_in, s_imm};
ghost use Rattle.mv_num.specs.Words.{word_of};

use mv_num::word::of_signed;

/// The opcode: bits 6 to 0.
#[inline(always)]
#[tactic(auto, unfolding(mv_isa::specs::Formats::opcode_of))]
pub(crate) fn opcode(word: u32) -> u32
    ensures { result ≡ opcode_of word }
{
    word & 0x7f
}

/// funct3: bits 14 to 12.
#[inline(always)]
#[tactic(auto, unfolding(mv_isa::specs::Formats::funct3_of))]
pub(crate) fn funct3(word: u32) -> u32
    ensures { result ≡ funct3_of word }
{
    (word >> 12) & 7
}

/// The first register that is read: bits 19 to 15.
#[inline(always)]
#[tactic(auto, unfolding(mv_isa::specs::Formats::rs1_of))]
pub(crate) fn rs1(word: u32) -> usize
    ensures value { result ≡ rs1_of word }
    ensures bound { result < 32 }
{
    ((word >> 15) & 0x1f) as usize
}

/// The second one: bits 24 to 20.
#[inline(always)]
#[tactic(auto, unfolding(mv_isa::specs::Formats::rs2_of))]
pub(crate) fn rs2(word: u32) -> usize
    ensures value { result ≡ rs2_of word }
    ensures bound { result < 32 }
{
    ((word >> 20) & 0x1f) as usize
}

// A signed number of 12 bits.
#[inline(always)]
fn signed_12(x: u32) -> i32
    requires { x < 2 ^ 12 }
    ensures { result ≡ signed_in (2 ^ 11) x }
{
    (x << 20).cast_signed() >> 20
}

/// The immediate of format S, the word of a number from -2048 to 2047: bits 31 to 25, and 11 to 7.
#[inline(always)]
#[tactic(auto, unfolding(mv_isa::specs::Formats::s_imm))]
pub(crate) fn imm_s(word: u32) -> u32
    ensures { result ≡ word_of (s_imm word) }
{
    of_signed(signed_12((word >> 25) * 0x20 + ((word >> 7) & 0x1f)))
}
