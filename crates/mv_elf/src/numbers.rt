//! The numbers that stand in a file.

ghost use Rattle.std.specs.Prelude.{◌≡◌, ◌≤◌, ◌+◌, length};
ghost use Rattle.mv_elf.specs.Numbers.{half_at, word_at};

use byteorder::{ByteOrder, LittleEndian};

/// The number in two bytes, the lower one first.
#[tactic(auto, unfolding(crate::specs::Numbers::half_at))]
pub(crate) fn half_at(bytes: &[u8], at: usize) -> u16
    requires { at + 2 ≤ length bytes.now }
    ensures { result ≡ half_at bytes.now at }
{
    LittleEndian::read_u16(&bytes[at..at + 2])
}

/// The number in four bytes, the lowest one first.
#[tactic(auto, unfolding(crate::specs::Numbers::word_at))]
pub(crate) fn word_at(bytes: &[u8], at: usize) -> u32
    requires { at + 4 ≤ length bytes.now }
    ensures { result ≡ word_at bytes.now at }
{
    LittleEndian::read_u32(&bytes[at..at + 4])
}
