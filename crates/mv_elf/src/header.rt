//! The header of a file.

ghost use Rattle.std.specs.Prelude.{◌≡◌, ◌≤◌, ◌<◌, length, IfSome, IfNone};
ghost use Rattle.mv_elf.specs.Header.{header_size, field_fits, is_foreign, HasHeader, IsFirstWrong};

use crate::numbers::{half_at, word_at};

/// How many bytes the header has.
pub(crate) const HEADER_SIZE: usize = 52;

/// How many bytes a program header has.
pub(crate) const PROGRAM_SIZE: usize = 32;

/// The bytes `7f 45 4c 46` with which a file begins, as a word.
pub(crate) const MAGIC: u32 = 0x464C_457F;

/// The type of a file that can be executed.
pub(crate) const EXECUTABLE: u16 = 2;

/// The number of RISC-V among machines.
pub(crate) const RISCV: u16 = 243;

/// Where the entry stands.
pub(crate) const ENTRY_AT: usize = 24;

/// Where the offset of the first program header stands.
pub(crate) const PROGRAMS_AT: usize = 28;

/// Where the number of program headers stands.
pub(crate) const COUNT_AT: usize = 44;

/// Whether the field at an offset holds what it has to. What stands at other offsets isn't looked at.
#[tactic(auto, unfolding(crate::specs::Header::field_fits))]
fn field_fits(bytes: &[u8], at: usize) -> bool
    requires { header_size ≤ length bytes.now }
    ensures { result ≡ field_fits bytes.now at }
{
    match at {
        0 => word_at(bytes, 0) == MAGIC,
        4 => bytes[4] == 1,
        5 => bytes[5] == 1,
        6 => bytes[6] == 1,
        16 => half_at(bytes, 16) == EXECUTABLE,
        18 => half_at(bytes, 18) == RISCV,
        20 => word_at(bytes, 20) == 1,
        36 => word_at(bytes, 36) == 0,
        40 => half_at(bytes, 40) == 52,
        42 => half_at(bytes, 42) == 32,
        44 => {
            let count = half_at(bytes, 44);
            1 <= count && count <= 64
        }
        _ => true,
    }
}

/// Whether a wrong field shows a file of another kind or of another machine.
#[tactic(auto, unfolding(crate::specs::Header::is_foreign))]
pub(crate) fn is_foreign(at: usize) -> bool
    ensures { result ≡ is_foreign at }
{
    at == 4 || at == 5 || at == 16 || at == 18 || at == 36
}

/// The first field of the header that doesn't hold what it has to.
pub(crate) fn first_wrong(bytes: &[u8]) -> Option<usize>
    requires { header_size ≤ length bytes.now }
    ensures none { IfNone result (HasHeader bytes.now) }
    ensures some { IfSome result (λ at. IsFirstWrong bytes.now at) }
{
    for at in 0..HEADER_SIZE {
        if !field_fits(bytes, at) {
            return Some(at);
        }
    }
    None
}
