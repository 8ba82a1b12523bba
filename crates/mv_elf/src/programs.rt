//! The program headers of a file, in order.

ghost use Rattle.std.specs.Prelude.{◌≡◌, ◌≤◌, ◌<◌, ◌+◌, ◌*◌, ◌^◌, ℕ, true, length, IfSome, IfNone};
ghost use Rattle.mv_elf.specs.Header.{header_size, program_size};
ghost use Rattle.mv_elf.specs.Segments.{count_of, program_at, segment_of, is_there, AreRight, IsMissing, IsWrong};
ghost use Rattle.mv_elf.specs.declared.programs.Flaw.TheVariants.{Missing, Wrong};
ghost use Rattle.mv_elf.specs.Flaws.{IsFirstFlaw};

use crate::header::{COUNT_AT, PROGRAM_SIZE, PROGRAMS_AT};
use crate::numbers::{half_at, word_at};
use crate::segment::Segment;

/// How many program headers there are.
pub(crate) fn count(bytes: &[u8]) -> usize
    requires { header_size ≤ length bytes.now }
    ensures value { result ≡ count_of bytes.now }
    ensures small { result < 2 ^ 16 }
{
    half_at(bytes, COUNT_AT) as usize
}

/// Where a program header begins.
pub(crate) fn program_at(bytes: &[u8], i: usize) -> usize
    requires header { header_size ≤ length bytes.now }
    requires i { i < 2 ^ 16 }
    ensures value { result ≡ program_at bytes.now i }
    ensures small { result < 2 ^ 33 }
{
    word_at(bytes, PROGRAMS_AT) as usize + PROGRAM_SIZE * i
}

/// Whether a program header is there, and the bytes of its segment.
#[tactic(auto, unfolding(crate::specs::Segments::is_there))]
fn is_there(bytes: &[u8], i: usize) -> bool
    requires header { header_size ≤ length bytes.now }
    requires i { i < 2 ^ 16 }
    ensures { result ≡ is_there bytes.now i }
{
    let at = program_at(bytes, i);
    at + PROGRAM_SIZE <= bytes.len() && Segment::read(bytes, at).is_in_file(bytes)
}

/// The segment of a program header that is there.
#[tactic(auto, unfolding(crate::specs::Segments::is_there))]
pub(crate) fn segment(bytes: &[u8], i: usize) -> Segment
    requires header { header_size ≤ length bytes.now }
    requires i { i < 2 ^ 16 }
    requires there { is_there bytes.now i ≡ true }
    ensures { result ≡ segment_of bytes.now i }
{
    Segment::read(bytes, program_at(bytes, i))
}

/// What is wrong with the first segment that isn't there or isn't right.
pub(crate) enum Flaw {
    Missing,
    Wrong(usize),
}

/// The first segment that isn't there or isn't right.
pub(crate) fn first_flaw(bytes: &[u8]) -> Option<Flaw>
    requires { header_size ≤ length bytes.now }
    ensures none { IfNone result (AreRight bytes.now (count_of bytes.now)) }
    ensures some { IfSome result (λ flaw. IsFirstFlaw bytes.now flaw) }
{
    let mut reached = 0;
    for i in 0..count(bytes) {
        if !is_there(bytes, i) {
            return Some(Flaw::Missing);
        }
        let segment = segment(bytes, i);
        if !segment.is_right(reached) {
            return Some(Flaw::Wrong(i));
        }
        if segment.is_loaded() {
            reached = reached.max(segment.end());
        }
    }
    None
}
