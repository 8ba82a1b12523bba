//! The image that a file holds.

ghost use Rattle.std.specs.Prelude.{◌≡◌, ◌≤◌, ◌<◌, ◌+◌, ◌*◌, ◌^◌, ℕ, length, OnOk, IfOk, IfErr, MatchResult};
ghost use Rattle.mv_image.specs.Spelling.{Fields};
ghost use Rattle.mv_elf.specs.Header.{header_size, HasHeader};
ghost use Rattle.mv_elf.specs.declared.segment.Region.TheVariants.{Text};
ghost use Rattle.mv_elf.specs.Segments.{count_of, AreRight};
ghost use Rattle.mv_elf.specs.Memory.{words_in, enters_text, IsProgram};
ghost use Rattle.mv_elf.specs.Faults.{Holds, FirstFault, IsMemory};

use crate::fault::ElfError;
use crate::header::{ENTRY_AT, HEADER_SIZE, PROGRAMS_AT, first_wrong, is_foreign};
use crate::memory::{load, words_in};
use crate::notes::{first_note, image_of};
use crate::numbers::word_at;
use crate::programs::{Flaw, first_flaw, program_at};
use crate::segment::Region;
use mv_image::Image;
use mv_num::regions::TEXT_START;
use std::alloc::Global;

fn judge_header(bytes: &[u8]) -> Result<(), ElfError>
    ensures right { OnOk result (HasHeader bytes.now) }
    ensures fault { IfErr result (λ fault. FirstFault bytes.now fault) }
{
    if bytes.len() < HEADER_SIZE {
        return Err(ElfError::Truncated(bytes.len() as u64));
    }
    match first_wrong(bytes) {
        Some(at) => {
            if is_foreign(at) {
                Err(ElfError::Foreign(at as u64))
            } else {
                Err(ElfError::BadField(at as u64))
            }
        }
        None => Ok(()),
    }
}

fn judge_segments(bytes: &[u8]) -> Result<(), ElfError>
    requires { HasHeader bytes.now }
    ensures right { OnOk result (AreRight bytes.now (count_of bytes.now)) }
    ensures fault { IfErr result (λ fault. FirstFault bytes.now fault) }
{
    match first_flaw(bytes) {
        Some(Flaw::Missing) => Err(ElfError::Truncated(bytes.len() as u64)),
        Some(Flaw::Wrong(i)) => Err(ElfError::BadSegment(program_at(bytes, i) as u64)),
        None => Ok(()),
    }
}

/// Whether a run begins at a word of a text of so many words.
#[tactic(auto, unfolding(crate::specs::Memory::enters_text))]
fn enters_text(bytes: &[u8], text: usize) -> bool
    requires header { header_size ≤ length bytes.now }
    requires text { text ≡ words_in bytes.now Text }
    requires small { text ≤ 2 ^ 18 }
    ensures { result ≡ enters_text bytes.now }
{
    let entry = word_at(bytes, ENTRY_AT) as usize;
    let start = TEXT_START as usize;
    entry % 4 == 0 && start <= entry && entry < start + 4 * text
}

fn judge_text(bytes: &[u8]) -> Result<(), ElfError>
    requires header { HasHeader bytes.now }
    requires segments { AreRight bytes.now (count_of bytes.now) }
    ensures right { OnOk result (IsProgram bytes.now) }
    ensures fault { IfErr result (λ fault. FirstFault bytes.now fault) }
{
    let text = words_in(bytes, Region::Text);
    if text == 0 {
        return Err(ElfError::BadSegment(u64::from(word_at(bytes, PROGRAMS_AT))));
    }
    if !enters_text(bytes, text) {
        return Err(ElfError::BadField(ENTRY_AT as u64));
    }
    Ok(())
}

/// The image of a file whose header and segments are right.
fn image_in(alloc: Global, bytes: &[u8]) -> Result<Image, ElfError>
    requires { IsProgram bytes.now }
    ensures found { IfOk result (λ image. Holds bytes.now image) }
    ensures fault { IfErr result (λ fault. FirstFault bytes.now fault) }
{
    let text = load(alloc, bytes, Region::Text)?;
    let globals = load(alloc, bytes, Region::Data)?;
    match first_note(bytes) {
        Some(note) => image_of(alloc, bytes, note, &text, &globals),
        None => {
            let entry = word_at(bytes, ENTRY_AT);
            Ok(Image::without_tables(alloc, entry, text, globals))
        }
    }
}

fn read_once(alloc: Global, bytes: &[u8]) -> Result<Image, ElfError>
    ensures found { IfOk result (λ image. Holds bytes.now image) }
    ensures fault { IfErr result (λ fault. FirstFault bytes.now fault) }
{
    judge_header(bytes)?;
    judge_segments(bytes)?;
    judge_text(bytes)?;
    image_in(alloc, bytes)
}

/// The image that a file holds, or the first place at which it holds none.
pub fn from_elf(alloc: Global, bytes: &[u8]) -> Result<Image, ElfError>
    // What is read is held by the file.
    ensures found { IfOk result (λ image. Holds bytes.now image) }
    // What the file holds is read, unless there is no memory.
    ensures only { (image : Fields) → Holds bytes.now image → MatchResult result (λ read. read ≡ image) IsMemory }
    // Else it is the first fault, or there was no memory.
    ensures fault { IfErr result (λ fault. FirstFault bytes.now fault) }
{
    read_once(alloc, bytes)
}
