//! The note of an image.

ghost use Rattle.std.specs.Prelude.{◌≡◌, ◌≤◌, ◌<◌, ◌+◌, ◌*◌, ℕ, true, length, IfOk, IfErr, IfSome, IfNone};
ghost use Rattle.mv_image.specs.Spelling.{Fields};
ghost use Rattle.mv_image.specs.Faults.{Spells, IsMemory};
ghost use Rattle.mv_elf.specs.Header.{HasHeader, header_size};
ghost use Rattle.mv_elf.specs.Segments.{count_of, is_in_file, AreRight};
ghost use Rattle.mv_elf.specs.Memory.{text_of, data_of};
ghost use Rattle.mv_elf.specs.Notes.{front_size, head_size, begins, is_ours, is_image_of, put_in, HasNoNote, IsNoteOf, Gives};
ghost use Rattle.mv_elf.specs.NoteFaults.{IsNoteFault};

use crate::fault::ElfError;
use crate::header::ENTRY_AT;
use crate::numbers::word_at;
use crate::programs::{count, segment};
use crate::segment::Segment;
use mv_image::{Image, ImageError, read};
use mv_num::bytes::bytes_of_words;
use mv_num::list::List;
use std::alloc::{AllocError, Global};

/// How many bytes stand before the content of a note.
pub(crate) const HEAD_SIZE: usize = 16;

/// The name of a note, the bytes `MVI` and 0.
pub(crate) const NAME: u32 = 0x0049_564D;

/// How many bytes of an image of version 2 stand before its text.
pub(crate) const FRONT_SIZE: usize = 64;

/// Whether the words of an image's note begin at an offset.
#[tactic(auto, unfolding(crate::specs::Notes::begins))]
fn begins(bytes: &[u8], at: usize) -> bool
    requires { at + 16 ≤ length bytes.now }
    ensures { result ≡ begins bytes.now at }
{
    word_at(bytes, at) == 4 && word_at(bytes, at + 8) == 1 && word_at(bytes, at + 12) == NAME
}

/// Whether a segment begins as an image's note does.
#[tactic(auto, unfolding(crate::specs::Notes::is_ours, crate::specs::Segments::is_in_file))]
fn is_ours(bytes: &[u8], segment: Segment) -> bool
    requires { is_in_file bytes.now segment ≡ true }
    ensures { result ≡ is_ours bytes.now segment }
{
    if segment.kind != 4 || (segment.file_size as usize) < HEAD_SIZE {
        return false;
    }
    begins(bytes, segment.offset as usize)
}

/// The image's note, which is the first segment that begins as one.
pub(crate) fn first_note(bytes: &[u8]) -> Option<Segment>
    requires header { HasHeader bytes.now }
    requires segments { AreRight bytes.now (count_of bytes.now) }
    ensures none { IfNone result (HasNoNote bytes.now) }
    ensures some { IfSome result (λ note. (i : ℕ) × IsNoteOf bytes.now note i) }
    ensures there { IfSome result (λ note. note.offset + note.file_size ≤ length bytes.now) }
    ensures head { IfSome result (λ note. head_size ≤ note.file_size) }
{
    for i in 0..count(bytes) {
        let segment = segment(bytes, i);
        if is_ours(bytes, segment) {
            return Some(segment);
        }
    }
    None
}

/// The bytes of an image, of a note's content and of its text and data.
#[tactic(auto, unfolding(crate::specs::Notes::put_in))]
fn put_in(
    alloc: Global,
    content: &[u8],
    text: &List<u32>,
    globals: &List<u32>,
) -> Result<Vec<u8>, AllocError>
    requires { front_size ≤ length content.now }
    ensures { IfOk result (λ bytes. bytes.items ≡ put_in content.now text.now globals.now) }
{
    let mut bytes = Vec::from_slice(alloc, &content[..FRONT_SIZE])?;
    bytes.extend_from_slice(bytes_of_words(alloc, text)?.as_slice())?;
    bytes.extend_from_slice(bytes_of_words(alloc, globals)?.as_slice())?;
    bytes.extend_from_slice(&content[FRONT_SIZE..])?;
    Ok(bytes)
}

/// The want of memory for which bytes were not read.
fn memory_of(fault: ImageError) -> Option<AllocError>
    ensures { IfNone result (IsMemory fault → ⊥) }
{
    match fault {
        ImageError::Memory(error) => Some(error),
        ImageError::Truncated(_) => None,
        ImageError::BadField(_) => None,
        ImageError::Trailing(_) => None,
    }
}

/// The image that bytes spell, if they spell one.
fn spelled(alloc: Global, bytes: &[u8]) -> Result<Option<Image>, AllocError>
    ensures some { IfOk result (λ found. IfSome found (λ image. Spells bytes.now image)) }
    ensures none { IfOk result (λ found. IfNone found ((image : Fields) → Spells bytes.now image → ⊥)) }
{
    match read(alloc, bytes) {
        Ok(image) => Ok(Some(image)),
        Err(fault) => match memory_of(fault) {
            Some(error) => Err(error),
            None => Ok(None),
        },
    }
}

/// Whether an image of version 2 begins where a file does, and has as many words as it loads.
fn is_image_of(image: &Image, entry: u32, text: usize, globals: usize) -> bool
    ensures { result ≡ is_image_of image.now entry text globals }
{
    image.version() == 2
        && image.entry() == entry
        && image.text().len() == text
        && image.globals().len() == globals
}

/// The image that a note gives for the text and data that are loaded.
pub(crate) fn image_of(
    alloc: Global,
    bytes: &[u8],
    note: Segment,
    text: &List<u32>,
    globals: &List<u32>,
) -> Result<Image, ElfError>
    requires header { header_size ≤ length bytes.now }
    requires there { note.offset + note.file_size ≤ length bytes.now }
    requires head { head_size ≤ note.file_size }
    requires text { text.now ≡ text_of bytes.now }
    requires globals { globals.now ≡ data_of bytes.now }
    ensures found { IfOk result (λ image. Gives bytes.now note image) }
    ensures fault { IfErr result (λ fault. IsNoteFault bytes.now note fault) }
{
    let at = note.offset as usize + HEAD_SIZE;
    let size = word_at(bytes, note.offset as usize + 4) as usize;
    if (note.file_size as usize) < HEAD_SIZE + size || size < FRONT_SIZE {
        return Err(ElfError::BadNote(u64::from(note.offset)));
    }
    let whole = put_in(alloc, &bytes[at..at + size], text, globals)?;
    let entry = word_at(bytes, ENTRY_AT);
    match spelled(alloc, whole.as_slice())? {
        Some(image) => {
            if is_image_of(&image, entry, text.len(), globals.len()) {
                Ok(image)
            } else {
                Err(ElfError::BadNote(u64::from(note.offset)))
            }
        }
        None => Err(ElfError::BadNote(u64::from(note.offset))),
    }
}
