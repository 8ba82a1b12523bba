//! The file of an image.

ghost use Rattle.std.specs.Prelude.{◌≡◌, ◌≤◌, ◌<◌, ◌+◌, ◌*◌, ◌^◌, ◌++◌, length, take, drop, IfOk, OnOk};
ghost use Rattle.mv_image.specs.Versions.{upgraded};
ghost use Rattle.mv_image.specs.Faults.{Rules, Spells};
ghost use Rattle.mv_elf.specs.Notes.{front_size};
ghost use Rattle.mv_elf.specs.Faults.{Holds};
ghost use Rattle.mv_elf.specs.Writing.{count_in, data_program, file_of, front_words, halves, header_words, note_of, note_program, program_words, text_at, text_program};

use crate::header::{EXECUTABLE, HEADER_SIZE, MAGIC, PROGRAM_SIZE, RISCV};
use crate::notes::{FRONT_SIZE, HEAD_SIZE, NAME};
use mv_descriptors::push_all;
use mv_image::facts::within_limits;
use mv_image::{Image, upgrade, write};
use mv_num::bytes::bytes_of_words;
use mv_num::list::List;
use mv_num::regions::{DATA_START, TEXT_START};
use std::alloc::{AllocError, Global};

/// The spelling of an image in version 2.
fn second_spelling(alloc: Global, image: &Image) -> Result<Vec<u8>, AllocError>
    ensures { IfOk result (λ bytes. Spells bytes.items (upgraded image.now)) }
{
    let second = upgrade(alloc, image)?;
    let bytes = write(alloc, &second);
    drop(second);
    bytes
}

/// What is left of a spelling when so many bytes of text and data are taken out.
fn without_code(alloc: Global, whole: &[u8], code: usize) -> Result<Vec<u8>, AllocError>
    requires small { code ≤ 2 ^ 21 }
    requires room { front_size + code ≤ length whole.now }
    ensures { IfOk result (λ note. note.items ≡ take front_size whole.now ++ drop (front_size + code) whole.now) }
{
    let mut note = Vec::from_slice(alloc, &whole[..FRONT_SIZE])?;
    note.extend_from_slice(&whole[FRONT_SIZE + code..])?;
    Ok(note)
}

/// What stands in the note of an image: its spelling in version 2, without text and data.
fn note_of(alloc: Global, image: &Image) -> Result<Vec<u8>, AllocError>
    ensures value { IfOk result (λ note. note.items ≡ note_of image.now) }
    ensures rules { OnOk result (Rules (upgraded image.now)) }
{
    let whole = second_spelling(alloc, image)?;
    without_code(alloc, whole.as_slice(), code_size(image))
}

/// How many bytes text and data have.
fn code_size(image: &Image) -> usize
    ensures value { result ≡ 4 * (length image.now.text + length image.now.globals) }
    ensures small { result ≤ 2 ^ 21 }
{
    text_size(image) as usize + data_size(image) as usize
}

/// Puts a program header, of a segment that has as much memory as bytes.
fn push_program(
    to: &mut List<u32>,
    kind: u32,
    offset: u32,
    address: u32,
    size: u32,
    flags: u32,
) -> Result<(), AllocError>
    ensures { OnOk result (to.new ≡ to.old ++ program_words kind offset address size flags) }
{
    let words = [kind, offset, address, address, size, size, flags, 4];
    push_all(to, &words)
}

fn push_header(to: &mut List<u32>, entry: u32, count: u32) -> Result<(), AllocError>
    ensures { OnOk result (to.new ≡ to.old ++ header_words entry count) }
{
    let words = [
        MAGIC,
        0x0001_0101,
        0,
        0,
        halves(EXECUTABLE, RISCV),
        1,
        entry,
        HEADER_SIZE as u32,
        0,
        0,
        halves(HEADER_SIZE as u16, PROGRAM_SIZE as u16),
        count,
        0,
    ];
    push_all(to, &words)
}

/// Two numbers of two bytes as a word.
fn halves(low: u16, high: u16) -> u32
    ensures { result ≡ halves low high }
{
    u32::from(low) + 0x1_0000 * u32::from(high)
}

/// How many program headers there are.
fn count_in(image: &Image) -> u32
    ensures value { result ≡ count_in image.now }
    ensures small { result ≤ 3 }
{
    if image.globals().len() == 0 { 2 } else { 3 }
}

/// Where the text stands.
fn text_at(image: &Image) -> u32
    ensures value { result ≡ text_at image.now }
    ensures small { result ≤ 148 }
{
    HEADER_SIZE as u32 + PROGRAM_SIZE as u32 * count_in(image)
}

/// How many bytes the text has.
fn text_size(image: &Image) -> u32
    ensures value { result ≡ 4 * length image.now.text }
    ensures small { result ≤ 2 ^ 19 }
{
    within_limits(image);
    4 * image.text().len() as u32
}

/// How many bytes the data has.
fn data_size(image: &Image) -> u32
    ensures value { result ≡ 4 * length image.now.globals }
    ensures small { result ≤ 2 ^ 20 }
{
    within_limits(image);
    4 * image.globals().len() as u32
}

fn push_text_program(to: &mut List<u32>, image: &Image) -> Result<(), AllocError>
    ensures { OnOk result (to.new ≡ to.old ++ text_program image.now) }
{
    push_program(to, 1, text_at(image), TEXT_START, text_size(image), 7)
}

fn push_data_program(to: &mut List<u32>, image: &Image) -> Result<(), AllocError>
    ensures { OnOk result (to.new ≡ to.old ++ data_program image.now) }
{
    if image.globals().len() == 0 {
        return Ok(());
    }
    let at = text_at(image) + text_size(image);
    push_program(to, 1, at, DATA_START, data_size(image), 6)
}

/// Puts the program header of the note, in which stand so many bytes.
fn push_note_program(to: &mut List<u32>, image: &Image, note: u32) -> Result<(), AllocError>
    requires note { note ≡ length (note_of image.now) }
    requires small { note < 2 ^ 24 }
    ensures { OnOk result (to.new ≡ to.old ++ note_program image.now) }
{
    let at = text_at(image) + text_size(image) + data_size(image);
    push_program(to, 4, at, 0, HEAD_SIZE as u32 + note, 4)
}

/// The words of the file, in whose note stand so many bytes.
#[tactic(auto, unfolding(crate::specs::Writing::front_words))]
fn front_words(alloc: Global, image: &Image, note: u32) -> Result<List<u32>, AllocError>
    requires note { note ≡ length (note_of image.now) }
    requires small { note < 2 ^ 24 }
    ensures { IfOk result (λ words. words ≡ front_words image.now) }
{
    let mut words = List::new(alloc);
    push_header(&mut words, image.entry(), count_in(image))?;
    push_text_program(&mut words, image)?;
    push_data_program(&mut words, image)?;
    push_note_program(&mut words, image, note)?;
    push_all(&mut words, image.text().as_slice())?;
    push_all(&mut words, image.globals().as_slice())?;
    push_all(&mut words, &[4, note, 1, NAME])?;
    Ok(words)
}

/// The bytes of the file of an image, of which the note is given.
#[tactic(auto, unfolding(crate::specs::Writing::file_of))]
fn file_of(alloc: Global, image: &Image, note: &[u8]) -> Result<Vec<u8>, AllocError>
    requires note { note.now ≡ note_of image.now }
    requires small { length note.now < 2 ^ 24 }
    ensures { IfOk result (λ bytes. bytes.items ≡ file_of image.now) }
{
    let words = front_words(alloc, image, note.len() as u32)?;
    let mut bytes = bytes_of_words(alloc, &words)?;
    bytes.extend_from_slice(note)?;
    Ok(bytes)
}

/// The file of an image, with its tables in a note.
pub fn to_elf(alloc: Global, image: &Image) -> Result<Vec<u8>, AllocError>
    ensures bytes { IfOk result (λ bytes. bytes.items ≡ file_of image.now) }
    // What it holds is the image in version 2.
    ensures held { IfOk result (λ bytes. Holds bytes.items (upgraded image.now)) }
{
    let note = note_of(alloc, image)?;
    file_of(alloc, image, note.as_slice())
}
