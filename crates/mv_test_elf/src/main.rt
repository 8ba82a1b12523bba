//! Reads ELF files that were changed in places, and says which image each holds or what it is refused for; and writes the file of an image.
//!
//!     NAME EDIT EDIT ..
//!     NAME as elf
//!
//! are rows of the input: the file of which NAME.txt in `data/` has the words, and what is done to its bytes, in order; and the image of which it has the
//! words. Words and bytes are in hexadecimal, offsets and counts are decimal:
//!
//!     AT=WORD    puts the word at the offset
//!     AT:BYTE    puts the byte at the offset
//!     <COUNT     keeps so many bytes from the start
//!     +BYTE      puts the byte behind the others
//!
//! Printed is the code and the offset of the refusal, or how many bytes the image has that the file holds and their sum; of an image that is written the bytes
//! of its file. What is expected is worked out by `tools/elf_rows.py`, from the rules alone.
#![tactic(auto)]

use byteorder::{ByteOrder, LittleEndian};
use mv_elf::{ElfError, from_elf, to_elf};
use mv_image::{read, write};
use mv_num::bytes::bytes_of_words;
use mv_num::list::List;
use std::alloc::{AllocError, Global};
use std::{fs, io};

/// What is said of some bytes.
#[derive(Clone, Copy)]
enum Verdict {
    Holds(usize, u32),
    Refused(u8, u64),
    NoMemory,
}

/// Puts the words of a line behind others, none of a remark.
fn push_words(words: &mut List<u32>, line: &str) -> Result<(), AllocError> {
    if line.starts_with('#') {
        return Ok(());
    }
    for word in line.split_whitespace() {
        words.push(u32::from_str_radix(word, 16).unwrap_or(0))?;
    }
    Ok(())
}

fn bytes_of(alloc: Global, text: &str) -> Result<Vec<u8>, AllocError> {
    let mut words = List::new(alloc);
    for line in text.lines() {
        push_words(&mut words, line)?;
    }
    bytes_of_words(alloc, &words)
}

/// Puts a word at an offset where there is room for one.
fn put_word(bytes: &mut [u8], at: usize, word: u32) {
    if bytes.len() >= 4 && at <= bytes.len() - 4 {
        LittleEndian::write_u32(&mut bytes[at..at + 4], word);
    }
}

/// Puts a byte at an offset where there is one.
fn put_byte(bytes: &mut [u8], at: usize, byte: u8) {
    if at < bytes.len() {
        bytes[at] = byte;
    }
}

/// Carries out an edit. One that is malformed does nothing.
fn edit(bytes: &mut Vec<u8>, text: &str) -> Result<(), AllocError> {
    if let Some((at, word)) = text.split_once('=') {
        let word = u32::from_str_radix(word, 16).unwrap_or(0);
        put_word(bytes, at.parse::<usize>().unwrap_or(0), word);
    }
    if let Some((at, byte)) = text.split_once(':') {
        let byte = u8::from_str_radix(byte, 16).unwrap_or(0);
        put_byte(bytes, at.parse::<usize>().unwrap_or(0), byte);
    }
    if let Some(count) = text.strip_prefix("<") {
        bytes.truncate(count.parse::<usize>().unwrap_or(0));
    }
    if let Some(byte) = text.strip_prefix("+") {
        bytes.push(u8::from_str_radix(byte, 16).unwrap_or(0))?;
    }
    Ok(())
}

/// The sum of some bytes by Fowler, Noll and Vo, of 32 bits.
fn sum_of(bytes: &[u8]) -> u32 {
    let mut sum: u32 = 0x811c_9dc5;
    for byte in bytes {
        sum = (sum ^ u32::from(*byte)).wrapping_mul(0x0100_0193);
    }
    sum
}

fn judge(alloc: Global, bytes: &[u8]) -> Verdict {
    let image = match from_elf(alloc, bytes) {
        Ok(image) => image,
        Err(ElfError::Memory(_)) => return Verdict::NoMemory,
        Err(ElfError::Truncated(at)) => return Verdict::Refused(10, at),
        Err(ElfError::BadField(at)) => return Verdict::Refused(20, at),
        Err(ElfError::BadSegment(at)) => return Verdict::Refused(21, at),
        Err(ElfError::Foreign(at)) => return Verdict::Refused(22, at),
        Err(ElfError::BadNote(at)) => return Verdict::Refused(23, at),
    };
    match write(alloc, &image) {
        Ok(written) => Verdict::Holds(written.len(), sum_of(written.as_slice())),
        Err(_) => Verdict::NoMemory,
    }
}

fn content_of(rt: &HostRuntime, name: &str) -> io::Result<Vec<u8>> {
    let file = format!(in rt.alloc(); "{name}.txt")?;
    let text = fs::read_to_string(rt, file.as_str())?;
    Ok(bytes_of(rt.alloc(), text.as_str())?)
}

/// What is said of the file of a row.
fn verdict_of(rt: &HostRuntime, row: &str) -> io::Result<Verdict> {
    let mut parts = row.split(' ');
    let mut bytes = content_of(rt, parts.next().unwrap_or(""))?;
    for part in parts {
        edit(&mut bytes, part)?;
    }
    Ok(judge(rt.alloc(), &bytes))
}

/// Prints the file of the image of a name.
fn print_elf(rt: &HostRuntime, name: &str) -> io::Result<()> {
    let bytes = content_of(rt, name)?;
    if let Ok(image) = read(rt.alloc(), &bytes) {
        for byte in to_elf(rt.alloc(), &image)?.as_slice() {
            print!(rt; "{byte:02x}")?;
        }
    }
    println!(rt; "")
}

fn main(rt: HostRuntime) -> io::Result<()> {
    for row in rt.lines(rt.alloc()) {
        let row = row?;
        print!(rt; "{}: ", row.as_str())?;
        if let Some(name) = row.as_str().strip_suffix(" as elf") {
            print_elf(&rt, name)?;
            continue;
        }
        match verdict_of(&rt, row.as_str())? {
            Verdict::Holds(count, sum) => println!(rt; "{count} bytes {sum:08x}")?,
            Verdict::Refused(code, offset) => println!(rt; "{code} {offset}")?,
            Verdict::NoMemory => println!(rt; "no memory")?,
        }
    }
    Ok(())
}
