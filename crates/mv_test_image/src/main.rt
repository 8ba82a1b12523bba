//! Reads images that were changed in places, and says what each is refused for.
//!
//!     NAME EDIT EDIT ..
//!
//! is a row of the input: the image of which the file NAME.txt in `data/` has the words, and what is done to its bytes, in order. Words and bytes are in
//! hexadecimal, offsets and counts are decimal:
//!
//!     AT=WORD    puts the word at the offset
//!     AT:BYTE    puts the byte at the offset
//!     <COUNT     keeps so many bytes from the start
//!     +BYTE      puts the byte behind the others
//!
//! Printed is the code and the offset of the refusal, or `read` where the bytes were read as an image and that was written to the same bytes. What is
//! expected is worked out by `tools/image_rows.py`, from the rules alone.
#![tactic(auto)]

use byteorder::{ByteOrder, LittleEndian};
use mv_image::{ImageError, read, write};
use mv_num::bytes::bytes_of_words;
use mv_num::list::List;
use std::alloc::{AllocError, Global};
use std::{fs, io};

/// What is said of some bytes.
#[derive(Clone, Copy)]
enum Verdict {
    Read,
    WrittenOtherwise,
    Refused(u8, u64),
    NoMemory,
}

/// Puts the words of a line behind others, none of a remark.
fn push_words(words: &mut List<u32>, line: &str) -> Result<(), AllocError> {
    if line.starts_with('#') {
        return Ok(());
    }
    for word in line.split_whitespace() {
        words.push(u32::from_str_radix(word, 16).unwrap_or(0))?;
    }
    Ok(())
}

fn bytes_of(alloc: Global, text: &str) -> Result<Vec<u8>, AllocError> {
    let mut words = List::new(alloc);
    for line in text.lines() {
        push_words(&mut words, line)?;
    }
    bytes_of_words(alloc, &words)
}

/// Puts a word at an offset where there is room for one.
fn put_word(bytes: &mut [u8], at: usize, word: u32) {
    if bytes.len() >= 4 && at <= bytes.len() - 4 {
        LittleEndian::write_u32(&mut bytes[at..at + 4], word);
    }
}

/// Puts a byte at an offset where there is one.
fn put_byte(bytes: &mut [u8], at: usize, byte: u8) {
    if at < bytes.len() {
        bytes[at] = byte;
    }
}

/// Carries out an edit. One that is malformed does nothing.
fn edit(bytes: &mut Vec<u8>, text: &str) -> Result<(), AllocError> {
    if let Some((at, word)) = text.split_once('=') {
        let word = u32::from_str_radix(word, 16).unwrap_or(0);
        put_word(bytes, at.parse::<usize>().unwrap_or(0), word);
    }
    if let Some((at, byte)) = text.split_once(':') {
        let byte = u8::from_str_radix(byte, 16).unwrap_or(0);
        put_byte(bytes, at.parse::<usize>().unwrap_or(0), byte);
    }
    if let Some(count) = text.strip_prefix("<") {
        bytes.truncate(count.parse::<usize>().unwrap_or(0));
    }
    if let Some(byte) = text.strip_prefix("+") {
        bytes.push(u8::from_str_radix(byte, 16).unwrap_or(0))?;
    }
    Ok(())
}

fn judge(alloc: Global, bytes: &[u8]) -> Verdict {
    let image = match read(alloc, bytes) {
        Ok(image) => image,
        Err(ImageError::Memory(_)) => return Verdict::NoMemory,
        Err(ImageError::Truncated(at)) => return Verdict::Refused(10, at),
        Err(ImageError::BadField(at)) => return Verdict::Refused(11, at),
        Err(ImageError::Trailing(at)) => return Verdict::Refused(12, at),
    };
    match write(alloc, &image) {
        Ok(written) if written.as_slice() == bytes => Verdict::Read,
        Ok(_) => Verdict::WrittenOtherwise,
        Err(_) => Verdict::NoMemory,
    }
}

/// What is said of the image of a row.
fn verdict_of(rt: &HostRuntime, row: &str) -> io::Result<Verdict> {
    let mut parts = row.split(' ');
    let name = parts.next().unwrap_or("");
    let file = format!(in rt.alloc(); "{name}.txt")?;
    let text = fs::read_to_string(rt, file.as_str())?;
    let mut bytes = bytes_of(rt.alloc(), text.as_str())?;
    for part in parts {
        edit(&mut bytes, part)?;
    }
    Ok(judge(rt.alloc(), &bytes))
}

fn main(rt: HostRuntime) -> io::Result<()> {
    for row in rt.lines(rt.alloc()) {
        let row = row?;
        print!(rt; "{}: ", row.as_str())?;
        match verdict_of(&rt, row.as_str())? {
            Verdict::Read => println!(rt; "read")?,
            Verdict::WrittenOtherwise => println!(rt; "written otherwise")?,
            Verdict::Refused(code, offset) => println!(rt; "{code} {offset}")?,
            Verdict::NoMemory => println!(rt; "no memory")?,
        }
    }
    Ok(())
}
