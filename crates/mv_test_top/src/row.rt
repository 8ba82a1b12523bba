//! A command that is to be carried out.

use std::alloc::{AllocError, Global};

/// A file that is put on the shelf.
#[derive(Drop)]
pub(crate) struct File {
    pub(crate) name: String,
    pub(crate) bytes: Vec<u8>,
}

/// A command that is to be carried out, or a remark.
#[derive(Drop)]
pub(crate) struct Row {
    /// The words, and what is said behind them.
    pub(crate) line: String,
    /// The files of its own, of which the first is `a.c`.
    pub(crate) files: Vec<File>,
}

impl Row {
    /// The words of the command, and the name of the file that is its input, empty where there is none.
    pub(crate) fn words(&self) -> (&str, &str) {
        let line = self.line.as_str();
        let words = line.split(" !").next().unwrap_or("");
        words.split_once(" < ").unwrap_or((words, ""))
    }

    /// What is said by a mark, if it is there.
    pub(crate) fn said(&self, name: &str) -> Option<&str> {
        for mark in self.line.as_str().split(" !").skip(1) {
            let (own, value) = mark.split_once(' ').unwrap_or((mark, ""));
            if own == name {
                return Some(value);
            }
        }
        None
    }

    /// The number that is said by a mark.
    pub(crate) fn number(&self, name: &str, otherwise: u32) -> u32 {
        match self.said(name) {
            Some(value) => value.parse::<u32>().unwrap_or(0),
            None => otherwise,
        }
    }
}

// A file without bytes.
fn empty_file(alloc: Global, name: &str) -> Result<File, AllocError> {
    Ok(File {
        name: name.to_string(alloc)?,
        bytes: Vec::new(alloc),
    })
}

/// The row that a line begins.
pub(crate) fn row_of(alloc: Global, line: &str) -> Result<Row, AllocError> {
    let mut files = Vec::new(alloc);
    files.push(empty_file(alloc, "a.c")?)?;
    Ok(Row {
        line: line.to_string(alloc)?,
        files,
    })
}

// Puts the bytes of a word behind others: those of `0xN` from the lowest one on, one of two digits, and four of eight digits, so often as `*N` says.
fn push_word(bytes: &mut Vec<u8>, word: &str) -> Result<(), AllocError> {
    if let Some(digits) = word.strip_prefix("0x") {
        let word = u32::from_str_radix(digits, 16).unwrap_or(0);
        return bytes.extend_from_slice(&word.to_le_bytes());
    }
    if let Ok(byte) = u8::from_str_radix(word, 16) {
        return Ok(bytes.push(byte)?);
    }
    let (word, times) = word.split_once('*').unwrap_or((word, "1"));
    let word = u32::from_str_radix(word, 16).unwrap_or(0).to_be_bytes();
    for _ in 0..times.parse::<u32>().unwrap_or(0) {
        bytes.extend_from_slice(&word)?;
    }
    Ok(())
}

// The file of some words, of which the first is its name.
fn file_of(alloc: Global, line: &str) -> Result<File, AllocError> {
    let mut words = line.split(' ');
    let mut file = empty_file(alloc, words.next().unwrap_or(""))?;
    for word in words {
        push_word(&mut file.bytes, word)?;
    }
    Ok(file)
}

// Puts a piece so many times at the end of a text, each with its number in place of `#`.
fn push_pieces(
    alloc: Global,
    text: &mut Vec<u8>,
    count: &str,
    piece: &str,
) -> Result<(), AllocError> {
    for number in 0..count.parse::<u32>().unwrap_or(0) {
        let number = format!(in alloc; "{number}")?;
        let piece = piece.replace(alloc, "#", number.as_str())?;
        text.extend_from_slice(piece.as_bytes())?;
    }
    Ok(())
}

// Puts a line at the end of a text.
fn push_line(alloc: Global, text: &mut Vec<u8>, line: &str) -> Result<(), AllocError> {
    if let Some(pieces) = line.strip_prefix("*") {
        let (count, piece) = pieces.split_once(' ').unwrap_or((pieces, ""));
        return push_pieces(alloc, text, count, piece);
    }
    if !text.is_empty() {
        text.push(b'\n')?;
    }
    text.extend_from_slice(line.as_bytes())
}

/// Takes a line of a row's files.
pub(crate) fn add_line(alloc: Global, row: &mut Row, line: &str) -> Result<(), AllocError> {
    if let Some(file) = line.strip_prefix("@") {
        return Ok(row.files.push(file_of(alloc, file)?)?);
    }
    match row.files.last_mut() {
        Some(file) => push_line(alloc, &mut file.bytes, line),
        None => Ok(()),
    }
}
