//! What the program `mvharts` comes to.

use crate::row::Row;
use mv_harts::mvharts;
use mv_io::{MemShelf, MemSink};
use mv_probe::{FetchOracle, Oldest};
use std::alloc::{AllocError, Global};

/// The name of the file with a row's text.
const FILE: &str = "a.c";

/// How many bytes a sink has room for where a row says nothing.
pub(crate) const ROOM: u32 = 8_192;

// The words of a line.
fn words_of(alloc: Global, line: &str) -> Result<Vec<String>, AllocError> {
    let mut words = Vec::new(alloc);
    for word in line.split_whitespace() {
        words.push(word.to_string(alloc)?)?;
    }
    Ok(words)
}

/// A sink with so much room, of which a write fails.
pub(crate) fn sink_of(alloc: Global, room: u32, failing: u32) -> Result<MemSink, AllocError> {
    MemSink::new(
        alloc,
        room as usize,
        ROOM as usize,
        vec![in alloc; failing]?,
    )
}

// A shelf with the file of a row, of which a call fails.
fn shelf_of(alloc: Global, row: Row) -> Result<MemShelf, AllocError> {
    let mut shelf = MemShelf::new(alloc, vec![in alloc; row.number("shelf", 0, 0)]?);
    shelf.put(alloc, FILE, row.text.as_bytes())?;
    Ok(shelf)
}

// The number of the status to which the words of a line come.
fn status_of(
    alloc: Global,
    row: Row,
    line: &str,
    out: &mut MemSink,
    notes: &mut MemSink,
) -> Result<u8, AllocError> {
    let words = words_of(alloc, line)?;
    let mut shelf = shelf_of(alloc, row)?;
    let mut oracle: Box<dyn FetchOracle> = Box::new(alloc, Oldest)?;
    let status = mvharts(alloc, words.as_slice(), &mut shelf, out, notes, &mut oracle);
    Ok(status.number())
}

// The output, the notes, and where there are none the number of the status.
fn told(alloc: Global, status: u8, out: &[u8], notes: &[u8]) -> Result<Vec<u8>, AllocError> {
    let mut text = out.to_vec(alloc)?;
    text.extend_from_slice(notes)?;
    if notes.is_empty() {
        text.extend_from_slice(format!(in alloc; "\nstatus {status}\n")?.as_bytes())?;
    }
    Ok(text)
}

/// What the words of a line come to: the output, the notes, and the number of a status without a last line.
pub(crate) fn outcome_of(alloc: Global, row: Row, line: &str) -> Result<Vec<u8>, AllocError> {
    let room = row.number("room", 0, ROOM);
    let mut out = sink_of(alloc, room, row.number("write", 0, 0))?;
    let mut notes = sink_of(alloc, ROOM, row.number("note", 0, 0))?;
    let status = status_of(alloc, row, line, &mut out, &mut notes)?;
    told(alloc, status, out.bytes(), notes.bytes())
}
