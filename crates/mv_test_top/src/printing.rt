//! How it is printed what a command came to.

use crate::outcome::Outcome;
use crate::row::Row;
use std::{io, str};

/// How many equal bytes are told by one of them, where there is no other byte.
const MANY: usize = 64;

/// The number of the status of a refused text.
pub(crate) const REFUSED: u8 = 3;

/// The numbers of the statuses without a last line: want of memory, and a write that failed.
const SILENT: [u8; 2] = [4, 6];

// Prints some bytes, and ends their last line.
fn print_bytes(rt: &HostRuntime, bytes: &[u8]) -> io::Result<()> {
    let Some(last) = bytes.last() else {
        return Ok(());
    };
    if bytes.len() > MANY && bytes[1..] == bytes[..bytes.len() - 1] {
        return println!(rt; "{}..", *last as char);
    }
    for byte in bytes {
        print!(rt; "{}", *byte as char)?;
    }
    if *last != b'\n' {
        println!(rt)?;
    }
    Ok(())
}

// Prints the words of a line, with ADDRESS in place of each address.
fn print_line(rt: &HostRuntime, line: &str) -> io::Result<()> {
    for (index, word) in line.split(' ').enumerate() {
        let mark = if index > 0 { " " } else { "" };
        let word = if word.starts_with("0x") {
            "ADDRESS"
        } else {
            word
        };
        print!(rt; "{mark}{word}")?;
    }
    println!(rt)
}

// Prints the lines of a listing.
fn print_listing(rt: &HostRuntime, bytes: &[u8]) -> io::Result<()> {
    for line in str::from_utf8(bytes).unwrap_or("").lines() {
        print_line(rt, line)?;
    }
    Ok(())
}

/// Prints what the command of a row came to.
pub(crate) fn print_outcome(rt: &HostRuntime, row: &Row, outcome: &Outcome) -> io::Result<()> {
    if row.said("verdict").is_some() && outcome.status != REFUSED {
        return println!(rt; "accepted");
    }
    if row.words().0.starts_with("list ") && row.files.len() == 1 {
        print_listing(rt, outcome.out.as_slice())?;
    } else {
        print_bytes(rt, outcome.out.as_slice())?;
    }
    if SILENT.contains(&outcome.status) {
        println!(rt; "status {}", outcome.status)?;
    }
    print_bytes(rt, outcome.notes.as_slice())?;
    if row.said("log").is_some() {
        println!(rt; "{}", outcome.log)?;
    }
    Ok(())
}
