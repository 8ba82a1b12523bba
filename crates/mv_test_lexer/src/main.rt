//! Reads sources, one a line, and prints what each is read as. A line that begins with `#` is printed as it is.
//!
//!     lex SOURCE       its one token, else how many tokens it has, or its refusal with the line and the column
//!     tokens SOURCE    the place of each token, the offsets of its start and its stop, and the token; then the place of the end
//!     spaces N         as `lex`, of so many spaces
//!
//! In a source the Unicode picture of a control character or of a space stands for that character. A keyword and a mark are printed
//! by their numbers, and a string literal by its bytes.
#![tactic(auto)]

use mv_lexer::error::LexError;
use mv_lexer::lex;
use mv_num::kind::Kind;
use mv_syntax::token::{Piece, Token};
use std::alloc::{AllocError, Global};
use std::io;

/// The character that a written one stands for.
fn meant(written: char) -> char {
    match written {
        '␀' => '\0',
        '␈' => '\x08',
        '␉' => '\t',
        '␊' => '\n',
        '␋' => '\x0b',
        '␌' => '\x0c',
        '␍' => '\r',
        '␛' => '\x1b',
        '␠' => ' ',
        '␡' => '\x7f',
        _ => written,
    }
}

fn source_of(alloc: Global, written: &str) -> Result<String, AllocError> {
    let mut source = String::new(alloc);
    for character in written.chars() {
        source.push(meant(character))?;
    }
    Ok(source)
}

fn print_bytes(rt: &HostRuntime, bytes: &[u8]) -> io::Result<()> {
    print!(rt; "string")?;
    for byte in bytes {
        print!(rt; " {byte}")?;
    }
    println!(rt; "")
}

fn print_piece(rt: &HostRuntime, piece: &Piece) -> io::Result<()> {
    match piece {
        Piece::Keyword(number) => println!(rt; "keyword {number}"),
        Piece::Name => println!(rt; "name"),
        Piece::Number(value, Kind::Int) => println!(rt; "int {value}"),
        Piece::Number(value, _) => println!(rt; "unsigned {value}"),
        Piece::Chars(bytes) => print_bytes(rt, bytes.as_slice()),
        Piece::Mark(number) => println!(rt; "mark {number}"),
    }
}

fn print_read(rt: &HostRuntime, tokens: &[Token]) -> io::Result<()> {
    match tokens {
        [token] => print_piece(rt, &token.what),
        _ => println!(rt; "{} tokens", tokens.len()),
    }
}

fn print_refusal(rt: &HostRuntime, refusal: &LexError) -> io::Result<()> {
    match refusal {
        LexError::BadToken(at) => println!(rt; "bad {} {}", at.line, at.column),
        LexError::Unsupported(at) => println!(rt; "unsupported {} {}", at.line, at.column),
        LexError::TooLong(count) => println!(rt; "too long {count}"),
        LexError::Memory(_) => println!(rt; "no memory"),
    }
}

fn show_read(rt: &HostRuntime, source: &[u8]) -> io::Result<()> {
    match lex(rt.alloc(), source) {
        Ok(tokens) => print_read(rt, tokens.items.as_slice()),
        Err(refusal) => print_refusal(rt, &refusal),
    }
}

fn print_each(rt: &HostRuntime, tokens: &[Token]) -> io::Result<()> {
    for token in tokens {
        let at = token.place;
        print!(rt; "{} {} {} {} ", at.line, at.column, token.start, token.stop)?;
        print_piece(rt, &token.what)?;
    }
    Ok(())
}

fn show_each(rt: &HostRuntime, source: &[u8]) -> io::Result<()> {
    match lex(rt.alloc(), source) {
        Ok(tokens) => {
            print_each(rt, tokens.items.as_slice())?;
            println!(rt; "{} {} end", tokens.end.line, tokens.end.column)
        }
        Err(refusal) => print_refusal(rt, &refusal),
    }
}

fn show_spaces(rt: &HostRuntime, count: &str) -> io::Result<()> {
    let count = count.parse::<usize>().unwrap_or(0);
    let spaces = vec![in rt.alloc(); b' '; count]?;
    show_read(rt, &spaces)
}

fn show(rt: &HostRuntime, row: &str) -> io::Result<()> {
    let (kind, written) = row.split_once(' ').unwrap_or((row, ""));
    let source = source_of(rt.alloc(), written)?;
    match kind {
        "#" => println!(rt; "{row}"),
        "lex" => show_read(rt, source.as_bytes()),
        "tokens" => show_each(rt, source.as_bytes()),
        "spaces" => show_spaces(rt, written),
        _ => println!(rt; "malformed"),
    }
}

fn main(rt: HostRuntime) -> io::Result<()> {
    for line in rt.lines(rt.alloc()) {
        let line = line?;
        show(&rt, line.as_str())?;
    }
    Ok(())
}
