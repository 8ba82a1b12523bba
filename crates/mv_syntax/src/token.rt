// The tokens of a source.

use crate::place::Place;
use mv_num::kind::Kind;
use mv_num::list::List;

/// What a token is. A word or a mark has its number in its row.
#[derive(Drop)]
pub enum Piece {
    /// A keyword, by its number (`keywords`).
    Keyword(u8),
    /// An identifier: its text is that of the token.
    Name,
    /// An integer or a character constant, with its type.
    Number(u32, Kind),
    /// The bytes of a string literal, without a closing 0.
    Chars(List<u8>),
    /// A punctuator, by its number (`mv_ast::marks`).
    Mark(u8),
}

/// A token, with where its text starts and stops in the source.
#[derive(Drop)]
pub struct Token {
    /// The place of its first byte.
    pub place: Place,
    /// The offset of its first byte in the source.
    pub start: u32,
    /// The offset behind its last byte.
    pub stop: u32,
    /// What it is.
    pub what: Piece,
}

/// The tokens of a source, and the place of its end.
#[derive(Drop)]
pub struct Tokens {
    /// In the order of the source.
    pub items: List<Token>,
    /// The place behind the last byte of the source.
    pub end: Place,
}
