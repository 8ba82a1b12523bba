//! Where a reading stands.
ghost use Rattle.std.specs.Prelude.{◌≡◌, ◌+◌, ◌≤◌, ◌<◌, ◌-◌, ◌^◌, length};
ghost use Rattle.mv_lexer.specs.Place as spec;

use crate::class::TokenClass;
use crate::include::has_line_feed;
use mv_syntax::place::Place;

/// Where a reading stands: how many bytes are behind it, its place, and whether no token stands on
/// its line yet.
#[derive(Clone, Copy, Debug, PartialEq, Eq)]
pub struct Position {
    pub offset: u32,
    pub place: Place,
    pub at_line_start: bool,
}

/// The start of a source.
pub const START: Position = Position {
    offset: 0,
    place: Place { line: 1, column: 1 },
    at_line_start: true,
};

/// The place behind a byte.
fn place_next(place: Place, byte: u8) -> Place
    requires { place.line + place.column < 2 ^ 32 - 1 }
    ensures value { result ≡ spec.place_next place byte }
    ensures column { 0 < result.column }
    ensures small { 0 < place.column → result.line + result.column ≤ place.line + place.column + 1 }
{
    if byte == b'\n' {
        Place {
            line: place.line + 1,
            column: 1,
        }
    } else {
        Place {
            line: place.line,
            column: place.column + 1,
        }
    }
}

/// The place behind some bytes.
fn place_after(mut place: Place, bytes: &[u8]) -> Place
    requires column { 0 < place.column }
    requires small { place.line + place.column + length bytes.now ≤ 1048578 }
    ensures value { result ≡ spec.place_after place bytes.now }
    ensures column { 0 < result.column }
    ensures small { result.line + result.column ≤ place.line + place.column + length bytes.now }
{
    for byte in bytes {
        place = place_next(place, *byte);
    }
    place
}

impl Position {
    /// Where a reading stands behind a lexeme.
    pub fn after(self, class: TokenClass, bytes: &[u8]) -> Position
        requires column { 0 < self.place.column }
        requires small { self.place.line + self.place.column ≤ self.offset + 2 }
        requires fits { self.offset + length bytes.now ≤ 1048576 }
        ensures value { result ≡ spec.after self class bytes.now }
        ensures column { 0 < result.place.column }
        ensures small { result.place.line + result.place.column ≤ result.offset + 2 }
    {
        Position {
            offset: self.offset + bytes.len() as u32,
            place: place_after(self.place, bytes),
            at_line_start: class.is_skipped() && (self.at_line_start || has_line_feed(bytes)),
        }
    }
}
