//! Refusals.

ghost use Rattle.std.specs.Prelude.{◌≡◌, Some};
ghost use Rattle.mv_front.specs.Errors.{of_checking, of_lexing, of_parsing};
ghost use Rattle.mv_front.specs.Refusals.{at_place, counted, of_rule, refusal_text};

use mv_lexer::error::LexError;
use mv_parser::error::ParseError;
use mv_syntax::place::Place;
use mv_types::error::TypeError;
use std::alloc::AllocError;
use std::fmt;
use thiserror::Error;

/// Why a text is refused: the code of the cause, the place in the text, a detail as the number of a rule, and a count. What a code doesn't use
/// is 0.
#[derive(Clone, Copy, Debug, PartialEq, Eq)]
pub struct Refusal {
    pub code: u8,
    pub place: Place,
    pub detail: u32,
    pub count: u64,
}

/// The place of a refusal that has none.
const NOWHERE: Place = Place { line: 0, column: 0 };

impl Refusal {
    /// A refusal that names a place alone.
    pub fn at_place(code: u8, place: Place) -> Refusal
        ensures { result ≡ at_place code place }
    {
        Refusal {
            code,
            place,
            detail: 0,
            count: 0,
        }
    }

    /// A rule that is broken at a place.
    pub fn of_rule(place: Place, rule: u8) -> Refusal
        ensures { result ≡ of_rule place rule }
    {
        Refusal {
            code: 6,
            place,
            detail: u32::from(rule),
            count: 0,
        }
    }

    /// A count that is too great.
    pub fn counted(code: u8, detail: u32, count: u64) -> Refusal
        ensures { result ≡ counted code detail count }
    {
        Refusal {
            code,
            place: NOWHERE,
            detail,
            count,
        }
    }
}

impl fmt::Display for Refusal {
    ghost output = { λ refusal. Some (refusal_text refusal) };

    fn fmt<W: fmt::Write>(&self, f: &mut fmt::Formatter<W>) -> fmt::Result {
        let Refusal {
            code,
            place: Place { line, column },
            detail,
            count,
        } = *self;
        if code == 1 || code == 2 || code == 4 || code == 5 {
            return write!(f, "refused {code} {line}:{column}");
        }
        if code == 6 {
            return write!(f, "refused {code} {line}:{column} rule {detail}");
        }
        if code == 7 {
            return write!(f, "refused {code} limit {detail} count {count}");
        }
        if code == 8 {
            return write!(f, "refused {code} function {detail} count {count}");
        }
        write!(f, "refused {code} count {count}")
    }
}

/// Why a text has no program.
#[derive(Debug, Drop, Error)]
pub enum FrontError {
    #[error("{0}")]
    Refused(Refusal),
    #[error("out of memory")]
    Memory(AllocError),
}

impl From<LexError> for FrontError {
    ghost from_gives = { λ e given. given ≡ of_lexing e };

    fn from(e: LexError) -> FrontError {
        match e {
            LexError::BadToken(place) => FrontError::Refused(Refusal::at_place(1, place)),
            LexError::Unsupported(place) => FrontError::Refused(Refusal::at_place(2, place)),
            LexError::TooLong(count) => FrontError::Refused(Refusal::counted(3, 0, count)),
            LexError::Memory(e) => FrontError::Memory(e),
        }
    }
}

impl From<ParseError> for FrontError {
    ghost from_gives = { λ e given. given ≡ of_parsing e };

    fn from(e: ParseError) -> FrontError {
        match e {
            ParseError::Nesting(place) => FrontError::Refused(Refusal::at_place(5, place)),
            ParseError::Syntax(place) => FrontError::Refused(Refusal::at_place(4, place)),
            ParseError::Memory(e) => FrontError::Memory(e),
        }
    }
}

impl From<TypeError> for FrontError {
    ghost from_gives = { λ e given. given ≡ of_checking e };

    fn from(e: TypeError) -> FrontError {
        match e {
            TypeError::Rule(place, rule) => FrontError::Refused(Refusal::of_rule(place, rule)),
            TypeError::Limit(limit, count) => {
                FrontError::Refused(Refusal::counted(7, u32::from(limit), count))
            }
            TypeError::Memory(e) => FrontError::Memory(e),
        }
    }
}
