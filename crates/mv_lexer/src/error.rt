//! Why a source is refused.
use mv_syntax::place::Place;
use std::alloc::AllocError;
use thiserror::Error;

/// Why a source has no tokens.
#[derive(Debug, Drop, Error)]
pub enum LexError {
    /// No token of C begins at this place, or what begins there is malformed.
    #[error("line {}, column {}: no token begins here", .0.line, .0.column)]
    BadToken(Place),
    /// What begins at this place is C, or nearly so, and the profile leaves it out.
    #[error("line {}, column {}: the profile leaves this out", .0.line, .0.column)]
    Unsupported(Place),
    /// The source, or an identifier in it, has so many bytes, which are too many.
    #[error("{0} bytes are too many")]
    TooLong(u64),
    /// There is no memory.
    #[error("out of memory")]
    Memory(AllocError),
}
