//! Why tokens are refused.
use mv_syntax::place::Place;
use std::alloc::AllocError;
use thiserror::Error;

/// Why the tokens of a text are no unit that is read.
#[derive(Debug, Drop, Error)]
pub enum ParseError {
    /// The first token at which the level is above 255.
    #[error("line {}, column {}: nested too deep", .0.line, .0.column)]
    Nesting(Place),
    /// The first token, or the end, such that the tokens up to and with it begin no unit.
    #[error("line {}, column {}: the grammar allows nothing that goes on so", .0.line, .0.column)]
    Syntax(Place),
    /// There is no memory.
    #[error("out of memory")]
    Memory(AllocError),
}
