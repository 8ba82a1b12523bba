//! Why a unit is refused.
use mv_syntax::place::Place;
use std::alloc::AllocError;
use thiserror::Error;

/// Why a unit has no program.
#[derive(Debug, Drop, Error)]
pub enum TypeError {
    /// The first place at which a rule is broken, with the least rule that is broken there.
    #[error("line {}, column {}: rule {} is broken", .0.line, .0.column, .1)]
    Rule(Place, u8),
    /// No rule is broken. The least limit that the program exceeds, with the count of its first part in the order of the text that exceeds it.
    #[error("limit {0} is exceeded by the count {1}")]
    Limit(u8, u64),
    /// There is no memory.
    #[error("out of memory")]
    Memory(AllocError),
}
