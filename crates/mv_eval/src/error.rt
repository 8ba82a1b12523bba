//! Why an evaluation has no end.

use std::alloc::AllocError;
use thiserror::Error;

/// Why an evaluation has no end.
#[derive(Debug, Drop, Error)]
pub enum EvalError {
    /// A read of the input failed.
    #[error("a read of the input failed")]
    Input,
    /// A write to the output failed.
    #[error("a write to the output failed")]
    Output,
    /// There is no memory.
    #[error("out of memory")]
    Memory(AllocError),
}
