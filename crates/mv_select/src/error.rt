use std::alloc::AllocError;
use thiserror::Error;

/// Why a body has no code.
#[derive(Debug, Drop, Error)]
pub enum SelectError {
    /// The frame of a function passes 2,032 bytes.
    #[error("the frame of function {function} needs {bytes} bytes, where 2,032 are allowed")]
    Frame {
        /// The number of the function.
        function: u32,
        /// How many bytes the frame needs, and the greatest `u64` where it needs more than that.
        bytes: u64,
    },
    /// There is no memory.
    #[error(transparent)]
    Memory(#[from(alloc)] AllocError),
}
