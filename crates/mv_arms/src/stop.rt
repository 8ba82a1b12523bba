//! Why a walk over code has stopped.

use std::alloc::{AllocError, AllocFailed};

/// Why a walk over code has stopped.
#[derive(Clone, Copy, PartialEq, Eq, Debug)]
pub enum Stop {
    /// There is no memory.
    Memory,
    /// The code can't be made so.
    Unfit,
}

impl From<AllocError> for Stop {
    fn from(_e: AllocError) -> Stop {
        Stop::Memory
    }
}

impl<T: Drop> From<AllocFailed<T>> for Stop {
    fn from(_e: AllocFailed<T>) -> Stop {
        Stop::Memory
    }
}
