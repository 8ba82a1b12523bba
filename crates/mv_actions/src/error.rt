//! Why a list of items has no actions.

ghost use Rattle.std.specs.Prelude.{◌≡◌, alloc_error};

use std::alloc::{AllocError, AllocFailed};
use thiserror::Error;

/// Why a list of items has no actions.
#[derive(Debug, Drop, Error)]
pub enum ActionsError {
    /// The item with this number, counted from 1, is the first that names no switch or has a value that isn't one of its type.
    #[error("item {0} names no switch, or its value isn't one of the type")]
    Refused(u64),
    /// There is no memory.
    #[error("out of memory")]
    Memory(AllocError),
}

impl From<AllocError> for ActionsError {
    ghost use Rattle.mv_actions.specs.declared.error.ActionsError.{ActionsError};

    ghost from_gives = { λ _ error. error ≡ ActionsError.Memory alloc_error };

    fn from(error: AllocError) -> ActionsError {
        ActionsError::Memory(error)
    }
}

impl<T: Drop> From<AllocFailed<T>> for ActionsError {
    ghost use Rattle.mv_actions.specs.declared.error.ActionsError.{ActionsError};

    ghost from_gives = { λ _ error. error ≡ ActionsError.Memory alloc_error };

    fn from(failed: AllocFailed<T>) -> ActionsError {
        ActionsError::Memory(AllocError::from(failed))
    }
}
