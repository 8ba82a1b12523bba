ghost use Rattle.std.specs.Prelude.{◌≡◌, alloc_error};
ghost use Rattle.mv_variants.specs.declared.error.VariantError.TheVariants.{Memory};

use crate::size::Size;
use std::alloc::{AllocError, AllocFailed};
use thiserror::Error;

/// Why a function's variants aren't all made.
#[derive(Debug, Drop, Error)]
pub enum VariantError {
    /// There is no room for their code: how much there is with that of the first variant that has none.
    #[error("there is no room for the code of a function's variants")]
    Limit(Size),
    /// There is no memory.
    #[error("out of memory")]
    Memory(AllocError),
}

impl From<AllocError> for VariantError {
    ghost from_gives = { λ e given. given ≡ Memory e };

    fn from(e: AllocError) -> VariantError {
        VariantError::Memory(e)
    }
}

impl<T: Drop> From<AllocFailed<T>> for VariantError {
    ghost from_gives = { λ _ given. given ≡ Memory alloc_error };

    fn from(_e: AllocFailed<T>) -> VariantError {
        VariantError::Memory(AllocError)
    }
}
