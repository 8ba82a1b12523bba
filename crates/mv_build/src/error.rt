ghost use Rattle.std.specs.Prelude.{◌≡◌, alloc_error};
ghost use Rattle.mv_build.specs.Answers.{of_front};
ghost use Rattle.mv_build.specs.Errors.{of_linking, of_selecting, of_varying, refusal_at};
ghost use Rattle.mv_build.specs.declared.error.BuildError.TheVariants.{Memory};

use crate::image::SITE_LIMIT;
use mv_front::{FrontError, Refusal};
use mv_linker::LinkError;
use mv_select::error::SelectError;
use mv_variants::VariantError;
use mv_variants::size::Size;
use std::alloc::{AllocError, AllocFailed};
use thiserror::Error;

/// Why a text has no image.
#[derive(Debug, Drop, Error)]
pub enum BuildError {
    /// The text is refused.
    #[error("{0}")]
    Refused(Refusal),
    /// There is no memory.
    #[error("out of memory")]
    Memory(AllocError),
}

impl From<AllocError> for BuildError {
    ghost from_gives = { λ e given. given ≡ Memory e };

    fn from(e: AllocError) -> BuildError {
        BuildError::Memory(e)
    }
}

impl<T: Drop> From<AllocFailed<T>> for BuildError {
    ghost from_gives = { λ _ given. given ≡ Memory alloc_error };

    fn from(_e: AllocFailed<T>) -> BuildError {
        BuildError::Memory(AllocError)
    }
}

impl From<FrontError> for BuildError {
    ghost from_gives = { λ e given. given ≡ of_front e };

    fn from(e: FrontError) -> BuildError {
        match e {
            FrontError::Refused(refusal) => BuildError::Refused(refusal),
            FrontError::Memory(e) => BuildError::Memory(e),
        }
    }
}

impl From<SelectError> for BuildError {
    ghost from_gives = { λ e given. given ≡ of_selecting e };

    fn from(e: SelectError) -> BuildError {
        match e {
            SelectError::Frame { function, bytes } => {
                BuildError::Refused(Refusal::counted(8, function, bytes))
            }
            SelectError::Memory(e) => BuildError::Memory(e),
        }
    }
}

impl From<VariantError> for BuildError {
    ghost from_gives = { λ e given. given ≡ of_varying e };

    fn from(e: VariantError) -> BuildError {
        match e {
            VariantError::Limit(size) => BuildError::Refused(refusal_at(size)),
            VariantError::Memory(e) => BuildError::Memory(e),
        }
    }
}

impl From<LinkError> for BuildError {
    ghost from_gives = { λ e given. given ≡ of_linking e };

    fn from(e: LinkError) -> BuildError {
        match e {
            LinkError::Sites(count) => BuildError::Refused(Refusal::counted(14, 0, count)),
            LinkError::DataLimit(count) => BuildError::Refused(Refusal::counted(13, 0, count)),
            LinkError::TextLimit(count) => BuildError::Refused(Refusal::counted(9, 0, count)),
            LinkError::Memory(e) => BuildError::Memory(e),
        }
    }
}

// The refusal where there is no room for code of some size: it has too many sites, or else too many words.
fn refusal_at(size: Size) -> Refusal
    ensures { result ≡ refusal_at size }
{
    if size.sites > SITE_LIMIT {
        return Refusal::counted(14, 0, size.sites);
    }
    Refusal::counted(9, 0, size.words)
}
