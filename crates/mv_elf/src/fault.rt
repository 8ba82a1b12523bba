//! Why a file holds no image.

ghost use Rattle.std.specs.Prelude.{◌≡◌};
ghost use Rattle.mv_elf.specs.declared.fault.ElfError.TheVariants.{Memory};

use std::alloc::{AllocError, AllocFailed};
use thiserror::Error;

/// Why a file holds no image, with the offset in bytes of the first place that is wrong.
#[derive(Debug, Drop, Error)]
pub enum ElfError {
    /// The header, a program header or the bytes of a segment pass the end of the file, which is the offset.
    #[error("bad image 10 {0}")]
    Truncated(u64),
    /// A field of the header is wrong, or the entry is no word of text.
    #[error("bad image 20 {0}")]
    BadField(u64),
    /// A loaded segment breaks a rule, or none is text. The offset is its program header's, or the first one's.
    #[error("bad image 21 {0}")]
    BadSegment(u64),
    /// The file is of another class, order of bytes, type or machine, or has flags.
    #[error("bad image 22 {0}")]
    Foreign(u64),
    /// The note gives no image. The offset is the note's.
    #[error("bad image 23 {0}")]
    BadNote(u64),
    /// There was no memory.
    #[error("out of memory")]
    Memory(AllocError),
}

impl From<AllocError> for ElfError {
    ghost from_gives = { λ e f. f ≡ Memory e };

    fn from(e: AllocError) -> ElfError {
        ElfError::Memory(e)
    }
}

impl<T: Drop> From<AllocFailed<T>> for ElfError {
    ghost use Rattle.std.specs.Prelude.{◌≡◌, alloc_error};
    ghost use Rattle.mv_elf.specs.declared.fault.ElfError.TheVariants.{Memory};

    ghost from_gives = { λ _ f. f ≡ Memory alloc_error };

    fn from(_e: AllocFailed<T>) -> ElfError {
        ElfError::Memory(AllocError)
    }
}
