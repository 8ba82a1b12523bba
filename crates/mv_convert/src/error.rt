//! Why a file gives a conversion nothing.

ghost use Rattle.std.specs.Prelude.{◌≡◌};
ghost use Rattle.mv_convert.specs.Causes.{of_elf, of_image, of_scan};

use mv_asmtext::ScanError;
use mv_elf::ElfError;
use mv_image::ImageError;
use std::alloc::AllocError;
use thiserror::Error;

/// Why a file gives a conversion nothing.
#[derive(Debug, Drop, Error)]
pub enum ConvertError {
    /// The file holds no image: the code of its first fault, and the offset in bytes. Codes 20 to 23 are those of ELF files alone.
    #[error("bad image {0} {1}")]
    BadImage(u8, u64),
    /// A line of assembler text is at fault: the code, and the line from 1.
    #[error("refused {0} {1}:1")]
    BadLine(u8, u32),
    /// There is too much of assembler text, of its words of text or of its words of data: the code, and the count.
    #[error("refused {0} count {1}")]
    TooMany(u8, u64),
    /// There is no memory.
    #[error("out of memory")]
    Memory(AllocError),
}

impl From<ImageError> for ConvertError {
    ghost from_gives = { λ e given. given ≡ of_image e };

    fn from(e: ImageError) -> ConvertError {
        match e {
            ImageError::Truncated(offset) => ConvertError::BadImage(10, offset),
            ImageError::BadField(offset) => ConvertError::BadImage(11, offset),
            ImageError::Trailing(offset) => ConvertError::BadImage(12, offset),
            ImageError::Memory(e) => ConvertError::Memory(e),
        }
    }
}

impl From<ScanError> for ConvertError {
    ghost from_gives = { λ e given. given ≡ of_scan e };

    fn from(e: ScanError) -> ConvertError {
        match e {
            ScanError::TooLong(count) => ConvertError::TooMany(3, count),
            ScanError::Line { code, line } => ConvertError::BadLine(code, line),
            ScanError::TextLimit(count) => ConvertError::TooMany(9, count),
            ScanError::DataLimit(count) => ConvertError::TooMany(13, count),
            ScanError::Memory(e) => ConvertError::Memory(e),
        }
    }
}

impl From<ElfError> for ConvertError {
    ghost from_gives = { λ e given. given ≡ of_elf e };

    fn from(e: ElfError) -> ConvertError {
        match e {
            ElfError::Truncated(offset) => ConvertError::BadImage(10, offset),
            ElfError::BadField(offset) => ConvertError::BadImage(20, offset),
            ElfError::BadSegment(offset) => ConvertError::BadImage(21, offset),
            ElfError::Foreign(offset) => ConvertError::BadImage(22, offset),
            ElfError::BadNote(offset) => ConvertError::BadImage(23, offset),
            ElfError::Memory(e) => ConvertError::Memory(e),
        }
    }
}
