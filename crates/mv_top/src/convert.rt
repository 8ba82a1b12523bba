//! `upgrade`, `asm`, `elf` and `unelf`: what one file is made of another.

ghost use Rattle.std.specs.Prelude.{◌≡◌, MatchResult};
ghost use Rattle.mv_convert.specs.Conversions.{IsConverted};
ghost use Rattle.mv_top.specs.Converting.{status_of_conversion, IsUnconverted};

use mv_command::Conversion;
use mv_convert::{ConvertError, convert};
use mv_front::Refusal;
use mv_notes::Status;
use std::alloc::Global;

// The status of a file that gives a conversion nothing.
fn status_of_conversion(error: ConvertError) -> Status
    ensures { result ≡ status_of_conversion error }
{
    match error {
        ConvertError::BadImage(code, offset) => Status::BadImage(code, offset),
        ConvertError::BadLine(code, line) => Status::BadLine(code, line),
        ConvertError::TooMany(code, count) => Status::Refused(Refusal::counted(code, 0, count)),
        ConvertError::Memory(_) => Status::Memory,
    }
}

/// The file that a conversion makes of another. An error is the status of one of which it makes none, or want of memory.
pub(crate) fn converted(
    alloc: Global,
    conversion: Conversion,
    bytes: &[u8],
) -> Result<Vec<u8>, Status>
    ensures { MatchResult result (λ made. IsConverted conversion bytes.now made.items) (IsUnconverted conversion bytes.now) }
{
    match convert(alloc, conversion, bytes) {
        Ok(made) => Ok(made),
        Err(error) => Err(status_of_conversion(error)),
    }
}
