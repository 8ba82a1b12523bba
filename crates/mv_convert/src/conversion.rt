//! What is made of a file.

ghost use Rattle.std.specs.Prelude.{◌≡◌, IfOk, MatchResult, Ok};
ghost use Rattle.mv_asmtext.specs.Scans.{IsCause, scanned};
ghost use Rattle.mv_convert.specs.Causes.{of_scan, Fails, IsNotConverted};
ghost use Rattle.mv_convert.specs.Conversions.{assembler_text, code_of, Assembles, IsConverted, Makes, Takes};

use crate::error::ConvertError;
use mv_asmtext::{Code, print, scan};
use mv_command::Conversion;
use mv_elf::{from_elf, to_elf};
use mv_image::facts::within_limits;
use mv_image::{Image, read, upgrade, write};
use std::alloc::{AllocError, Global};

fn assembled(alloc: Global, text: &[u8]) -> Result<Image, ConvertError>
    ensures { MatchResult result (Assembles text.now) (Fails (λ refusal. IsCause refusal (scanned text.now)) of_scan) }
{
    let Code {
        entry,
        text,
        globals,
    } = scan(alloc, text)?;
    Ok(Image::without_tables(alloc, entry, text, globals))
}

// The image that a conversion takes from a file.
fn taken(alloc: Global, conversion: Conversion, bytes: &[u8]) -> Result<Image, ConvertError>
    ensures { MatchResult result (Takes conversion bytes.now) (IsNotConverted conversion bytes.now) }
{
    match conversion {
        Conversion::Upgrade | Conversion::ToElf => Ok(read(alloc, bytes)?),
        Conversion::Assemble => assembled(alloc, bytes),
        Conversion::FromElf => Ok(from_elf(alloc, bytes)?),
    }
}

// The file that it makes of the image.
fn made(alloc: Global, conversion: Conversion, image: &Image) -> Result<Vec<u8>, AllocError>
    ensures { IfOk result (λ made. Makes conversion image.now made.items) }
{
    match conversion {
        Conversion::Upgrade => {
            let upgraded = upgrade(alloc, image)?;
            write(alloc, &upgraded)
        }
        Conversion::ToElf => to_elf(alloc, image),
        Conversion::Assemble | Conversion::FromElf => write(alloc, image),
    }
}

/// The file that a conversion makes of another. An error is why this is none that it takes, or want of memory.
pub fn convert(alloc: Global, conversion: Conversion, bytes: &[u8]) -> Result<Vec<u8>, ConvertError>
    ensures { MatchResult result (λ made. IsConverted conversion bytes.now made.items) (IsNotConverted conversion bytes.now) }
{
    let image = taken(alloc, conversion, bytes)?;
    match made(alloc, conversion, &image) {
        Ok(file) => Ok(file),
        Err(error) => Err(ConvertError::Memory(error)),
    }
}

/// The code of an image as assembler text, which reads as that code again.
pub fn disassemble(alloc: Global, image: &Image) -> Result<Vec<u8>, AllocError>
    ensures text { IfOk result (λ text. text.items ≡ assembler_text image.now) }
    ensures read_back { IfOk result (λ text. scanned text.items ≡ Ok (code_of image.now)) }
{
    within_limits(image);
    let code = Code {
        entry: image.entry(),
        text: image.text().copied(alloc)?,
        globals: image.globals().copied(alloc)?,
    };
    print(alloc, &code)
}
