//! From text to code.

ghost use Rattle.std.specs.Prelude.{◌≡◌, ◌<◌, ◌≤◌, ◌^◌, length, IfOk};
ghost use Rattle.mv_asmtext.specs.Scans.{fault_code, code_within_limits, of_reading};
ghost use Rattle.mv_asmtext.specs.Sources.{read};
ghost use Rattle.std.specs.Prelude.{Ok};

use crate::assembly::{Fault, assemble};
use crate::code::Code;
use crate::error::ScanError;
use crate::source::{Reading, read};
use mv_num::regions::{DATA_LIMIT, TEXT_LIMIT};
use std::alloc::{AllocError, Global};

/// The code, if an image has room for it.
fn within_limits(code: Code) -> Result<Code, ScanError>
    ensures { result ≡ code_within_limits code }
{
    let text = code.text.len();
    let globals = code.globals.len();
    if text > TEXT_LIMIT {
        return Err(ScanError::TextLimit(text as u64));
    }
    if globals > DATA_LIMIT {
        return Err(ScanError::DataLimit(globals as u64));
    }
    Ok(code)
}

fn fault_code(fault: Fault) -> u8
    ensures { result ≡ fault_code fault }
{
    match fault {
        Fault::Range => 18,
        Fault::Label => 19,
    }
}

/// The code of lines, or their refusal.
fn scan_reading(alloc: Global, reading: Reading) -> Result<Result<Code, ScanError>, AllocError>
    requires { reading.place.text_words < 2 ^ 25 }
    ensures { IfOk result (λ code. code ≡ of_reading (Ok reading)) }
{
    let words = reading.place.text_words;
    if words == 0 {
        return Ok(Err(ScanError::Line { code: 17, line: 1 }));
    }
    match assemble(alloc, words, reading.lines.as_slice())? {
        Ok(code) => Ok(within_limits(code)),
        Err((fault, line)) => Ok(Err(ScanError::Line {
            code: fault_code(fault),
            line,
        })),
    }
}

/// The code of a text that isn't too long, or its refusal.
pub fn scan_text(alloc: Global, text: &[u8]) -> Result<Result<Code, ScanError>, AllocError>
    requires { length text.now ≤ 2 ^ 24 }
    ensures { IfOk result (λ code. code ≡ of_reading (read text.now)) }
{
    match read(alloc, text)? {
        Ok(reading) => scan_reading(alloc, reading),
        Err(line) => Ok(Err(ScanError::Line { code: 17, line })),
    }
}
