//! Assembler text: code as lines of instructions, labels and directives, printed and read.
//!
//! - `scan`: the code that the text reads as by the definition ([docs/assembler.md](assembler.md)), or the first refusal
//!   in the definition's order, with its line or count. The definition is a function of the text, so one text has one
//!   code, and it fits an image.
//! - `print`: the text that the definition gives for the code: an instruction where the word is the instruction's, else a
//!   number. The definition reads that text as the code, where an image has room for it and its entry is the address of
//!   one of its words of text (`read_back`): so `scan` gives the code again, whatever its words.
//! - `push_word`: the text of one word, as `print` has it in a line.
//! - Only tested: the words of every instruction and every name of a register against GNU as 2.40, what `print` writes of
//!   them, and the refusals.
//! - Measured: the time grows with the text, whatever its names; 16 MiB take 0.1 to 0.8 s of processor time, and some 4 s
//!   where they are labels alone. `bench/labels` holds labels that collide against plain ones.
#![tactic(auto)]

ghost use Rattle.std.specs.Prelude.{◌≡◌, MatchResult, Ok, IfOk};
ghost use Rattle.mv_asmtext.specs.Printing.{printed};
ghost use Rattle.mv_asmtext.specs.Scans.{FitsImage, IsCause, scanned};

mod assembly;
mod code;
mod error;
mod field;
mod labels;
mod lexeme;
mod mnemonic;
mod number;
mod operand;
mod parts;
mod printing;
mod register;
mod scanning;
mod source;
mod statement;

pub use crate::code::Code;
pub use crate::error::ScanError;
use crate::printing::push_code;
pub use crate::printing::push_word;
use crate::scanning::scan_text;
use std::alloc::{AllocError, Global};

/// The greatest length of a text, in bytes.
const LENGTH_LIMIT: usize = 16_777_216;

/// The code that a text reads as.
///
/// `TooLong` comes for more than 16,777,216 bytes, with their number. Else `Line` with 17 names the first line that is no line
/// or may not stand there, or line 1 where no line gives a word of text; else with 18 or 19 the first line with a number outside
/// its range or a label at fault, 18 first; else `TextLimit` comes for more than 131,072 words of text, and else `DataLimit` for
/// more than 262,144 words of data.
#[tactic(auto, unfolding(crate::specs::Scans::scanned))]
pub fn scan(alloc: Global, text: &[u8]) -> Result<Code, ScanError>
    ensures code { MatchResult result (λ code. scanned text.now ≡ Ok code) (λ e. IsCause e (scanned text.now)) }
    // What is read fits an image.
    ensures fits { IfOk result FitsImage }
{
    if text.len() > LENGTH_LIMIT {
        return Err(ScanError::TooLong(text.len() as u64));
    }
    match scan_text(alloc, text) {
        Ok(code) => code,
        Err(e) => Err(ScanError::Memory(e)),
    }
}

/// The text of code: its entry, a line for each word, and its data. Each word that is the word of an instruction is that
/// instruction, and every other one a number. `scan` reads the text as the code again, where an image has room for it.
pub fn print(alloc: Global, code: &Code) -> Result<Vec<u8>, AllocError>
    ensures text { IfOk result (λ text. text.items ≡ printed code.now) }
    ensures read_back { FitsImage code.now → IfOk result (λ text. scanned text.items ≡ Ok code.now) }
{
    let mut out = Vec::new(alloc);
    push_code(&mut out, code)?;
    code.has_words();
    Ok(out)
}
