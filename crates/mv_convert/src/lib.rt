//! What one file is made of another: images in version 2, images of assembler text, ELF files of images and images of these; and what one file has that another
//! hasn't.
//!
//! - `convert` makes the file that is defined (`specs/Conversions.antt`) exactly where the other is one that the conversion takes. Every other answer is the
//!   cause (`specs/Causes.antt`), with its code and its place or count, or want of memory. `one_answer`: a file has one such answer.
//! - `disassemble` prints the code of an image, and `scan` of `mv_asmtext` reads that as the same code.
//! - `first_difference` answers the first offset at which two files differ, and none exactly where they are the same.
#![tactic(auto)]

mod conversion;
mod difference;
mod error;
mod laws;

pub use conversion::{convert, disassemble};
pub use difference::first_difference;
pub use error::ConvertError;
pub use laws::one_answer;
