//! ELF files of 32 bits for RISC-V: what they load as an image, and an image as such a file, with its tables in a note.
//!
//! - `from_elf` answers the image that a file holds exactly where it holds one; every other answer is the first fault with
//!   its offset, or want of memory. What a file holds: without a note of ours its loaded text and data, without tables; with
//!   one the image whose spelling the note gives when the loaded text and data are put in.
//! - `to_elf` gives the one file that is written for an image, which holds the image in version 2.
//! - Only tested: files of other linkers, and what other tools read of ours.
#![tactic(auto)]

pub mod fault;
mod header;
mod memory;
mod notes;
mod numbers;
mod programs;
mod reading;
mod segment;
pub mod verdicts;
mod writing;

pub use fault::ElfError;
pub use reading::from_elf;
pub use writing::to_elf;
