//! The first words of data: what stands in an image's data before a run.
//!
//! - `data_words`: how many words all globals of a program have. `first_data`: the first words of its globals, one global
//!   behind the other, function pointers by the functions' numbers; exactly as `specs/FirstData.antt` defines them.
//! - `data_law`: with addresses for function pointers these words are the globals of the program's first world, each
//!   global's words stand behind those of the globals before it, and the functions that they name are there, where each
//!   first value of a pointer is null or a function and no global is given more values than it has words.
#![tactic(auto)]

mod laws;
mod words;

pub use laws::data_law;
pub use words::{data_words, first_data, words_of_size};
