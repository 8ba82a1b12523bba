//! A well-formed body within the limits of selection is one that code can be selected for; and what the selected code names.
//!
//! - `bodies_are_small`: a well-formed body within these limits has at most 507 temporaries, and its code is what
//!   `push_statements` asks for. `code_is_the_same`: the code that is written from a body's rooms is that which is
//!   written from the program's layout. `rooms_stand`: rooms that each stand where the layout has their global are the
//!   layout's. `bodies_are_functions`: a body whose rooms are the program's, whose constants are words, and which names
//!   functions that there are, is one that `mv_select::functions`'s laws speak of; what its code reads and writes are the
//!   globals that the body reads and writes, and none that is read as a bound value. `code_has_words` shows, by a walk
//!   over code, that its constants are words.
//! - `lines_are_named`: the code of a function jumps to its own labels and the stubs of the traps, calls the stub of
//!   orders and polls and no other label, and names no function that its statements don't name; those in slots are
//!   attributed (`names`). Wherever it stands, each label is behind its first word, so that no jump but a call leads
//!   there (`first`), and no address that one of its lines puts into a register is the first word of a slot (`links`).
//! - Only tested: the lines of a small body, by LLVM's assembler.

mod laws;
mod words;

pub use laws::{
    bodies_are_functions, bodies_are_small, code_is_the_same, lines_are_named, rooms_stand,
};
pub use words::code_has_words;
