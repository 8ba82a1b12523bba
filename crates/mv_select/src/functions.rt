//! The code of whole functions, which keeps the calling convention.
//!
//! - `push_entry` and `push_return` put exactly the lines of `specs/Functions/FunctionCode.antt` behind some code: a frame is
//!   made, ra and the registers of temporaries and pins are saved, parameters come to their temporaries and numbers to their
//!   pins; and the way back. A function that calls nothing and isn't attributed keeps its first eight temporaries where arguments
//!   come, and saves nothing if it has no more. A pin is a number that stands, from entry on, in a register that no temporary has
//!   (`specs/Functions/Pins.antt`). Entry has at most eight words for pins and the moves of parameters together.
//! - `function_code_law`, clause `each`: over any functions that keep the calling convention at each lower bound, the
//!   code of a function that is called with as many arguments as it has parameters does what its body means for what its
//!   frame holds at first, in no more than 44 instructions over its cost, and keeps the convention. `later`: so does an
//!   attributed one where its first instruction is carried out elsewhere, since its entry may be patched. `main`: so does the main
//!   function, without parameters and not attributed, which begins with no frame above its own, no live attributed frame,
//!   512 calls left, and room below sp for 513 frames. `encoded`: the instructions of entry and return have encodings,
//!   and are at most 20 and 13 words, with pins that stand in registers of their own and have few words.
//! - Assumed: stores to globals and the stack are read back, globals stand apart from one another and from the stack, and
//!   the known functions are served. The machine has to run a function's code only by itself, where no text stands but
//!   the function's own, and only steps that load from the stack and from data words of globals that the function reads,
//!   and that store to the stack and to globals that it writes. And of each function, that its frame has at most 2,032
//!   bytes, and that its trees are fine in its frames.

mod frames;
mod laws;

pub use frames::{Outline, push_entry, push_return};
pub use laws::function_code_law;
