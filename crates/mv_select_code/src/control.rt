//! The code of statements within one another: branches, loops, blocks, and what leaves them or starts them again.
//!
//! - `push_statements` puts exactly the lines that `specs/Control/FlowCode.antt` defines behind some code, by where control goes
//!   behind them (`Way`), with labels counted on from the first free one: of lists, `If`, `Loop`, `Block`, `Break`, `Back` and
//!   `Return` around the statements of `mv_select_code::statements`, and of the loop of `Zero`. A `Loop` that begins with a test
//!   which leaves it has that test at its end. The code of calls comes from outside (`CallCode`).
//! - `flow_code_law`, clause `done`: this code does what the statements mean, at every bound, over any memory and any
//!   machine that runs it. From a time of the run that stands at the code with a state shown, and has its cost paid for,
//!   a later time follows with what the statements leave: where control goes behind the code, where a `Break` or `Back`
//!   leads, at the end of the function with the value, or at a trap's stub. That takes no more instructions than the
//!   cost, and one for the jump behind code that doesn't fall to its label; and where the bound is used up, no fewer than
//!   the bound. What holds before each instruction (`is_sound`) has held up to there.
//! - Clause `encoded`: the instructions have encodings, and there are at most two words for each tree node and so many
//!   for each form of statement, from none for a block to nine for a read and 16 for a call, whatever the sizes of
//!   arrays, and one for the jump behind. `labels`: each label that the code takes stands in it once, and no other does.
//!   `few`: these are at most three for each statement. `targets`: each label that it names stands once, wherever its own
//!   labels do, those around it, that behind it, that of the function's end, the stubs of traps 1 and 2, the functions
//!   that it names, and their entries.
//! - Assumed: pins stand in registers in which temporaries may stand; the lines stand in text, with their labels in place
//!   (`Placed`): slots apart, in words that are never patched; the memory is fit for the frame; each step of the run that
//!   loads no more than the code may is the step of that text, and leaves the world around the globals as it was (`IsRun`);
//!   arrays that are read and written are among those that may be; the code of each call does what the call means
//!   (`CallsDo`), has encodings, and holds no label.

mod arrays;
pub mod calls;
pub mod emitter;
pub mod enclosing;
mod laws;
pub mod layout;
mod statements;

pub use laws::flow_code_law;
pub use statements::push_statements;
