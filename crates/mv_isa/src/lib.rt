//! The instructions of RV32IM with Zifencei: their words in `encode` and `decode`, and in the specs what each does.
//!
//! - `decode`: `Some` only of an instruction whose fields fit and that has this word, so encoding it gives the word again
//!   but for the ignored fields of FENCE and FENCE.I; `None` only where no instruction that fits has this word. `encode`:
//!   the word of an instruction that fits. `encoding_law`: decoding what was encoded gives it again.
//! - `specs/Execution.antt` defines one step over any fetch and any memory; `mv_rv32::step` meets it.
//! - `labelled::labelled_law`: what each item of labelled code does where it stands, over any text and memory: a jump
//!   leads to its label, a branch in one step or in two over the inverse, an entry puts its address into a register, a
//!   slot calls.
//! - `labels` has the labels of the stubs and `requests` the numbers of the environment calls, as `specs/Labels.antt` and
//!   `specs/Requests.antt` do. `specs/Registers.antt` has the registers by name.
//! - Only tested: 554 words of GNU as (`mv_test_asmtext`).
#![tactic(auto)]

mod decoding;
mod encoding;
mod field;
mod instr;
pub mod labelled;
pub mod labels;
pub mod requests;

pub use decoding::decode;
pub use encoding::{encode, encoding_law};
pub use instr::{Cause, Instr};
