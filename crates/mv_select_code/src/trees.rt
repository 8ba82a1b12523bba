//! The code of trees: the instructions that leave a tree's value in a register.
//!
//! - `push_tree` puts exactly the lines of `specs/Trees/TreeCode.antt` behind some code, for a register with as many registers
//!   from it on as the tree is deep; `push_into` those that leave the value in any register, by way of these. An operand
//!   that stands in a register already, that of a temporary, that of a pin or x0, stays there, and a short number at the right
//!   of an operator stands in the instruction: `push_operand` puts no lines for the first, and `operand_register` says where an
//!   operand stands. A pin is a number that stands in a register while the code runs. Where globals, temporaries and pins stand
//!   is told by `Places`; what gp and tp reach is loaded by them.
//!   `push_branch` puts those that go to a label by a tree's value: a comparison becomes the branch itself, and logical not
//!   turns it. `push_number`, `push_load`, `near`, `place_of`, `literal`, `upper_bits`, `lower_bits`, `temp_register`,
//!   `temp_offset`, `pinned`, `push_one` and `push_two` are exact too.
//! - `tree_code_law` says of these lines, over any memory: they lead straight to registers of which that one holds the
//!   tree's value, and change no others but those behind it up to the tree's depth, also where the value is put into a
//!   register apart from these, other than gp and tp, or stays in its own; they have at most two words for each node; their
//!   instructions have encodings. Assumed is that temporaries, pins, the globals that are read and the functions stand where the view
//!   says, and that no global that is read is bound in the frame.

mod branches;
mod immediates;
mod laws;
mod leaves;
mod lines;
mod operators;
pub mod places;
mod trees;

pub use branches::push_branch;
pub use immediates::literal;
pub use laws::tree_code_law;
pub use leaves::{
    Based, lower_bits, near, place_of, push_load, push_number, temp_offset, temp_register,
    upper_bits,
};
pub use lines::{push_one, push_two};
pub(crate) use trees::own_register;
pub use trees::{operand_register, push_into, push_operand, push_tree};
