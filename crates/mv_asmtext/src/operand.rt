//! The operands of a statement.

use crate::register::Register;

/// A piece of the operands behind a name.
#[derive(Clone, Copy)]
pub enum Element {
    Rd,
    Rs1,
    Rs2,
    Number,
    /// An offset or a label.
    Target,
    Comma,
    Open,
    Close,
}

/// The registers among the operands.
#[derive(Clone, Copy)]
pub struct Registers {
    pub rd: Register,
    pub rs1: Register,
    pub rs2: Register,
}
