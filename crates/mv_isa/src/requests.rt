//! The environment calls by their numbers, which a7 has at an ECALL. The argument and the answer stand in a0.

/// The run ends, with an exit status.
pub const EXIT: u32 = 0;

/// A byte of the input.
pub const READ: u32 = 1;

/// A byte of the output.
pub const WRITE: u32 = 2;

/// The run ends, with the code of a trap.
pub const TRAP: u32 = 3;

/// The plan of an order.
pub const PLAN: u32 = 4;

/// A poll, and its plan.
pub const POLL: u32 = 5;
