//! The orders, which are commits and reverts, by their codes.

/// A commit of all functions and pointer switches.
pub const COMMIT: u8 = 0;

/// A revert of all functions and pointer switches.
pub const REVERT: u8 = 1;

/// A commit of one function.
pub const COMMIT_FUNCTION: u8 = 2;

/// A revert of one function.
pub const REVERT_FUNCTION: u8 = 3;

/// A commit of the functions that have one switch, or of one pointer switch.
pub const COMMIT_REFERENCES: u8 = 4;

/// A revert of the functions that have one switch, or of one pointer switch.
pub const REVERT_REFERENCES: u8 = 5;

/// How many there are.
pub const COUNT: u8 = 6;
