//! The traps of a program by their codes, and the depth at which a call traps.

/// A division by zero.
pub const DIVISION_BY_ZERO: u8 = 1;

/// An index outside the array.
pub const INDEX_OUTSIDE: u8 = 2;

/// A call of a null pointer.
pub const NULL_CALL: u8 = 3;

/// A call at the greatest depth.
pub const CALL_TOO_DEEP: u8 = 4;

/// The greatest depth: so many calls may be active, one inside the other, behind that of `main`.
pub const DEPTH_LIMIT: u32 = 512;
