//! The labels of the stubs and of the entries of functions, which all code of a program may name. Those of the stubs are the
//! greatest numbers that labels have.

/// The label of the entry of function f is this and f.
pub const ENTRIES: u32 = 2_147_483_648;

/// The label of the stub of trap c, 1 to 4, is this and c.
pub const TRAPS: u32 = 4_294_967_289;

/// The label of the stub to which a call through a pointer switch jumps while that is free.
pub const CHECK: u32 = 4_294_967_294;

/// The label of the stub that carries out orders and polls.
pub const COMMIT: u32 = 4_294_967_295;
