//! The code of statements without control: what stores, divides, reads and writes elements, and leaves a result.
//!
//! - `push_set`, `push_set_global`, `push_divide`, `push_result`, `push_check`, `push_read`, `push_write`, `push_bounds`
//!   and `push_clear` put exactly the lines of `specs/Statements/StatementCode.antt` behind some code. The last two are parts of the
//!   loop that makes an array 0.
//!   A set whose value stands in the temporary's register already has no lines. A division without signs by a number that is a
//!   power of two is a shift, or of a remainder up to 2,048 an AND.
//!   An index that is a number below the length has no test, and its element one place; nor has one that is promised to be below
//!   a number up to the length, or a divisor that is a number other than 0. An array's length that is a pin is compared where it
//!   stands. gp and tp stand for the upper part of an address that they reach.
//! - `statement_code_law`, clause `done`: over any memory that is fit for the frame, and wherever the lines stand, they
//!   do what the statement means in no more instructions than it costs; of the loop that makes an array 0 that is said of
//!   what comes before it and of one turn. They go on past their end, a result with the value in a0, or to the stub of trap
//!   1 or 2; those of a branch go to its label exactly where its tree says so. They load only from addresses that the code
//!   may load, and store only to the frame's temporaries, to elements of its arrays and to globals that the code may write,
//!   and leave the registers as they were that the frame names for that, with sp, gp, tp and those of pins. Nothing is said of an
//!   index against its promise, where a statement has no meaning. Clause `encoded`: the instructions have encodings, and there
//!   are at most two words for each tree node and nine for the statement, and two for a branch.
//! - Not proved here: calls, control, and that a run of the machine follows `Leads` (its text, and stale fetches).

pub mod elements;
mod instructions;
mod laws;
pub mod values;

pub use instructions::write_temp;
pub use laws::statement_code_law;
