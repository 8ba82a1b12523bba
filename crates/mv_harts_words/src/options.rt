//! The table of operands, which are words by themselves in this order, and the values that they may have.

/// The name of the program.
pub const PROGRAM: &str = "mvharts";

/// Each operand once, in order. There are no options.
pub const OPERANDS: [&str; 4] = [FILE, COUNT, NUMBER, TURNS];

/// The name of a file with C.
pub const FILE: &str = "file";

/// How many harts run: a number from `LEAST_COUNT` to `MOST_COUNT`.
pub const COUNT: &str = "count";

/// The least number of harts.
pub const LEAST_COUNT: u64 = 2;

/// The greatest number of harts.
pub const MOST_COUNT: u64 = 4;

/// Which schedule: a number up to `MOST_NUMBER`.
pub const NUMBER: &str = "number";

/// The greatest number of a schedule.
pub const MOST_NUMBER: u64 = 4_294_967_295;

/// How many turns the schedule has: a number from `LEAST_TURNS` to `MOST_TURNS`.
pub const TURNS: &str = "turns";

/// The least number of turns.
pub const LEAST_TURNS: u64 = 1;

/// The greatest number of turns.
pub const MOST_TURNS: u64 = 10_000_000;
