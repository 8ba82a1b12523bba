//! The regions of the machine's memory: where each begins, and how many words it has at most. Each goes up to where the next
//! one begins, but for text, which ends earlier.

/// Text.
pub const TEXT_START: u32 = 0x0000_1000;

/// How many words text may have.
pub const TEXT_LIMIT: usize = 131_072;

/// Where text of as many words ends.
pub const TEXT_END: u32 = TEXT_START + 4 * TEXT_LIMIT as u32;

/// Data, which is what the globals hold.
pub const DATA_START: u32 = 0x0010_0000;

/// How many words data may have.
pub const DATA_LIMIT: usize = 262_144;

/// What gp has while a program runs: it stands 2,048 bytes behind the start of data, so that loads and stores reach the first
/// 4,096 bytes of data by it.
pub const GP_VALUE: u32 = DATA_START + 2048;

/// What tp has: by it they reach the next 4,096 bytes.
pub const TP_VALUE: u32 = GP_VALUE + 4096;

/// The stack.
pub const STACK_START: u32 = 0x0020_0000;

/// How many words the stack has.
pub const STACK_WORDS: usize = 524_288;

/// The area of plans, where the stack ends.
pub const PLAN_AREA: u32 = 0x0040_0000;

/// The upper 20 bits of its address, which LUI takes.
pub const PLAN_UPPER: i32 = 0x400;

/// How many words the area of plans has.
pub const PLAN_WORDS: usize = 131_072;

/// The end of the area of plans.
pub const PLAN_END: u32 = 0x0048_0000;
