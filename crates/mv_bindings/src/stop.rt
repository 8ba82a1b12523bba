// Why an evaluation stops.

/// Why an evaluation stops before its end: a trap with its code, or a bound that is used up.
#[derive(Clone, Copy, PartialEq, Eq, Debug)]
pub enum Stop {
    /// A trap, by its code (`traps`).
    Trapped(u8),
    /// The bound is used up.
    Unfinished,
}
