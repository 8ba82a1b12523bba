// The operator's actions.

/// What the operator does at a poll: nothing, or a store of a value in a switch, by its number, with a commit of all.
#[derive(Clone, Copy, PartialEq, Eq, Debug)]
pub enum Action {
    /// Nothing happens.
    Skip,
    /// A value is stored in a switch, and all functions and pointer switches are committed.
    Flip { switch: u32, value: u32 },
}
