// Trees: what a value is computed by. They store nothing and never trap.

use mv_num::boxed::Boxed;
use mv_num::kind::Kind;

/// A value of 32 bits.
#[derive(Drop)]
pub enum Tree {
    /// A constant.
    Number(u32),
    /// What a temporary holds.
    Temp(u32),
    /// The number in a global scalar.
    Global(u32),
    /// The number of a function.
    Function(u32),
    /// An operator on one value, by its number (`operators`).
    Unary(u8, Boxed<Tree>),
    /// An operator on two values, by its number (`operators`).
    Binary(u8, Boxed<Tree>, Boxed<Tree>),
    /// A value converted to an integer type.
    Narrow(Kind, Boxed<Tree>),
}
