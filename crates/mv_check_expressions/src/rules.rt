//! The rules of the language, by the numbers under which a refusal names them.

/// A name, a tag or a function is declared before its use.
pub const NAMES: u8 = 1;

/// A name is declared once in a scope.
pub const REDECLARATIONS: u8 = 2;

/// An operator takes the types of its operands.
pub const OPERANDS: u8 = 3;

/// What is assigned is an object without `const`.
pub const ASSIGNMENTS: u8 = 4;

/// A value converts to the type that is wanted.
pub const CONVERSIONS: u8 = 5;

/// What is called is a function, and takes so many arguments.
pub const CALLS: u8 = 6;

/// An array is used with an index, and nothing else is.
pub const INDEXES: u8 = 7;

/// `void` is the type of no value, object or parameter.
pub const VOID: u8 = 8;

/// Where a constant is needed, there is one.
pub const CONSTANTS: u8 = 9;

/// An array has a size of at least 1 and room for its values, and a scalar has no list of them.
pub const EXTENTS: u8 = 10;

/// A label or a declaration stands where it may, and no label is repeated.
pub const LABELS: u8 = 11;

/// `break` and `continue` have something around them to leave or to continue.
pub const JUMPS: u8 = 12;

/// `return` has a value exactly in a function that isn't `void`.
pub const RETURNS: u8 = 13;

/// An attribute stands on what may have it, once.
pub const ATTRIBUTES: u8 = 14;

/// An attributed function assigns to no switch or pointer switch.
pub const SWITCH_ASSIGNMENTS: u8 = 15;

/// The values of a domain are of the switch's type, each once.
pub const DOMAINS: u8 = 16;

/// The argument of a commit or a revert is an attributed function's name, or `&` and that of a switch or pointer switch.
pub const PLAN_ARGUMENTS: u8 = 17;

/// There is an `int main` without parameters.
pub const MAIN: u8 = 18;

/// A function that is used is defined, once.
pub const DEFINITIONS: u8 = 19;

/// `&`, `*`, a cast and a known function stand where they may.
pub const PLACEMENTS: u8 = 20;

/// An enumerator is an `int`.
pub const ENUMERATORS: u8 = 21;

/// A declaration has a type, a name and no more than its place allows.
pub const DECLARATIONS: u8 = 22;
