// What a name can mean.

use mv_ast::program::{CType, Known};

/// The storage of an object: a global or a local, by its number.
#[derive(Clone, Copy, PartialEq, Eq, Debug)]
pub enum Storage {
    Global(u32),
    Local(u32),
}

/// A scalar object. `fixed` says that it is `const`, `switch` is its number among those that are attributed if it is one: the switches,
/// and behind them the pointer switches.
#[derive(Clone, Copy, PartialEq, Eq, Debug)]
pub struct Variable {
    pub storage: Storage,
    pub ctype: CType,
    pub fixed: bool,
    pub switch: Option<u32>,
}

/// An array, with the type of its elements and whether they are `const`.
#[derive(Clone, Copy, PartialEq, Eq, Debug)]
pub struct Elements {
    pub storage: Storage,
    pub ctype: CType,
    pub fixed: bool,
}

/// A declared function: its number if the unit defines it, the number of its signature, and its number among the attributed
/// functions if it is one of them.
#[derive(Clone, Copy, PartialEq, Eq, Debug)]
pub struct Routine {
    pub number: Option<u32>,
    pub signature: u32,
    pub attributed: Option<u32>,
}

/// What a name means. An enumerator has its value; a tag has the number of its enumeration, and stands in the name space of
/// tags alone (C11 6.2.3). Of the calls that commit and revert the kind is known by the name, and the argument isn't:
/// their index is 0 here.
#[derive(Clone, Copy, PartialEq, Eq, Debug)]
pub enum Meaning {
    Object(Variable),
    Array(Elements),
    Function(Routine),
    Enumerator(u32),
    Tag(u32),
    Known(Known),
}
