//! How a name space came about.

use crate::meaning::Meaning;

/// The declaration that decides what a name means: what it says, and how many blocks stand around its own.
#[derive(Clone, Copy)]
pub struct Binding {
    pub depth: usize,
    pub meaning: Meaning,
}

/// A declaration of the name that has this number, with what decided its meaning before.
#[derive(Clone, Copy)]
pub struct Declaration {
    pub number: usize,
    pub meaning: Meaning,
    pub hidden: Option<Binding>,
}

/// A step that led to a name space: a name is declared, or a block is entered.
#[derive(Clone, Copy)]
pub enum Step {
    Declared(Declaration),
    Entered,
}
