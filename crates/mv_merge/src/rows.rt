// The rows of values under which a variant is taken.

use mv_descriptors::GuardRow;
use mv_ir::body::{Assignment, Body};
use mv_num::kind::Kind;
use mv_num::list::List;

/// A switch's kind, and the values that it may be bound to.
#[derive(Drop)]
pub struct Domain {
    pub kind: Kind,
    pub values: List<u32>,
}

/// A function's body under an assignment of its switches.
#[derive(Drop)]
pub struct Bound {
    pub assignment: Assignment,
    pub body: Body,
}

/// A row, and the place of the body that is taken where it holds.
#[derive(Clone, Copy, Debug)]
pub struct Guarded {
    pub body: u32,
    pub row: GuardRow,
}

/// A function's variants, and the rows that lead to them.
#[derive(Drop)]
pub struct Variants {
    pub bodies: List<Body>,
    pub guards: List<Guarded>,
}
