use crate::size::Size;
use mv_descriptors::GuardRow;
use mv_ir::body::Body;
use mv_num::list::List;

/// A variant of a function.
#[derive(Drop)]
pub struct Variant {
    /// Its body.
    pub body: Body,
    /// The rows of values under which it is taken, at least one.
    pub guards: List<GuardRow>,
}

/// The variants of a function.
#[derive(Drop)]
pub struct Measured {
    pub variants: List<Variant>,
    /// How much code there is with theirs.
    pub size: Size,
}
