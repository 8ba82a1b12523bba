//! Why a function of the parser gives nothing.
ghost use Rattle.std.specs.Prelude.{◌≡◌};
ghost use Rattle.mv_parse_nodes.specs.declared.fault.Fault.TheVariants.{Memory};

use std::alloc::{AllocError, AllocFailed};

/// Why no phrase was read.
#[derive(Clone, Copy, Debug)]
pub enum Fault {
    /// Memory ran out.
    Memory,
    /// No phrase goes on where this many tokens are left.
    Syntax(usize),
}

impl From<AllocError> for Fault {
    ghost from_gives = { λ _ e. e ≡ Memory };

    fn from(_e: AllocError) -> Fault {
        Fault::Memory
    }
}

impl<T: Drop> From<AllocFailed<T>> for Fault {
    ghost from_gives = { λ _ e. e ≡ Memory };

    fn from(_e: AllocFailed<T>) -> Fault {
        Fault::Memory
    }
}
