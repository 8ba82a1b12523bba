ghost use Rattle.std.specs.Prelude.{◌≡◌};
ghost use Rattle.mv_check_expressions.specs.declared.error.RuleError.TheVariants.{Memory};

use mv_syntax::place::Place;
use std::alloc::{AllocError, AllocFailed};

/// Why a part of a unit has no meaning.
#[derive(Clone, Copy, Debug, PartialEq, Eq)]
pub enum RuleError {
    /// Memory ran out.
    Memory,
    /// The rule with this number is broken at a place.
    Rule(Place, u8),
}

impl From<AllocError> for RuleError {
    ghost from_gives = { λ _ e. e ≡ Memory };

    fn from(_e: AllocError) -> RuleError {
        RuleError::Memory
    }
}

impl<T: Drop> From<AllocFailed<T>> for RuleError {
    ghost from_gives = { λ _ e. e ≡ Memory };

    fn from(_e: AllocFailed<T>) -> RuleError {
        RuleError::Memory
    }
}
