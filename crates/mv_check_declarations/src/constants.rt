// The numbers that constants stand for.

ghost use Rattle.std.specs.Prelude.{◌≡◌};
ghost use Rattle.mv_check_declarations.specs.Constants.{is_small, is_value_of, is_positive, int_of, next_int};

use mv_ast::operators::is_unsigned;
use mv_ast::program::CType;
use mv_check_expressions::constant::Constant;
use mv_num::kind::Kind;
use mv_num::word::{add, narrow};

fn is_small(constant: Constant) -> bool
    ensures { result ≡ is_small constant }
{
    constant.value < 0x8000_0000
}

/// Whether an integer type has the number that a constant is.
#[tactic(auto, unfolding(crate::specs::Constants::is_value_of))]
pub fn is_value_of(kind: Kind, constant: Constant) -> bool
    ensures { result ≡ is_value_of kind constant }
{
    let unsigned = is_unsigned(constant.ctype);
    let same_sign = if is_unsigned(CType::Scalar(kind)) {
        unsigned
    } else {
        !unsigned
    };
    narrow(kind, constant.value) == constant.value && (is_small(constant) || same_sign)
}

/// Whether a constant is at least 1.
pub fn is_positive(constant: Constant) -> bool
    ensures { result ≡ is_positive constant }
{
    constant.value != 0 && (is_small(constant) || is_unsigned(constant.ctype))
}

/// The `int` that a constant is, if it is one.
pub fn int_of(constant: Constant) -> Option<u32>
    ensures { result ≡ int_of constant }
{
    if is_value_of(Kind::Int, constant) {
        Some(constant.value)
    } else {
        None
    }
}

/// The next `int`, if there is one.
pub fn next_int(value: u32) -> Option<u32>
    ensures { result ≡ next_int value }
{
    if value == 0x7FFF_FFFF {
        None
    } else {
        Some(add(value, 1))
    }
}
