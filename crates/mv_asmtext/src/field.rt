//! The fields that hold numbers.

ghost use Rattle.std.specs.Prelude.{◌≡◌};
ghost use Rattle.mv_asmtext.specs.Fields.{is_below, is_signed, is_offset, holds};

use crate::number::Number;

/// A field for a number.
#[derive(Clone, Copy)]
pub enum Field {
    /// A signed number of 12 bits.
    Signed12,
    /// An even signed number of 13 bits.
    Offset13,
    /// An even signed number of 21 bits.
    Offset21,
    /// An unsigned number of 20 bits.
    Upper20,
    /// From 0 to 31.
    Count,
}

/// Whether a number is from 0 up to before a bound.
pub fn is_below(number: Number, bound: u64) -> bool
    ensures { result ≡ is_below number bound }
{
    !number.negative && number.magnitude < bound
}

/// Whether a number is from the negative of a bound up to before the bound.
fn is_signed(number: Number, bound: u64) -> bool
    ensures { result ≡ is_signed number bound }
{
    if number.negative {
        number.magnitude <= bound
    } else {
        number.magnitude < bound
    }
}

/// The same, for even numbers.
fn is_offset(number: Number, bound: u64) -> bool
    ensures { result ≡ is_offset number bound }
{
    is_signed(number, bound) && number.magnitude % 2 == 0
}

impl Field {
    /// Whether the field holds a number.
    #[tactic(auto, unfolding(crate::specs::Fields::holds))]
    pub fn holds(self, number: Number) -> bool
        ensures { result ≡ holds self number }
    {
        match self {
            Field::Signed12 => is_signed(number, 0x800),
            Field::Offset13 => is_offset(number, 0x1000),
            Field::Offset21 => is_offset(number, 0x10_0000),
            Field::Upper20 => is_below(number, 0x10_0000),
            Field::Count => is_below(number, 32),
        }
    }
}
