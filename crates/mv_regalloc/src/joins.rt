// Joins that were made, in places that their two numbers tell.

ghost use Rattle.std.specs.Prelude.{◌≡◌, IfOk, replicate};
ghost use Rattle.mv_regalloc.specs.Parts.{no_join};

use std::alloc::{AllocError, Global};

/// The number of a part that has the bits of two.
#[derive(Clone, Copy)]
pub struct Join {
    pub one: u32,
    pub other: u32,
    pub made: u32,
}

/// So many places, at which the part without words is joined to itself.
pub fn no_joins(alloc: Global, count: usize) -> Result<Vec<Join>, AllocError>
    ensures { IfOk result (λ joins. joins.items ≡ replicate count no_join) }
{
    let none = Join {
        one: 0,
        other: 0,
        made: 0,
    };
    vec![in alloc; none; count]
}

// Odd, with bits that follow no pattern: 2^64 by the golden ratio.
const MIX: u64 = 0x9E37_79B9_7F4A_7C15;

/// The place of the join of two among so many. Pairs that lie together come to places far apart.
pub fn place_of(one: u32, other: u32, count: usize) -> usize {
    if count == 0 {
        return 0;
    }
    let pair = u64::from(one) << 32 | u64::from(other);
    let mixed = pair.wrapping_mul(MIX) >> 32;
    (mixed % count as u64) as usize
}
