//! The frame of a function: how many bytes it has, and where its arrays stand.

ghost use Rattle.std.specs.Prelude.{◌≡◌, ◌^◌, ◌≤◌, IfOk};
ghost use Rattle.mv_ir.specs.Measures.{total};
ghost use Rattle.mv_select.specs.Functions.FunctionCode.{arrays_start, frame_bytes};
ghost use Rattle.mv_select.specs.Selected.{spaces_behind};

use mv_num::list::List;
use mv_select_code::control::layout::Space;
use std::alloc::{AllocError, Global};

/// How many words all arrays have.
pub(crate) fn words_of(arrays: &[u32]) -> u128
    ensures value { result ≡ total arrays.now }
    ensures within { result ≤ 2 ^ 96 }
{
    let mut words: u128 = 0;
    for size in arrays {
        words += u128::from(*size);
    }
    words
}

// The word in which the arrays begin.
fn arrays_start(temps: u32) -> u32
    requires { temps ≤ 507 }
    ensures { result ≡ arrays_start temps }
{
    temps.max(9) + 1
}

/// How many bytes a frame has.
pub(crate) fn frame_bytes(temps: u32, arrays: &[u32]) -> u128
    ensures { result ≡ frame_bytes temps arrays.now }
{
    let words = u128::from(temps.max(9)) + 1 + words_of(arrays);
    16 * ((words + 3) / 4)
}

/// The space of each array, one behind the other.
pub(crate) fn spaces(alloc: Global, temps: u32, arrays: &[u32]) -> Result<List<Space>, AllocError>
    requires { frame_bytes temps arrays.now ≤ 2032 }
    ensures { IfOk result (λ spaces. spaces ≡ spaces_behind (arrays_start temps) arrays.now) }
{
    let mut spaces = List::new(alloc);
    let mut word = arrays_start(temps);
    for size in arrays {
        spaces.push(Space {
            at: 4 * word,
            size: *size,
        })?;
        word += *size;
    }
    Ok(spaces)
}
