//! Which loop or block a jump leads to where blocks were added.
ghost use Rattle.std.specs.Prelude.{◌≡◌, ◌∷◌, IfOk, IfSome};
ghost use Rattle.mv_arms.specs.Arms.{level};

use mv_num::list::List;
use std::alloc::{AllocError, Global};

/// The number of a jump where `levels` has, for each loop and block around it, how many blocks were added within that alone. The innermost comes first.
pub fn level(levels: &[u32], n: u32) -> Option<u32>
    ensures { IfSome result (λ m. m ≡ level levels.now n) }
{
    match levels.split_first() {
        None => Some(n),
        Some((added, outer)) => {
            if n == 0 {
                return Some(*added);
            }
            level(outer, n - 1)?.checked_add(*added)?.checked_add(1)
        }
    }
}

/// The levels inside a loop or block.
pub fn within(alloc: Global, added: u32, levels: &List<u32>) -> Result<List<u32>, AllocError>
    ensures { IfOk result (λ inner. inner ≡ added ∷ levels.now) }
{
    let mut inner = List::new(alloc);
    inner.push(added)?;
    inner.append(levels.copied(alloc)?)?;
    Ok(inner)
}
