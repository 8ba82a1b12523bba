//! Parts that are made one behind the other.

ghost use Rattle.std.specs.Prelude.{◌≡◌, [], ◌∷◌, ◌++◌, IfOk};

use mv_num::list::List;
use std::alloc::AllocError;

/// A list with an item more.
pub fn with_last<T: Drop>(list: List<T>, item: T) -> Result<List<T>, AllocError>
    ensures { IfOk result (λ longer. longer ≡ list ++ item ∷ []) }
{
    let mut list = list;
    list.push(item)?;
    Ok(list)
}
