//! Enumerated types with their domains.

ghost use Rattle.std.specs.Prelude.{◌≡◌, IfOk};
ghost use Rattle.mv_num.specs.Lists.{is_among};
ghost use Rattle.mv_check_scope.specs.Domains.{distinct};

use crate::value_set::ValueSet;
use mv_check_scope::domain::Domain;
use mv_check_scope::enumerated::EnumeratedType;
use mv_num::list::List;
use std::alloc::{AllocError, Global};

fn distinct(alloc: Global, values: &[u32]) -> Result<List<u32>, AllocError>
    ensures { IfOk result (λ list. list ≡ distinct values.now) }
{
    let mut done = ValueSet::new(alloc);
    for value in values {
        done.add(*value)?;
    }
    done.to_list(alloc)
}

/// The enumerated type whose members have these values.
pub fn enumerated(alloc: Global, values: List<u32>) -> Result<EnumeratedType, AllocError>
    ensures { IfOk result (λ enumerated. enumerated ≡ values) }
{
    let domain = Domain::of(alloc, distinct(alloc, values.as_slice())?)?;
    Ok(EnumeratedType::new(values, domain))
}
