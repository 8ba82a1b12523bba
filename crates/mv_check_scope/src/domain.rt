//! The values of a switch's domain.

ghost use Rattle.std.specs.Prelude.{◌≡◌, IfOk};

use mv_num::list::List;
use std::alloc::{AllocError, Global};
use std::marker::Model;
use std::rc::Rc;

/// The values of a domain, which a contract sees as their list. An attribute gives its domain to each declarator that it holds for:
/// they share the values, so that what they take doesn't grow with these.
#[derive(Drop)]
pub struct Domain {
    values: Rc<List<u32>>,
}

impl Model for Domain {
    ghost use Rattle.std.specs.Prelude.{ℕ, List};

    ghost Value = { List ℕ };

    ghost view = { λ d. d.values.value };
}

impl Domain {
    /// The domain of some values.
    pub fn of(alloc: Global, values: List<u32>) -> Result<Domain, AllocError>
        ensures { IfOk result (λ domain. domain ≡ values) }
    {
        Ok(Domain {
            values: Rc::new(alloc, values)?,
        })
    }

    /// The same domain, which shares its values. An error comes only where nothing more can share them.
    pub fn shared(&self) -> Result<Domain, AllocError>
        ensures { IfOk result (λ domain. domain ≡ self.now) }
    {
        Ok(Domain {
            values: self.values.clone()?,
        })
    }

    /// The values in order.
    pub fn as_slice(&self) -> &[u32]
        ensures { result.now ≡ self.now }
    {
        self.values.as_slice()
    }

    /// A list of its own of the values.
    pub fn to_list(&self, alloc: Global) -> Result<List<u32>, AllocError>
        ensures { IfOk result (λ list. list ≡ self.now) }
    {
        self.values.copied(alloc)
    }
}
