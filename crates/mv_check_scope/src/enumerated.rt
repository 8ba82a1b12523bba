//! Enumerated types (C11 6.7.2.2).

ghost use Rattle.std.specs.Prelude.{◌≡◌, IfOk};
ghost use Rattle.mv_check_scope.specs.Domains.{distinct};

use crate::domain::Domain;
use mv_num::list::List;
use std::alloc::AllocError;
use std::marker::Model;

/// The values of the members of an enumerated type in their order, which are what a contract sees. Each of them once is the domain of
/// the switches of that type: it is made with the type, so that a switch takes no memory for it.
#[derive(Drop)]
pub struct EnumeratedType {
    values: List<u32>,
    domain: Domain,
}

impl Model for EnumeratedType {
    ghost use Rattle.std.specs.Prelude.{◌≡◌, ℕ, List};
    ghost use Rattle.mv_check_scope.specs.Domains.{distinct};

    ghost Value = { List ℕ };

    ghost view = { λ e. e.values };

    ghost invariant = { λ e. e.domain ≡ distinct e.values };
}

impl EnumeratedType {
    /// The type whose members have these values, of which the domain has each once.
    pub fn new(values: List<u32>, domain: Domain) -> EnumeratedType
        requires { domain ≡ distinct values }
        ensures { result ≡ values }
    {
        EnumeratedType { values, domain }
    }

    /// The domain of a switch of this type. All of them share it.
    pub fn domain(&self) -> Result<Domain, AllocError>
        ensures { IfOk result (λ domain. domain ≡ distinct self.now) }
    {
        self.domain.shared()
    }
}
