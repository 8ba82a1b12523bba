//! What decides the meaning of each name.

ghost use Rattle.std.specs.Prelude.{◌≡◌, nat_eq, IsSome, Some, OnOk, OnErr};
ghost use Rattle.std.specs.Map.{lookup};
ghost use Rattle.mv_check_scope.specs.Bindings.{binding_among, IsBoundAt};

use crate::step::Binding;
use indexmap::IndexMap;
use mv_check_outline::names::Names;
use std::alloc::{AllocError, Global};

/// The declaration that decides what a name means now, of each name that is declared, in order of declaration.
///
/// A hash of names would be one that a source can be written against. So an ordered map numbers the names, each once, and the
/// hash is of numbers, which no source chooses.
#[derive(Drop)]
pub struct Bindings {
    pub names: Names,
    pub declared: IndexMap<usize, Binding>,
}

impl Bindings {
    ghost use Rattle.std.specs.Prelude.{[]};

    /// No names.
    pub fn new(alloc: Global) -> Bindings
        ensures names { result.names ≡ [] }
        ensures declared { result.declared.entries ≡ [] }
    {
        Bindings {
            names: Names::new(alloc),
            declared: IndexMap::new(alloc),
        }
    }

    /// What decides the meaning of the name that has a number.
    pub fn at(&self, number: usize) -> Option<Binding>
        ensures { result ≡ lookup (nat_eq number) self.now.declared.entries }
    {
        self.declared.get(&number).copied()
    }

    /// What decides the meaning of a name.
    pub fn find(&self, name: &[u8]) -> Option<Binding>
        ensures { result ≡ binding_among self.now.names self.now.declared.entries name.now }
    {
        match self.names.number_of(name) {
            Some(number) => self.at(number),
            None => None,
        }
    }

    /// Binds the name that has a number.
    pub fn bind(&mut self, number: usize, binding: Binding) -> Result<(), AllocError>
        ensures names { self.new.names ≡ self.old.names }
        ensures bound { OnOk result (IsBoundAt self.old.declared.entries self.new.declared.entries number (Some binding)) }
        ensures kept { OnErr result (self.new.declared.entries ≡ self.old.declared.entries) }
    {
        self.declared.insert(number, binding)?;
        Ok(())
    }

    /// Gives the name that has a number, and is bound, back what decided its meaning before, if anything did.
    pub fn restore(&mut self, number: usize, hidden: Option<Binding>)
        requires { IsSome (lookup (nat_eq number) self.old.declared.entries) }
        ensures names { self.new.names ≡ self.old.names }
        ensures bound { IsBoundAt self.old.declared.entries self.new.declared.entries number hidden }
    {
        match hidden {
            Some(outer) => self.rebind(number, outer),
            // It was declared last of all that are, so the others stay in order.
            None => {
                self.declared.swap_remove(&number);
            }
        }
    }

    // Binds the name that has a number, and is bound, anew.
    fn rebind(&mut self, number: usize, outer: Binding)
        requires { IsSome (lookup (nat_eq number) self.old.declared.entries) }
        ensures names { self.new.names ≡ self.old.names }
        ensures bound { IsBoundAt self.old.declared.entries self.new.declared.entries number (Some outer) }
    {
        if let Some(binding) = self.declared.get_mut(&number) {
            *binding = outer;
        }
    }
}
