ghost use Rattle.std.specs.Prelude.{◌≡◌, ℕ, List, OnOk, None, IsTrue, false};
ghost use Rattle.mv_check_scope.specs.Spaces.{named};
ghost use Rattle.mv_check_scope.specs.Scopes.{no_names, sought, entered, left, with_name};
ghost use Rattle.mv_check_scope.specs.Bindings.{binding};
ghost use Rattle.mv_check_scope.specs.Steps.{HasDeclared};

use crate::bindings::Bindings;
use crate::meaning::Meaning;
use crate::step::{Binding, Declaration, Step};
use std::alloc::{AllocError, Global};
use std::marker::Model;

/// A name space (C11 6.2.3) at a place of the source: the names of the innermost block, and the blocks around it, of which the
/// innermost comes last. A name means what the innermost block that declares it says. The steps that led here are kept, so that
/// leaving a block takes back what it declared, and a look-up doesn't go from block to block. A step has the number of its name.
#[derive(Drop)]
pub struct NameSpace {
    steps: Vec<Step>,
    depth: usize,
    bindings: Bindings,
}

impl Model for NameSpace {
    ghost use Rattle.mv_check_scope.specs.Names.{Space};
    ghost use Rattle.mv_check_scope.specs.Scopes.{no_names};
    ghost use Rattle.mv_check_scope.specs.Steps.{led_to, Represents};

    ghost Value = { Space };

    ghost view = { λ s. led_to s.bindings.names no_names s.steps.items };

    ghost invariant = { λ s. Represents s.bindings.names s.steps.items s.depth s.bindings.declared.entries };
}

impl NameSpace {
    /// A name space with one block and no names.
    pub fn new(alloc: Global) -> NameSpace
        ensures { result ≡ no_names }
    {
        NameSpace {
            steps: Vec::new(alloc),
            depth: 0,
            bindings: Bindings::new(alloc),
        }
    }

    // What decides the meaning of a name.
    fn binding(&self, name: &[u8]) -> Option<Binding>
        ensures { result ≡ binding self.now name.now }
    {
        self.bindings.find(name)
    }

    /// What a name means.
    pub fn find(&self, name: &[u8]) -> Option<Meaning>
        ensures { result ≡ sought self.now name.now }
    {
        match self.binding(name) {
            Some(binding) => Some(binding.meaning),
            None => None,
        }
    }

    /// What a name means by a declaration of the innermost block.
    pub fn find_here(&self, name: &[u8]) -> Option<Meaning>
        ensures { result ≡ named name.now self.now.here }
    {
        let binding = self.bindings.find(name)?;
        if binding.depth == self.depth {
            Some(binding.meaning)
        } else {
            None
        }
    }

    /// Declares a name that is new to the innermost block.
    pub fn declare(
        &mut self,
        alloc: Global,
        name: &[u8],
        meaning: Meaning,
    ) -> Result<(), AllocError>
        requires { named name.now self.old.here ≡ None }
        ensures { OnOk result (self.new ≡ with_name self.old name.now meaning) }
    {
        self.steps.reserve(1)?;
        let number = self.bindings.names.number(alloc, name)?;
        let hidden = self.bindings.at(number);
        let binding = Binding {
            depth: self.depth,
            meaning,
        };
        self.bindings.bind(number, binding)?;
        self.steps.push_reserved(Step::Declared(Declaration {
            number,
            meaning,
            hidden,
        }));
        Ok(())
    }

    /// Enters a block, which has no name of its own yet.
    pub fn enter(&mut self) -> Result<(), AllocError>
        ensures { OnOk result (self.new ≡ entered self.old) }
    {
        self.steps.push(Step::Entered)?;
        self.depth += 1;
        Ok(())
    }

    // Takes the last step back. The answer says whether it was a declaration; if not, the block is left.
    fn take_back(&mut self) -> bool
        ensures declaration { IsTrue result → HasDeclared self.old self.new }
        ensures block { result ≡ false → self.new ≡ left self.old }
    {
        match self.steps.pop() {
            Some(Step::Declared(declaration)) => {
                self.bindings
                    .restore(declaration.number, declaration.hidden);
                true
            }
            Some(Step::Entered) => {
                self.depth -= 1;
                false
            }
            None => false,
        }
    }

    /// Leaves a block: its names mean no more what they meant in it.
    pub fn leave(&mut self)
        ensures { self.new ≡ left self.old }
    {
        'declared: while self.take_back() {}
    }
}
