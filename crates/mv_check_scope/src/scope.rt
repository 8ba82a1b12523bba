ghost use Rattle.std.specs.Prelude.{◌≡◌, ◌<◌, ◌^◌, length, OnOk, OnErr, IfOk, None};
ghost use Rattle.mv_check_scope.specs.Spaces.{named};
ghost use Rattle.mv_check_scope.specs.Scoped.{start, meaning_of, tag_of, block_entered, block_left, declared, tag_declared, with_local};

use crate::enumerated::EnumeratedType;
use crate::known::known_function;
use crate::meaning::Meaning;
use crate::signatures::SignatureList;
use crate::space::NameSpace;
use mv_ast::program::Local;
use mv_num::list::List;
use std::alloc::{AllocError, Global};

/// What is declared at a place of the source: the names, the tags, the values of each enumeration in order of first appearance, the
/// signatures, the locals of the function so far, and whether the function is attributed.
#[derive(Drop)]
pub struct Scope {
    pub names: NameSpace,
    pub tags: NameSpace,
    pub enumerations: List<EnumeratedType>,
    pub signatures: SignatureList,
    pub locals: List<Local>,
    pub attributed: bool,
}

impl Scope {
    /// The scope at the start of a unit.
    pub fn new(alloc: Global) -> Scope
        ensures { result ≡ start }
    {
        Scope {
            names: NameSpace::new(alloc),
            tags: NameSpace::new(alloc),
            enumerations: List::new(alloc),
            signatures: SignatureList::new(alloc),
            locals: List::new(alloc),
            attributed: false,
        }
    }

    /// What a name means: what was declared last of those in the innermost block that has it, and else the known function of that name.
    pub fn meaning_of(&self, name: &[u8]) -> Option<Meaning>
        ensures { result ≡ meaning_of self.now name.now }
    {
        match self.names.find(name) {
            Some(meaning) => Some(meaning),
            None => match known_function(name) {
                Some(known) => Some(Meaning::Known(known)),
                None => None,
            },
        }
    }

    /// What a tag means.
    pub fn tag_of(&self, tag: &[u8]) -> Option<Meaning>
        ensures { result ≡ tag_of self.now tag.now }
    {
        self.tags.find(tag)
    }

    /// Declares a name that is new to the innermost block.
    pub fn declare(
        &mut self,
        alloc: Global,
        name: &[u8],
        meaning: Meaning,
    ) -> Result<(), AllocError>
        requires { named name.now self.old.names.here ≡ None }
        ensures { OnOk result (self.new ≡ declared self.old name.now meaning) }
    {
        self.names.declare(alloc, name, meaning)
    }

    /// Declares a tag that is new to the innermost block.
    pub fn declare_tag(
        &mut self,
        alloc: Global,
        tag: &[u8],
        meaning: Meaning,
    ) -> Result<(), AllocError>
        requires { named tag.now self.old.tags.here ≡ None }
        ensures { OnOk result (self.new ≡ tag_declared self.old tag.now meaning) }
    {
        self.tags.declare(alloc, tag, meaning)
    }

    /// Adds a local, and gives its number.
    pub fn add_local(&mut self, local: Local) -> Result<u32, AllocError>
        requires { length self.old.locals < 2 ^ 32 }
        ensures number { IfOk result (λ number. number ≡ length self.old.locals) }
        ensures added { OnOk result (self.new ≡ with_local self.old local) }
    {
        let number = self.locals.len() as u32;
        self.locals.push(local)?;
        Ok(number)
    }

    /// Enters a block.
    pub fn enter(&mut self) -> Result<(), AllocError>
        ensures { OnOk result (self.new ≡ block_entered self.old) }
    {
        self.names.enter()?;
        self.tags.enter()
    }

    /// Leaves a block. The locals that it declared stay.
    pub fn leave(&mut self)
        ensures { self.new ≡ block_left self.old }
    {
        self.names.leave();
        self.tags.leave();
    }
}
