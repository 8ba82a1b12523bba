// The values of the arguments of a call.

ghost use Rattle.std.specs.Prelude.{◌≡◌, [], ◌∷◌, ◌++◌, OnOk};

use smallvec::SmallVec;
use std::alloc::{AllocError, Global};
use std::marker::Model;

/// The values of the arguments of a call, which a contract sees as their list. The 8 that a function takes at most stand in the value
/// itself, so that a call takes no memory for them.
#[derive(Drop)]
pub struct Arguments {
    values: SmallVec<u32, 8>,
}

impl Model for Arguments {
    ghost use Rattle.std.specs.Prelude.{ℕ, List};

    ghost Value = { List ℕ };

    ghost view = { λ a. a.values.items };
}

impl Arguments {
    /// No arguments.
    pub fn new(alloc: Global) -> Arguments
        ensures { result ≡ [] }
    {
        Arguments {
            values: SmallVec::new(alloc),
        }
    }

    /// Puts a value behind the others. It is a function of its own so that its locals aren't on the stack at each level of an evaluation.
    #[inline(never)]
    pub fn push(&mut self, value: u32) -> Result<(), AllocError>
        ensures ok { OnOk result (self.new ≡ self.old ++ value ∷ []) }
    {
        self.values.push(value)?;
        Ok(())
    }

    /// The values in order.
    pub fn as_slice(&self) -> &[u32]
        ensures { result.now ≡ self.now }
    {
        self.values.as_slice()
    }
}
