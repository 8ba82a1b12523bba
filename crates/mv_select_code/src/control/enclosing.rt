//! What encloses code: where it can be left, and started again; and where control goes behind it.

ghost use Rattle.std.specs.Prelude.{◌≡◌, [], ◌∷◌, drop, OnOk};
ghost use Rattle.mv_select_code.specs.Control.FlowCode.{enclosing_at};

use std::alloc::{AllocError, Global};
use std::marker::Model;

/// What encloses a statement: a loop or a block, or the whole function, with the labels of its start and its end.
#[derive(Clone, Copy, PartialEq, Eq, Debug, Drop)]
pub struct Enclosing {
    /// The label that `Back` leads to.
    pub start: u32,
    /// The label that `Break` leads to.
    pub end: u32,
}

/// Where control goes behind some code: to a label.
#[derive(Clone, Copy, PartialEq, Eq, Debug, Drop)]
pub struct Way {
    pub after: u32,
    /// Whether the label stands right behind the code, so that nothing is needed to come there.
    pub falls: bool,
}

/// Where code leads that does nothing else.
#[derive(Clone, Copy, PartialEq, Eq, Debug, Drop)]
pub enum Leading {
    /// To where control goes behind it.
    On,
    /// To the end of the n-th of what encloses it, counted from 0, the innermost.
    Out(u32),
    /// To the start of the n-th, counted likewise.
    Back(u32),
}

/// The loops and blocks that enclose some code. A contract sees them with the innermost first.
#[derive(Debug, Drop)]
pub struct Around {
    outermost_first: Vec<Enclosing>,
}

impl Model for Around {
    ghost use Rattle.std.specs.Prelude.{List, reverse};
    ghost use Rattle.mv_select_code.specs.declared.control.enclosing.Enclosing.{Enclosing};

    ghost Value = { List Enclosing };

    ghost view = { λ a. reverse a.outermost_first.items };
}

impl Around {
    /// Code that nothing encloses but its function.
    pub fn new(alloc: Global) -> Around
        ensures { result ≡ [] }
    {
        Around {
            outermost_first: Vec::new(alloc),
        }
    }

    /// Goes into a loop or a block.
    #[tactic(auto, using(crate::proofs::OfControl::Around::reverse_pushed))]
    pub fn enter(&mut self, inner: Enclosing) -> Result<(), AllocError>
        ensures { OnOk result (self.new ≡ inner ∷ self.old) }
    {
        self.outermost_first.push(inner)?;
        Ok(())
    }

    /// Goes out of the innermost one.
    pub fn leave(&mut self)
        ensures { self.new ≡ drop 1 self.old }
    {
        self.outermost_first.pop();
    }

    /// The n-th one, counted from 0, the innermost; past all of them the whole function, which ends at a label.
    #[tactic(auto, using(crate::proofs::OfControl::Around::enclosed))]
    pub fn enclosing(&self, n: u32, end: u32) -> Enclosing
        ensures { result ≡ enclosing_at self.now n end }
    {
        let all = self.outermost_first.as_slice();
        let n = n as usize;
        if n < all.len() {
            all[all.len() - 1 - n]
        } else {
            Enclosing { start: end, end }
        }
    }
}
