//! Code that is being written, with the lines of loops, blocks and branches around other code.

ghost use Rattle.std.specs.Prelude.{◌≡◌, ◌+◌, ◌^◌, ◌<◌, ◌++◌, [], ◌∷◌, true, OnOk};
ghost use Rattle.mv_isa.specs.declared.labelled.Line.TheVariants.{Label, Jump};
ghost use Rattle.mv_select_code.specs.Trees.TreeCode.{seats_at, branch_lines};
ghost use Rattle.mv_select_code.specs.Statements.StatementCode.{first};
ghost use Rattle.mv_select_code.specs.Control.FlowCode.{enclosing_at, go_to, go_on, leads_to, return_code, zero_lines};
ghost use Rattle.mv_select_code.specs.Control.Emitters.{with_lines, emitted, label_taken, loop_entered, loop_opened, block_opened, closed};
ghost use Rattle.mv_select_code.specs.Control.Layouts.{IsInFrame, is_small};

use crate::control::enclosing::{Around, Enclosing, Leading, Way};
use crate::control::layout::Space;
use crate::statements::elements::{push_bounds, push_clear};
use crate::statements::values::push_result;
use crate::trees::places::Places;
use crate::trees::push_branch;
use mv_ir::tree::Tree;
use mv_isa::labelled::Line;
use mv_num::list::List;
use std::alloc::{AllocError, Global};

// t3, which has the tree of a branch, if that stands in no register yet, and the address of a word.
const FIRST: u8 = 28;

// t0, which has the address of an array's end.
const SECOND: u8 = 5;

/// Code as far as it is written. Where memory lacks, some of what was to be written may be missing.
#[derive(Drop)]
pub struct Emitter {
    pub lines: List<Line>,
    /// What encloses the line to come.
    pub around: Around,
    /// The first free label.
    pub free: u32,
}

impl Emitter {
    /// No code yet, with labels from a first one on.
    pub fn new(alloc: Global, free: u32) -> Emitter
        ensures lines { result.lines ≡ [] }
        ensures around { result.around ≡ [] }
        ensures free { result.free ≡ free }
    {
        Emitter {
            lines: List::new(alloc),
            around: Around::new(alloc),
            free,
        }
    }

    /// To a label out of the last of some code, by a jump where it doesn't stand right behind.
    pub(crate) fn go_to(&mut self, way: Way, label: u32) -> Result<(), AllocError>
        ensures { OnOk result (self.new ≡ with_lines self.old (go_to way label)) }
    {
        if !(way.falls && way.after == label) {
            self.lines.push(Line::Jump(0, label))?;
        }
        Ok(())
    }

    /// On, likewise.
    pub(crate) fn go_on(&mut self, way: Way) -> Result<(), AllocError>
        ensures { OnOk result (self.new ≡ with_lines self.old (go_on way)) }
    {
        if !way.falls {
            self.lines.push(Line::Jump(0, way.after))?;
        }
        Ok(())
    }

    /// To the end of the n-th of what encloses the code, counted from 0, the innermost; past all of them to the function's
    /// end.
    pub(crate) fn push_break(&mut self, n: u32, end: u32, way: Way) -> Result<(), AllocError>
        ensures { OnOk result (self.new ≡ with_lines self.old (go_to way (enclosing_at self.old.around n end).end)) }
    {
        let enclosing = self.enclosing(n, end);
        self.go_to(way, enclosing.end)
    }

    /// A jump to the start of the n-th, counted likewise. Of a block, and of the function, it is one to the end.
    pub(crate) fn push_back(&mut self, n: u32, end: u32) -> Result<(), AllocError>
        ensures { OnOk result (self.new ≡ with_lines self.old (Jump 0 (enclosing_at self.old.around n end).start ∷ [])) }
    {
        let enclosing = self.enclosing(n, end);
        self.lines.push(Line::Jump(0, enclosing.start))?;
        Ok(())
    }

    fn enclosing(&self, n: u32, end: u32) -> Enclosing
        ensures { result ≡ enclosing_at self.now.around n end }
    {
        self.around.enclosing(n, end)
    }

    /// The label that code leads to which does nothing else.
    pub(crate) fn leads_to(&self, end: u32, way: Way, leading: Leading) -> u32
        ensures { result ≡ leads_to end self.now.around way leading }
    {
        match leading {
            Leading::On => way.after,
            Leading::Out(n) => self.enclosing(n, end).end,
            Leading::Back(n) => self.enclosing(n, end).start,
        }
    }

    /// Leaves a value as the result of the function, and goes to its end.
    pub(crate) fn push_return(
        &mut self,
        places: Places<'_>,
        value: &Tree,
        end: u32,
        way: Way,
    ) -> Result<(), AllocError>
        requires value { is_small value.now ≡ true }
        ensures { OnOk result (self.new ≡ emitted self.old
            (return_code (seats_at places.entry.rooms.now places.entry.keeping places.entry.pins.now) end value.now) way) }
    {
        push_result(&mut self.lines, places, value)?;
        self.go_to(way, end)
    }

    /// Takes the first free label.
    pub(crate) fn take_label(&mut self) -> u32
        requires { self.old.free + 1 < 2 ^ 32 }
        ensures label { result ≡ self.old.free }
        ensures taken { self.new ≡ label_taken self.old }
    {
        let label = self.free;
        self.free = label + 1;
        label
    }

    /// The place of a label.
    pub(crate) fn push_label(&mut self, label: u32) -> Result<(), AllocError>
        ensures { OnOk result (self.new ≡ with_lines self.old (Label label ∷ [])) }
    {
        self.lines.push(Line::Label(label))?;
        Ok(())
    }

    /// What stands in a loop whose turns start at a label.
    pub(crate) fn enter_loop(&mut self, start: u32, way: Way) -> Result<(), AllocError>
        ensures { OnOk result (self.new ≡ loop_entered self.old start way) }
    {
        let end = way.after;
        self.around.enter(Enclosing { start, end })
    }

    /// The start of a loop, at a label.
    pub(crate) fn open_loop(&mut self, start: u32, way: Way) -> Result<(), AllocError>
        ensures { OnOk result (self.new ≡ loop_opened self.old start way) }
    {
        self.push_label(start)?;
        self.enter_loop(start, way)
    }

    /// The start of a block, which needs no line.
    pub(crate) fn open_block(&mut self, way: Way) -> Result<(), AllocError>
        ensures { OnOk result (self.new ≡ block_opened self.old way) }
    {
        let end = way.after;
        self.around.enter(Enclosing { start: end, end })
    }

    /// The end of the innermost loop or block.
    pub(crate) fn close(&mut self)
        ensures { self.new ≡ closed self.old }
    {
        self.around.leave();
    }

    /// Goes to a label exactly where a tree's value isn't 0, or exactly where it is, as `sense` says, and else on.
    pub(crate) fn push_branch(
        &mut self,
        places: Places<'_>,
        test: &Tree,
        sense: bool,
        label: u32,
    ) -> Result<(), AllocError>
        requires test { is_small test.now ≡ true }
        ensures { OnOk result (self.new ≡ with_lines self.old
            (branch_lines (seats_at places.entry.rooms.now places.entry.keeping places.entry.pins.now) test.now sense first label)) }
    {
        push_branch(&mut self.lines, places, test, sense, FIRST, label)
    }

    /// Makes the words of an array of the frame 0, in a loop that takes two labels. It changes t3 and t0.
    pub(crate) fn push_zero(&mut self, array: Space) -> Result<(), AllocError>
        requires within { IsInFrame array }
        requires label { self.old.free + 2 < 2 ^ 32 }
        ensures { OnOk result (self.new ≡ record self.old {
          lines = self.old.lines ++ zero_lines self.old.free array.at array.size;
          free = self.old.free + 2;
        }) }
    {
        let turn = self.free;
        let test = turn + 1;
        push_bounds(&mut self.lines, array.at, array.size)?;
        self.push_two(Line::Jump(0, test), Line::Label(turn))?;
        push_clear(&mut self.lines)?;
        self.push_two(Line::Label(test), Line::Branch(1, FIRST, SECOND, turn))?;
        self.free = turn + 2;
        Ok(())
    }

    #[tactic(auto, using(crate::proofs::OfControl::Emitting::lines_two))]
    fn push_two(&mut self, first: Line, second: Line) -> Result<(), AllocError>
        ensures { OnOk result (self.new ≡ with_lines self.old (first ∷ second ∷ [])) }
    {
        self.lines.push(first)?;
        self.lines.push(second)?;
        Ok(())
    }
}
