//! The counters of what is open.
ghost use Rattle.std.specs.Prelude.{◌≡◌, ◌≤◌, ◌<◌, ◌+◌, OnOk};
ghost use Rattle.mv_parse_nesting.specs.Nesting as spec;

use mv_ast::marks;
use mv_syntax::keywords;
use mv_syntax::token::{Piece, Token};
use std::alloc::{AllocError, Global};
use std::marker::Model;

/// What is open at one place, and how many `else` stand there one below the other.
#[derive(Clone, Copy, Debug, PartialEq, Eq)]
pub struct Counts {
    pub opened: u32,
    pub elses: u32,
}

const ZEROS: Counts = Counts {
    opened: 0,
    elses: 0,
};

/// Pairs of counters, with their sum.
#[derive(Drop)]
pub struct Stack {
    top: Counts,
    below: Vec<Counts>,
    sum: u32,
}

impl Model for Stack {
    ghost use Rattle.std.specs.Prelude.{◌≡◌, reverse};
    ghost use Rattle.mv_parse_nesting.specs.Nesting.{Pairs, level_of};

    ghost Value = { Pairs };

    ghost view = { λ s. record { top = s.top; below = reverse s.below.items } };

    ghost invariant = { λ s. s.sum ≡ level_of (record { top = s.top; below = reverse s.below.items }) };
}

impl Stack {
    /// One pair of zeros.
    pub fn new(alloc: Global) -> Stack
        ensures { result ≡ spec.start }
    {
        Stack {
            top: ZEROS,
            below: Vec::new(alloc),
            sum: 0,
        }
    }

    /// The sum of all counters.
    pub fn level(&self) -> u32
        ensures { result ≡ spec.level_of self.now }
    {
        self.sum
    }

    /// Takes a token, where a statement that ends with it goes on or doesn't.
    pub fn take(&mut self, token: &Token, goes_on: bool) -> Result<(), AllocError>
        requires { spec.level_of self.old ≤ 255 }
        ensures { OnOk result (self.new ≡ spec.after_piece token.now.what goes_on self.old) }
    {
        match token.what {
            Piece::Mark(mark) => self.take_mark(mark, goes_on)?,
            Piece::Keyword(word) => self.take_keyword(word),
            _ => {}
        }
        Ok(())
    }

    fn take_mark(&mut self, mark: u8, goes_on: bool) -> Result<(), AllocError>
        requires { spec.level_of self.old ≤ 255 }
        ensures { OnOk result (self.new ≡ spec.after_mark mark goes_on self.old) }
    {
        match mark {
            marks::OPEN_PARENTHESIS | marks::OPEN_BRACKET | marks::OPEN_BRACE => self.enter()?,
            marks::CLOSE_PARENTHESIS | marks::CLOSE_BRACKET => self.leave(),
            marks::CLOSE_BRACE => self.end_block(goes_on),
            marks::SEMICOLON => self.end_statement(goes_on),
            marks::COMMA => self.forget_opened(),
            marks::COLON => {}
            _ => self.open(),
        }
        Ok(())
    }

    fn take_keyword(&mut self, word: u8)
        requires { spec.level_of self.old ≤ 255 }
        ensures { self.new ≡ spec.after_keyword word self.old }
    {
        match word {
            keywords::ELSE => self.add_else(),
            keywords::DO | keywords::FOR | keywords::IF | keywords::SWITCH | keywords::WHILE =>
                self.open(),
            _ => {}
        }
    }

    // `}`
    fn end_block(&mut self, goes_on: bool)
        ensures { self.new ≡ spec.after_end goes_on (spec.left self.old) }
    {
        self.leave();
        self.end_statement(goes_on);
    }

    // `;`, or the end of a block
    fn end_statement(&mut self, goes_on: bool)
        ensures { self.new ≡ spec.after_end goes_on self.old }
    {
        self.forget_opened();
        if !goes_on {
            self.forget_elses();
        }
    }

    fn open(&mut self)
        requires { spec.level_of self.old ≤ 255 }
        ensures { self.new ≡ spec.more_opened self.old }
    {
        self.top.opened += 1;
        self.sum += 1;
    }

    fn add_else(&mut self)
        requires { spec.level_of self.old ≤ 255 }
        ensures { self.new ≡ spec.more_elses self.old }
    {
        self.top.elses += 1;
        self.sum += 1;
    }

    fn forget_opened(&mut self)
        ensures { self.new ≡ spec.none_opened self.old }
    {
        self.sum -= self.top.opened;
        self.top.opened = 0;
    }

    fn forget_elses(&mut self)
        ensures { self.new ≡ spec.no_elses self.old }
    {
        self.sum -= self.top.elses;
        self.top.elses = 0;
    }

    fn enter(&mut self) -> Result<(), AllocError>
        requires { spec.level_of self.old ≤ 255 }
        ensures { OnOk result (self.new ≡ spec.entered self.old) }
    {
        let outer = Counts {
            opened: self.top.opened + 1,
            elses: self.top.elses,
        };
        self.below.push(outer)?;
        self.top = ZEROS;
        self.sum += 1;
        Ok(())
    }

    fn leave(&mut self)
        ensures { self.new ≡ spec.left self.old }
    {
        if let Some(outer) = self.below.pop() {
            self.sum -= self.top.opened + self.top.elses;
            self.top = outer;
        }
    }
}
