use mv_fetch::Memory;
use mv_num::list::List;
use mv_rv32::{Cause, Hart, Stepped, step};
use std::alloc::{AllocError, Global};

const TEXT: u32 = 0x0000_1000;

const CELL: u32 = 0x0010_0000;

// The registers t0, t1 and t2.
const FIRST: usize = 5;

const SECOND: usize = 6;

const RESULT: usize = 7;

/// A line `name word t0 t1 cell t2 cell pc`, all but the name in hexadecimal: the word of an instruction at 0x1000; t0, t1 and
/// the word at 0x100000 before it; and t2, that word and the program counter after it. A fault leaves them as they were.
#[derive(Clone, Copy, Drop)]
pub(crate) struct Vector<'a> {
    pub(crate) name: &'a str,
    word: u32,
    pub(crate) first: u32,
    pub(crate) second: u32,
    pub(crate) cell: u32,
    pub(crate) result: u32,
    stored: u32,
    pc: u32,
}

/// A number in hexadecimal, and what follows behind the space.
fn number(line: &str) -> Option<(u32, &str)> {
    let (digits, rest) = line.split_once(' ')?;
    Some((u32::from_str_radix(digits, 16).ok()?, rest))
}

impl<'a> Vector<'a> {
    /// What a line says, or none where it is no such line.
    pub(crate) fn parse(line: &'a str) -> Option<Vector<'a>> {
        let (name, rest) = line.split_once(' ')?;
        let (word, rest) = number(rest)?;
        let (first, rest) = number(rest)?;
        let (second, rest) = number(rest)?;
        let (cell, rest) = number(rest)?;
        let (result, rest) = number(rest)?;
        let (stored, rest) = number(rest)?;
        let pc = u32::from_str_radix(rest, 16).ok()?;
        Some(Vector {
            name,
            word,
            first,
            second,
            cell,
            result,
            stored,
            pc,
        })
    }

    /// Whether the instruction goes on.
    pub(crate) fn goes_on(&self) -> bool {
        self.pc != TEXT
    }

    // How the step ends.
    fn end(&self) -> Stepped {
        if self.goes_on() {
            return Stepped::Next;
        }
        Stepped::Fault(match self.name {
            "undefined" => Cause::Undefined,
            "ebreak" => Cause::Break,
            "sb" | "sh" | "sw" => Cause::Store,
            _ => Cause::Load,
        })
    }
}

/// A machine that runs one instruction at a time: its text is one word, its data another.
#[derive(Drop)]
pub(crate) struct Bench {
    memory: Memory,
}

impl Bench {
    /// Both words are 0. An error is want of memory.
    pub(crate) fn new(alloc: Global) -> Result<Bench, AllocError> {
        let mut text = List::new(alloc);
        text.push(0)?;
        let memory = Memory::new(alloc, &text, &text, 1)?;
        Ok(Bench { memory })
    }

    /// Whether the machine does what the vector says. None where it can't be made ready.
    pub(crate) fn agrees(&mut self, vector: &Vector) -> Option<bool> {
        self.memory.store(CELL, 4, vector.cell).ok()?;
        self.memory.store(TEXT, 4, vector.word).ok()?;
        self.memory.fence_i();
        let mut hart = Hart {
            regs: [0; 32],
            pc: TEXT,
        };
        hart.regs[FIRST] = vector.first;
        hart.regs[SECOND] = vector.second;
        if self.memory.choices(TEXT) == 0 {
            return None;
        }
        let stepped = step(&mut hart, &mut self.memory, 0);
        let stored = self.memory.load(CELL, 4).ok()?;
        let held = hart.regs[RESULT] == vector.result && stored == vector.stored;
        Some(stepped == vector.end() && held && hart.pc == vector.pc)
    }
}
