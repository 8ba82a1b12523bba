ghost use Rattle.std.specs.Prelude.{◌≡◌, ◌<◌, cond, eqb, ℕ, Option, Some};
ghost use Rattle.mv_isa.specs.Execution.{reg, put, sets, jumps, loaded, stored, Goes};
ghost use Rattle.mv_num.specs.Words.{add, lt_s, lt_u};
ghost use Rattle.mv_fetch.specs.Held.{IsWidth, Room};
ghost use Rattle.mv_rv32.specs.Stepping.{access, Gives, Keeps, Stays, Wants};

use crate::hart::{Hart, Stepped};
use mv_fetch::{Memory, StoreError};
use mv_isa::Cause;
use mv_num::kind::Kind;
use mv_num::word;

impl Hart {
    /// What a register reads: x0 is 0 (RISC-V unprivileged ISA 2.1).
    #[inline(always)]
    #[tactic(auto, unfolding(mv_isa::specs::Execution::reg))]
    pub(crate) fn reg(&self, register: usize) -> u32
        requires { register < 32 }
        ensures { result ≡ reg self.now.regs register }
    {
        self.regs[register]
    }

    /// Whether two registers are equal, for BEQ and BNE (2.5).
    #[inline(always)]
    pub(crate) fn are_equal(&self, rs1: usize, rs2: usize) -> bool
        requires rs1 { rs1 < 32 }
        requires rs2 { rs2 < 32 }
        ensures { result ≡ eqb (reg self.now.regs rs1) (reg self.now.regs rs2) }
    {
        self.reg(rs1) == self.reg(rs2)
    }

    /// Whether the first is less as a signed number, for BLT and BGE (2.5).
    #[inline(always)]
    pub(crate) fn is_less_s(&self, rs1: usize, rs2: usize) -> bool
        requires rs1 { rs1 < 32 }
        requires rs2 { rs2 < 32 }
        ensures { result ≡ lt_s (reg self.now.regs rs1) (reg self.now.regs rs2) }
    {
        word::lt_s(self.reg(rs1), self.reg(rs2))
    }

    /// Whether the first is less as an unsigned number, for BLTU and BGEU (2.5).
    #[inline(always)]
    pub(crate) fn is_less_u(&self, rs1: usize, rs2: usize) -> bool
        requires rs1 { rs1 < 32 }
        requires rs2 { rs2 < 32 }
        ensures { result ≡ lt_u (reg self.now.regs rs1) (reg self.now.regs rs2) }
    {
        word::lt_u(self.reg(rs1), self.reg(rs2))
    }

    // Puts a value into a register.
    #[inline(always)]
    #[tactic(auto, unfolding(mv_isa::specs::Execution::put))]
    fn put(&mut self, rd: usize, value: u32)
        requires { rd < 32 }
        ensures regs { self.new.regs ≡ put self.old.regs rd value }
        ensures pc { self.new.pc ≡ self.old.pc }
    {
        if rd != 0 {
            self.regs[rd] = value;
        }
    }

    /// On to the next instruction.
    #[inline(always)]
    pub(crate) fn goes_on(&mut self) -> Stepped
        ensures regs { self.new.regs ≡ self.old.regs }
        ensures pc { self.new.pc ≡ add self.old.pc 4 }
        ensures next { result ≡ Stepped.Next }
    {
        self.pc = word::add(self.pc, 4);
        Stepped::Next
    }

    /// On to the next instruction, with a value in a register.
    #[inline(always)]
    #[tactic(auto, unfolding(mv_isa::specs::Execution::sets))]
    pub(crate) fn sets(&mut self, rd: usize, value: u32) -> Stepped
        requires { rd < 32 }
        ensures goes { (room : Room) → sets self.old.regs self.old.pc room rd value ≡ Goes self.new.regs self.new.pc room }
        ensures next { result ≡ Stepped.Next }
    {
        self.put(rd, value);
        self.goes_on()
    }

    /// A jump, with the address of the next instruction in a register (2.5). It faults where the target is no multiple of 4.
    #[inline(always)]
    #[tactic(auto, unfolding(mv_isa::specs::Execution::jumps))]
    pub(crate) fn jumps(&mut self, rd: usize, target: u32) -> Stepped
        requires { rd < 32 }
        ensures gives { (room : Room) → Gives (jumps (put self.old.regs rd (add self.old.pc 4)) room target) result self.new room }
        ensures keeps { Keeps result self.old self.new }
        ensures wants { (address : Option ℕ) (room : Room) → Wants result address room }
    {
        let next = word::add(self.pc, 4);
        if target % 4 != 0 {
            return Stepped::Fault(Cause::Jump);
        }
        self.put(rd, next);
        self.pc = target;
        Stepped::Next
    }

    /// A branch, taken where the test holds (2.5). It faults only where it is taken and the target is no multiple of 4.
    #[inline(always)]
    #[tactic(auto, unfolding(mv_isa::specs::Execution::jumps))]
    pub(crate) fn branches(&mut self, offset: u32, test: bool) -> Stepped
        ensures gives { (room : Room) → Gives (cond test (jumps self.old.regs room (add self.old.pc offset)) (Goes self.old.regs (add self.old.pc 4) room)) result self.new room }
        ensures keeps { Keeps result self.old self.new }
        ensures wants { (address : Option ℕ) (room : Room) → Wants result address room }
    {
        if !test {
            return self.goes_on();
        }
        let target = word::add(self.pc, offset);
        if target % 4 != 0 {
            return Stepped::Fault(Cause::Jump);
        }
        self.pc = target;
        Stepped::Next
    }

    /// A load of 1, 2 or 4 bytes into a register (2.6), the sign of a signed kind or zeros above them. It faults where memory
    /// refuses it.
    #[inline(always)]
    #[tactic(auto, unfolding(crate::specs::Stepping::access))]
    pub(crate) fn loads(
        &mut self,
        memory: &Memory,
        rd: usize,
        rs1: usize,
        offset: u32,
        width: u32,
        kind: Kind,
    ) -> Stepped
        requires rd { rd < 32 }
        requires rs1 { rs1 < 32 }
        requires width { IsWidth width }
        ensures gives { Gives (loaded self.old.regs self.old.pc memory.now rd kind (access.load memory.now (add (reg self.old.regs rs1) offset) width)) result self.new memory.now }
        ensures keeps { Keeps result self.old self.new }
        ensures wants { (address : Option ℕ) (room : Room) → Wants result address room }
    {
        let address = word::add(self.reg(rs1), offset);
        match memory.load(address, width) {
            Ok(value) => self.sets(rd, word::narrow(kind, value)),
            Err(_) => Stepped::Fault(Cause::Load),
        }
    }

    /// A store of the lowest 1, 2 or 4 bytes of a register (2.6). It faults where memory refuses it. A store into text that
    /// finds no memory for the word that stood there gives `Memory`, and changes nothing.
    #[inline(always)]
    #[tactic(auto, unfolding(crate::specs::Stepping::access))]
    pub(crate) fn stores(
        &mut self,
        memory: &mut Memory,
        rs1: usize,
        rs2: usize,
        offset: u32,
        width: u32,
    ) -> Stepped
        requires rs1 { rs1 < 32 }
        requires rs2 { rs2 < 32 }
        requires width { IsWidth width }
        ensures gives { Gives (stored self.old.regs self.old.pc (access.store memory.old (add (reg self.old.regs rs1) offset) width (reg self.old.regs rs2))) result self.new memory.new }
        ensures stays { Stays result self.old self.new memory.old memory.new }
        ensures wants { Wants result (Some (add (reg self.old.regs rs1) offset)) memory.old }
    {
        let address = word::add(self.reg(rs1), offset);
        let value = self.reg(rs2);
        match memory.store(address, width, value) {
            Ok(()) => self.goes_on(),
            Err(StoreError::Memory(_)) => Stepped::Memory,
            Err(_) => Stepped::Fault(Cause::Store),
        }
    }
}
