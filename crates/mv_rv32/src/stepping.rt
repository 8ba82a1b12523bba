// One step: the word's opcode gives the function here, and funct3 or both functs the row in it, as `decode` of `mv_isa` has its tables.
ghost use Rattle.std.specs.Prelude.{◌≡◌, ◌<◌, ◌⊎◌, ℕ, length, Option, Some, option_and_then};
ghost use Rattle.mv_isa.specs.Encoding.{jalr_at, branch_at, load_at, store_at, shift_at, immediate_at, register_at, fence_at, system_at};
ghost use Rattle.mv_isa.specs.Execution.{decoded, step};
ghost use Rattle.mv_fetch.specs.Held.{choices, Room};
ghost use Rattle.mv_rv32.specs.Stepping.{access, picked_step, picked_target, word_target, target, Gives, Keeps, Stays, Wants};

use crate::arith::{quotient_s, quotient_u, remainder_s, remainder_u, truth};
use crate::field::{
    count, funct3, functs, imm_b, imm_i, imm_j, imm_s, opcode, rd, rs1, rs2, upper,
};
use crate::hart::{Hart, Stepped};
use mv_fetch::Memory;
use mv_isa::Cause;
use mv_num::kind::Kind;
use mv_num::word::{
    add, lt_s, lt_u, mul, mul_high_ss, mul_high_su, mul_high_uu, shl, shr_s, shr_u, sub,
};

#[inline(always)]
#[tactic(auto, unfolding(mv_isa::specs::Encoding::jalr_at, mv_isa::specs::Execution::execute))]
fn jalr(hart: &mut Hart, word: u32) -> Stepped
    ensures gives { (room : Room) → Gives (decoded access (jalr_at word) hart.old.regs hart.old.pc room) result hart.new room }
    ensures keeps { Keeps result hart.old hart.new }
    ensures wants { (address : Option ℕ) (room : Room) → Wants result address room }
{
    if funct3(word) != 0 {
        return Stepped::Fault(Cause::Undefined);
    }
    let sum = add(hart.reg(rs1(word)), imm_i(word));
    hart.jumps(rd(word), sum - sum % 2)
}

#[inline(always)]
#[tactic(auto, unfolding(mv_isa::specs::Encoding::branch_at, mv_isa::specs::Execution::execute, mv_isa::specs::Execution::branches))]
fn branch(hart: &mut Hart, word: u32) -> Stepped
    ensures gives { (room : Room) → Gives (decoded access (branch_at word) hart.old.regs hart.old.pc room) result hart.new room }
    ensures keeps { Keeps result hart.old hart.new }
    ensures wants { (address : Option ℕ) (room : Room) → Wants result address room }
{
    let offset = imm_b(word);
    let rs1 = rs1(word);
    let rs2 = rs2(word);
    match funct3(word) {
        0 => hart.branches(offset, hart.are_equal(rs1, rs2)),
        1 => hart.branches(offset, !hart.are_equal(rs1, rs2)),
        2 | 3 => Stepped::Fault(Cause::Undefined),
        4 => hart.branches(offset, hart.is_less_s(rs1, rs2)),
        5 => hart.branches(offset, !hart.is_less_s(rs1, rs2)),
        6 => hart.branches(offset, hart.is_less_u(rs1, rs2)),
        7 => hart.branches(offset, !hart.is_less_u(rs1, rs2)),
        _ => unreachable!(),
    }
}

#[inline(always)]
#[tactic(auto, unfolding(mv_isa::specs::Encoding::load_at, mv_isa::specs::Execution::execute, mv_isa::specs::Execution::loads))]
fn load(hart: &mut Hart, memory: &Memory, word: u32) -> Stepped
    ensures gives { Gives (decoded access (load_at word) hart.old.regs hart.old.pc memory.now) result hart.new memory.now }
    ensures keeps { Keeps result hart.old hart.new }
    ensures wants { (address : Option ℕ) (room : Room) → Wants result address room }
{
    let rd = rd(word);
    let rs1 = rs1(word);
    let offset = imm_i(word);
    match funct3(word) {
        0 => hart.loads(memory, rd, rs1, offset, 1, Kind::SChar),
        1 => hart.loads(memory, rd, rs1, offset, 2, Kind::Short),
        2 => hart.loads(memory, rd, rs1, offset, 4, Kind::UInt),
        4 => hart.loads(memory, rd, rs1, offset, 1, Kind::UChar),
        5 => hart.loads(memory, rd, rs1, offset, 2, Kind::UShort),
        _ => Stepped::Fault(Cause::Undefined),
    }
}

#[inline(always)]
#[tactic(auto, unfolding(mv_isa::specs::Encoding::store_at, mv_isa::specs::Execution::execute, mv_isa::specs::Execution::stores))]
fn store(hart: &mut Hart, memory: &mut Memory, word: u32) -> Stepped
    ensures gives { Gives (decoded access (store_at word) hart.old.regs hart.old.pc memory.old) result hart.new memory.new }
    ensures stays { Stays result hart.old hart.new memory.old memory.new }
    ensures wants { Wants result (option_and_then (λ instr. target instr hart.old.regs) (store_at word)) memory.old }
{
    let rs1 = rs1(word);
    let rs2 = rs2(word);
    let offset = imm_s(word);
    match funct3(word) {
        0 => hart.stores(memory, rs1, rs2, offset, 1),
        1 => hart.stores(memory, rs1, rs2, offset, 2),
        2 => hart.stores(memory, rs1, rs2, offset, 4),
        _ => Stepped::Fault(Cause::Undefined),
    }
}

#[inline(always)]
#[tactic(auto, unfolding(mv_isa::specs::Encoding::shift_at, mv_isa::specs::Execution::execute))]
fn shift(hart: &mut Hart, word: u32) -> Stepped
    ensures gives { (room : Room) → Gives (decoded access (shift_at word) hart.old.regs hart.old.pc room) result hart.new room }
    ensures keeps { Keeps result hart.old hart.new }
    ensures wants { (address : Option ℕ) (room : Room) → Wants result address room }
{
    let rd = rd(word);
    let value = hart.reg(rs1(word));
    let count = count(word);
    match functs(word) {
        0x001 => hart.sets(rd, shl(value, count)),
        0x005 => hart.sets(rd, shr_u(value, count)),
        0x105 => hart.sets(rd, shr_s(value, count)),
        _ => Stepped::Fault(Cause::Undefined),
    }
}

#[inline(always)]
#[tactic(auto, unfolding(mv_isa::specs::Encoding::immediate_at, mv_isa::specs::Execution::execute))]
fn immediate(hart: &mut Hart, word: u32) -> Stepped
    ensures gives { (room : Room) → Gives (decoded access (immediate_at word) hart.old.regs hart.old.pc room) result hart.new room }
    ensures keeps { Keeps result hart.old hart.new }
    ensures wants { (address : Option ℕ) (room : Room) → Wants result address room }
{
    let rd = rd(word);
    let value = hart.reg(rs1(word));
    let imm = imm_i(word);
    match funct3(word) {
        0 => hart.sets(rd, add(value, imm)),
        1 | 5 => shift(hart, word),
        2 => hart.sets(rd, truth(lt_s(value, imm))),
        3 => hart.sets(rd, truth(lt_u(value, imm))),
        4 => hart.sets(rd, value ^ imm),
        6 => hart.sets(rd, value | imm),
        7 => hart.sets(rd, value & imm),
        _ => unreachable!(),
    }
}

#[inline(always)]
#[tactic(auto, unfolding(mv_isa::specs::Encoding::register_at, mv_isa::specs::Execution::execute))]
fn register(hart: &mut Hart, word: u32) -> Stepped
    ensures gives { (room : Room) → Gives (decoded access (register_at word) hart.old.regs hart.old.pc room) result hart.new room }
    ensures keeps { Keeps result hart.old hart.new }
    ensures wants { (address : Option ℕ) (room : Room) → Wants result address room }
{
    let rd = rd(word);
    let a = hart.reg(rs1(word));
    let b = hart.reg(rs2(word));
    match functs(word) {
        0x000 => hart.sets(rd, add(a, b)),
        0x100 => hart.sets(rd, sub(a, b)),
        0x001 => hart.sets(rd, shl(a, b)),
        0x002 => hart.sets(rd, truth(lt_s(a, b))),
        0x003 => hart.sets(rd, truth(lt_u(a, b))),
        0x004 => hart.sets(rd, a ^ b),
        0x005 => hart.sets(rd, shr_u(a, b)),
        0x105 => hart.sets(rd, shr_s(a, b)),
        0x006 => hart.sets(rd, a | b),
        0x007 => hart.sets(rd, a & b),
        0x008 => hart.sets(rd, mul(a, b)),
        0x009 => hart.sets(rd, mul_high_ss(a, b)),
        0x00a => hart.sets(rd, mul_high_su(a, b)),
        0x00b => hart.sets(rd, mul_high_uu(a, b)),
        0x00c => hart.sets(rd, quotient_s(a, b)),
        0x00d => hart.sets(rd, quotient_u(a, b)),
        0x00e => hart.sets(rd, remainder_s(a, b)),
        0x00f => hart.sets(rd, remainder_u(a, b)),
        _ => Stepped::Fault(Cause::Undefined),
    }
}

#[inline(always)]
#[tactic(auto, unfolding(mv_isa::specs::Encoding::fence_at, mv_isa::specs::Execution::execute, crate::specs::Stepping::access))]
fn fence(hart: &mut Hart, memory: &mut Memory, word: u32) -> Stepped
    ensures gives { Gives (decoded access (fence_at word) hart.old.regs hart.old.pc memory.old) result hart.new memory.new }
    ensures stays { Stays result hart.old hart.new memory.old memory.new }
    ensures wants { (address : Option ℕ) (room : Room) → Wants result address room }
{
    match funct3(word) {
        0 => hart.goes_on(),
        1 => {
            memory.fence_i();
            hart.goes_on()
        }
        _ => Stepped::Fault(Cause::Undefined),
    }
}

#[tactic(auto, unfolding(mv_isa::specs::Encoding::system_at, mv_isa::specs::Execution::execute))]
fn system(word: u32) -> Stepped
    ensures gives { (hart : Hart) (room : Room) → Gives (decoded access (system_at word) hart.regs hart.pc room) result hart room }
    ensures keeps { (was is : Hart) → is ≡ was → Keeps result was is }
    ensures wants { (address : Option ℕ) (room : Room) → Wants result address room }
{
    match word {
        0x0000_0073 => Stepped::Call,
        0x0010_0073 => Stepped::Fault(Cause::Break),
        _ => Stepped::Fault(Cause::Undefined),
    }
}

/// One step with a word that is at hand: the instruction of the word is carried out, as the definition in `mv_isa` says.
///
/// `Call` stops before an ECALL, `Fault` and `Memory` change nothing, and `Memory` comes only at a store into text with `spare`
/// 0, so that all other steps take no memory.
///
/// `Caller` names who calls, and nothing else: a program has one copy of the function for each, which the compiler inlines where it is called
/// by that one alone. A function as long as this that two call is inlined in neither.
#[inline(always)]
#[tactic(auto, unfolding(mv_isa::specs::Encoding::decode, mv_isa::specs::Execution::execute, crate::specs::Stepping::word_target))]
pub fn step_word<Caller>(hart: &mut Hart, memory: &mut Memory, word: u32) -> Stepped
    ensures gives { Gives (step access (Some word) hart.old.regs hart.old.pc memory.old) result hart.new memory.new }
    ensures stays { Stays result hart.old hart.new memory.old memory.new }
    ensures wants { Wants result (word_target word hart.old.regs) memory.old }
{
    match opcode(word) {
        0x37 => hart.sets(rd(word), upper(word)),
        0x17 => hart.sets(rd(word), add(hart.pc, upper(word))),
        0x6f => hart.jumps(rd(word), add(hart.pc, imm_j(word))),
        0x67 => jalr(hart, word),
        0x63 => branch(hart, word),
        0x03 => load(hart, memory, word),
        0x23 => store(hart, memory, word),
        0x13 => immediate(hart, word),
        0x33 => register(hart, word),
        0x0f => fence(hart, memory, word),
        0x73 => system(word),
        _ => Stepped::Fault(Cause::Undefined),
    }
}

// `step`, as a caller of `step_word`.
struct ByStep;

/// One step with the word that stands at pc in the picked choice, as `step_word` does it. Where pc has no choice, `pick` is any
/// number and the step faults.
#[tactic(auto, unfolding(crate::specs::Stepping::picked_step, crate::specs::Stepping::picked_target))]
pub fn step(hart: &mut Hart, memory: &mut Memory, pick: u64) -> Stepped
    requires { (length (choices memory.old.held hart.old.pc) ≡ 0) ⊎ (pick < length (choices memory.old.held hart.old.pc)) }
    ensures gives { Gives (picked_step memory.old pick hart.old.regs hart.old.pc) result hart.new memory.new }
    ensures stays { Stays result hart.old hart.new memory.old memory.new }
    ensures wants { Wants result (picked_target memory.old pick hart.old.regs hart.old.pc) memory.old }
{
    if memory.choices(hart.pc) == 0 {
        return Stepped::Fault(Cause::Fetch);
    }
    let word = memory.fetch(hart.pc, pick);
    step_word::<ByStep>(hart, memory, word)
}
