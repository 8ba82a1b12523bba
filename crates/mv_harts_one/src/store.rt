//! Stores, as the word of an instruction and in memory.

ghost use Rattle.std.specs.Prelude.{◌≡◌, ◌<◌, option_map, option_and_then, OnOk};
ghost use Rattle.mv_isa.specs.Encoding.{decode};
ghost use Rattle.mv_isa.specs.Execution.{reg};
ghost use Rattle.mv_isa.specs.Formats.{rs1_of, rs2_of, s_imm};
ghost use Rattle.mv_num.specs.Words.{add, word_of};
ghost use Rattle.mv_fetch.specs.Held.{IsWidth};
ghost use Rattle.mv_harts_runs.specs.Harts.{is_in_text, store_of, with_store};
ghost use Rattle.mv_harts_one.specs.Seats.{width_as, store_as};

use crate::fields::{funct3, imm_s, opcode, rs1, rs2};
use mv_fetch::{Memory, StoreError};
use mv_num::regions::{DATA_START, TEXT_START};
use mv_num::word::add;
use mv_rv32::Hart;
use std::alloc::AllocError;

/// The opcode of stores.
const OPCODE: u32 = 0x23;

/// How many bytes a store writes.
#[derive(Clone, Copy)]
pub enum Width {
    Byte,
    Half,
    Word,
}

/// A store, whether or not there is memory at its address.
#[derive(Clone, Copy)]
pub struct Store {
    pub address: u32,
    pub width: Width,
    /// What the register holds that is stored, of which the low bytes count.
    pub value: u32,
}

// So many bytes.
#[inline(always)]
fn bytes(width: Width) -> u32
    ensures value { result ≡ width_as width }
    ensures width { IsWidth result }
{
    match width {
        Width::Byte => 1,
        Width::Half => 2,
        Width::Word => 4,
    }
}

// What a register reads.
#[inline(always)]
#[tactic(auto, unfolding(mv_isa::specs::Execution::reg))]
fn register(hart: &Hart, number: usize) -> u32
    requires { number < 32 }
    ensures { result ≡ reg hart.now.regs number }
{
    hart.regs[number]
}

// The store of so many bytes that a store's word is.
#[inline(always)]
fn stored(hart: &Hart, word: u32, width: Width) -> Store
    ensures { store_as result ≡ record { address = add (reg hart.now.regs (rs1_of word)) (word_of (s_imm word)); width = width_as width; value = reg hart.now.regs (rs2_of word) } }
{
    Store {
        address: add(register(hart, rs1(word)), imm_s(word)),
        width,
        value: register(hart, rs2(word)),
    }
}

/// The store that the instruction of a word is.
#[inline(always)]
pub(crate) fn store_at(hart: &Hart, word: u32) -> Option<Store>
    ensures { option_map store_as result ≡ option_and_then (λ i. store_of i hart.now.regs) (decode word) }
{
    if opcode(word) != OPCODE {
        return None;
    }
    match funct3(word) {
        0 => Some(stored(hart, word, Width::Byte)),
        1 => Some(stored(hart, word, Width::Half)),
        2 => Some(stored(hart, word, Width::Word)),
        _ => None,
    }
}

/// Whether an address lies in text.
#[inline(always)]
pub(crate) fn lies_in_text(address: u32) -> bool
    ensures { result ≡ is_in_text address }
{
    address >= TEXT_START && address < DATA_START
}

/// Makes a store where there is memory at its address.
pub(crate) fn put(memory: &mut Memory, store: Store) -> Result<(), AllocError>
    ensures { OnOk result (memory.new ≡ with_store memory.old (store_as store)) }
{
    match memory.store(store.address, bytes(store.width), store.value) {
        Ok(()) => Ok(()),
        Err(StoreError::Memory(error)) => Err(error),
        Err(StoreError::Misaligned(_)) => Ok(()),
        Err(StoreError::Outside(_)) => Ok(()),
    }
}
