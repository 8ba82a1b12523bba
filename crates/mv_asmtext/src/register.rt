//! The names of the registers.

ghost use Rattle.std.specs.Prelude.{◌≡◌, ◌<◌, [], slice_index_or};
ghost use Rattle.mv_asmtext.specs.Registers.{calling_low, calling_high, numbered_low, numbered_high, calling_names, numbered_names, register_names, register_name, register_named};

use std::marker::Model;

/// The names of x0 to x15 in the calling convention.
const CALLING_LOW: [&str; 16] = [
    "zero", "ra", "sp", "gp", "tp", "t0", "t1", "t2", "s0", "s1", "a0", "a1", "a2", "a3", "a4",
    "a5",
];

/// The names of x16 to x31 in the calling convention.
const CALLING_HIGH: [&str; 16] = [
    "a6", "a7", "s2", "s3", "s4", "s5", "s6", "s7", "s8", "s9", "s10", "s11", "t3", "t4", "t5",
    "t6",
];

/// The names of x0 to x15 by number.
const NUMBERED_LOW: [&str; 16] = [
    "x0", "x1", "x2", "x3", "x4", "x5", "x6", "x7", "x8", "x9", "x10", "x11", "x12", "x13", "x14",
    "x15",
];

/// The names of x16 to x31 by number.
const NUMBERED_HIGH: [&str; 16] = [
    "x16", "x17", "x18", "x19", "x20", "x21", "x22", "x23", "x24", "x25", "x26", "x27", "x28",
    "x29", "x30", "x31",
];

/// A register, by its number from 0 to 31.
#[derive(Clone, Copy)]
pub struct Register {
    number: u8,
}

impl Model for Register {
    ghost use Rattle.std.specs.Prelude.{ℕ, ◌<◌};

    ghost Value = { ℕ };

    ghost view = { λ r. r.number };

    ghost invariant = { λ r. r.number < 32 };

    ghost inverse = { λ n. record { number = n } };
}

/// One of the names of x0 to x15 in the calling convention.
fn calling_low(index: usize) -> &'static [u8]
    requires { index < 16 }
    ensures { result.now ≡ slice_index_or calling_low index [] }
{
    CALLING_LOW[index].as_bytes()
}

/// One of the names of x16 to x31 in the calling convention.
fn calling_high(index: usize) -> &'static [u8]
    requires { index < 16 }
    ensures { result.now ≡ slice_index_or calling_high index [] }
{
    CALLING_HIGH[index].as_bytes()
}

/// One of the names of x0 to x15 by number.
fn numbered_low(index: usize) -> &'static [u8]
    requires { index < 16 }
    ensures { result.now ≡ slice_index_or numbered_low index [] }
{
    NUMBERED_LOW[index].as_bytes()
}

/// One of the names of x16 to x31 by number.
fn numbered_high(index: usize) -> &'static [u8]
    requires { index < 16 }
    ensures { result.now ≡ slice_index_or numbered_high index [] }
{
    NUMBERED_HIGH[index].as_bytes()
}

/// A name of the calling convention.
fn calling_name(index: usize) -> &'static [u8]
    requires { index < 32 }
    ensures { result.now ≡ slice_index_or calling_names index [] }
{
    if index < 16 {
        calling_low(index)
    } else {
        calling_high(index - 16)
    }
}

/// A name by number.
fn numbered_name(index: usize) -> &'static [u8]
    requires { index < 32 }
    ensures { result.now ≡ slice_index_or numbered_names index [] }
{
    if index < 16 {
        numbered_low(index)
    } else {
        numbered_high(index - 16)
    }
}

/// A name by its index among all.
fn name(index: usize) -> &'static [u8]
    requires { index < 64 }
    ensures { result.now ≡ slice_index_or register_names index [] }
{
    if index < 32 {
        calling_name(index)
    } else {
        numbered_name(index - 32)
    }
}

impl Register {
    /// The register of a number.
    pub fn new(number: u8) -> Register
        requires { number < 32 }
        ensures { result ≡ number }
    {
        Register { number }
    }

    /// Its number.
    pub fn number(self) -> u8
        ensures value { result ≡ self }
        ensures small { result < 32 }
    {
        self.number
    }

    /// Its name in the calling convention.
    #[tactic(auto, unfolding(crate::specs::Registers::register_name))]
    pub fn name(self) -> &'static [u8]
        ensures { result.now ≡ register_name self }
    {
        name(usize::from(self.number()))
    }
}

/// The register that a word names, if it names one.
#[tactic(auto, unfolding(crate::specs::Registers::register_named))]
pub fn register_named(word: &[u8]) -> Option<Register>
    ensures { result ≡ register_named word.now }
{
    for index in 0..64 {
        if name(index) == word {
            return Some(Register::new((index % 32) as u8));
        }
    }
    None
}
