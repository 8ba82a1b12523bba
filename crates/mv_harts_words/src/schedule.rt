//! The schedule of a number.

ghost use Rattle.std.specs.Prelude.{◌≡◌, ◌<◌, All, IfOk, replicate};
ghost use Rattle.mv_harts_words.specs.Schedules.{hart_of, schedule_of};

use mv_gen::next;
use std::alloc::{AllocError, Global};

// Whose turn a word is, of so many harts.
fn hart_of(count: u8, word: u32) -> u8
    requires { 0 < count }
    ensures whose { result ≡ hart_of count word }
    ensures below { result < count }
{
    (word / 0x1_0000 % u32::from(count)) as u8
}

// So many turns of hart 0.
fn of_the_first(alloc: Global, turns: u32) -> Result<Vec<u8>, AllocError>
    ensures { IfOk result (λ schedule. schedule.items ≡ replicate turns 0) }
{
    vec![in alloc; 0; turns as usize]
}

/// The schedule of a number, for so many harts and of so many turns: whose turn each is.
pub fn schedule_of(alloc: Global, count: u8, number: u32, turns: u32) -> Result<Vec<u8>, AllocError>
    requires { 0 < count }
    ensures turns { IfOk result (λ schedule. schedule.items ≡ schedule_of count number turns) }
    ensures below { IfOk result (λ schedule. All (λ hart. hart < count) schedule.items) }
{
    let mut schedule = of_the_first(alloc, turns)?;
    let mut word = number;
    for turn in 0..schedule.len() {
        word = next(word);
        schedule[turn] = hart_of(count, word);
    }
    Ok(schedule)
}
