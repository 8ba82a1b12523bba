//! What a command comes to with fewer instructions.

use crate::outcome::{Outcome, outcome_of};
use crate::row::Row;
use std::io;

/// The number of the status of a run that goes on.
const STEPS: u8 = 8;

// Whether what a limited run wrote is a part of the whole from its start, and all of it where it ended as the whole did.
fn is_part(outcome: &Outcome, whole: &Outcome) -> bool {
    let is_whole = outcome.status == whole.status && outcome.out.as_slice() == whole.out.as_slice();
    let is_start = outcome.status == STEPS
        && whole.out.as_slice().starts_with(outcome.out.as_slice());
    is_whole || is_start
}

// What the command of a row comes to with a step limit.
fn limited(rt: &HostRuntime, row: &Row, steps: u64) -> io::Result<Outcome> {
    let line = format!(in rt.alloc(); "{} --steps {steps}", row.words().0)?;
    outcome_of(rt, row, line.as_str(), "oldest")
}

/// Carries out the command of a row with each step limit up to its greatest one, if it has one, and prints at how many of them it came to a part of the
/// whole that is no shorter than with the limit before.
pub(crate) fn show_limits(rt: &HostRuntime, row: &Row, whole: &Outcome) -> io::Result<()> {
    let limits = row.number("limits", 0);
    if limits == 0 {
        return Ok(());
    }
    let mut sound: u32 = 0;
    let mut longest = 0;
    for index in 0..limits {
        let outcome = limited(rt, row, u64::from(index) + 1)?;
        if is_part(&outcome, whole) && longest <= outcome.out.len() {
            sound = sound.saturating_add(1);
        }
        longest = outcome.out.len();
    }
    println!(rt; "{sound} of {limits} step limits")
}
