//! What a call of `run_harts` comes to.

ghost use Rattle.std.specs.Prelude.{◌≡◌, ◌<◌, ◌^◌, All, IfOk, IsTrue, Some, vec_len};
ghost use Rattle.mv_machine.specs.Actions.{fits_rows};
ghost use Rattle.mv_image.specs.Faults.{Rules};
ghost use Rattle.mv_harts_meant.specs.Runnable.{IsRunnable};
ghost use Rattle.mv_harts.specs.HartsRan.{TellsBytes};

use crate::program::{ROOM, sink_of};
use crate::row::Row;
use crate::text::text_of;
use mv_actions::{ActionsError, actions_of_image};
use mv_bindings::action::Action;
use mv_build::{BuildError, Built, build};
use mv_command::Item;
use mv_harts::{built_programs_are_runnable, run_harts};
use mv_image::Image;
use mv_io::{MemSink, MemSource};
use mv_num::list::List;
use mv_num::text::Text;
use mv_probe::{FetchOracle, Fresh, Oldest, Table};
use std::alloc::{AllocError, Global};
use std::mem;

/// The most harts that a run has.
const MOST: usize = 4;

// The bytes of an input, without any `-`.
fn bytes_of(alloc: Global, input: &str) -> Result<Vec<u8>, AllocError>
    ensures { IfOk result (λ bytes. All (λ b. b < 2 ^ 8) bytes.items) }
{
    let mut bytes = Vec::new(alloc);
    for byte in input.as_bytes() {
        if *byte != b'-' {
            bytes.push(*byte)?;
        }
    }
    Ok(bytes)
}

// A source for each input of a row.
fn sources_of(alloc: Global, row: Row) -> Result<Vec<MemSource>, AllocError>
    ensures { IfOk result (λ sources. All (λ source. TellsBytes (Some source.left)) sources.items) }
{
    let mut sources = Vec::new(alloc);
    for input in row.said("in").split(' ') {
        let failing = row.number("reads", sources.len(), 0);
        let bytes = bytes_of(alloc, input)?;
        sources.push(MemSource::new(bytes, vec![in alloc; failing]?))?;
    }
    Ok(sources)
}

// So many sinks, as a row has them.
fn sinks_of(alloc: Global, row: Row, count: usize) -> Result<Vec<MemSink>, AllocError>
    ensures { IfOk result (λ sinks. vec_len sinks ≡ count) }
{
    let mut sinks = Vec::new(alloc);
    for hart in 0..count {
        let room = row.number("rooms", hart, ROOM);
        sinks.push(sink_of(alloc, room, row.number("writes", hart, 0))?)?;
    }
    Ok(sinks)
}

// The digits of a schedule.
fn digits_of(alloc: Global, parts: &str) -> Result<String, AllocError> {
    let mut digits = String::new(alloc);
    for part in parts.split(',') {
        let (harts, times) = part.split_once('*').unwrap_or((part, "1"));
        let times = times.parse::<u32>().unwrap_or(0);
        digits.push_str(harts.repeat(alloc, times as usize)?.as_str())?;
    }
    Ok(digits)
}

// The schedule of some digits, without turns of a hart that isn't there.
fn schedule_of(alloc: Global, digits: &str, count: usize) -> Result<Vec<u8>, AllocError>
    ensures { IfOk result (λ schedule. All (λ hart. hart < count) schedule.items) }
{
    let mut schedule = Vec::new(alloc);
    for digit in digits.as_bytes() {
        let hart = digit.wrapping_sub(b'0');
        if usize::from(hart) < count {
            schedule.push(hart)?;
        }
    }
    Ok(schedule)
}

// The operator's actions by `SKIPS:SWITCH=VALUE`; none where that isn't said or doesn't fit.
fn actions_of(alloc: Global, image: &Image, said: &str) -> Result<Vec<Action>, AllocError>
    ensures { IfOk result (λ actions. All (λ action. IsTrue (fits_rows image.now.switches action)) actions.items) }
{
    let Some((skips, flip)) = said.split_once(':') else {
        return Ok(Vec::new(alloc));
    };
    let (name, value) = flip.split_once('=').unwrap_or((flip, ""));
    let mut items = List::new(alloc);
    items.push(Item {
        poll: skips.parse::<u32>().unwrap_or(0).saturating_add(1),
        name: Text::new(alloc, name.as_bytes())?,
        value: value.parse::<i64>().unwrap_or(0),
    })?;
    match actions_of_image(alloc, image, &items) {
        Ok(actions) => Ok(actions),
        Err(ActionsError::Refused(_)) => Ok(Vec::new(alloc)),
        Err(ActionsError::Memory(error)) => Err(error),
    }
}

// An image keeps the rules. The call changes nothing; it is for the clause.
fn keeps_rules(image: &Image)
    ensures { Rules image.now }
{
    let _entry = image.entry();
}

// What comes of a program with the harts of a row, by a schedule.
fn outcome_of_built(
    alloc: Global,
    built: &Built,
    row: Row,
    parts: &str,
) -> Result<Vec<u8>, AllocError>
    requires { IsRunnable built.now.program built.now.image }
{
    let mut sources = sources_of(alloc, row)?;
    let count = sources.len();
    if count == 0 || MOST < count {
        return b"no harts\n".as_slice().to_vec(alloc);
    }
    let mut sinks = sinks_of(alloc, row, count)?;
    let schedule = schedule_of(alloc, digits_of(alloc, parts)?.as_str(), count)?;
    let actions = actions_of(alloc, &built.image, row.said("at"))?;
    let mut oracle: Box<dyn FetchOracle> = match row.said("oracle") {
        "fresh" => Box::new(alloc, Fresh)?,
        "table" => Box::new(alloc, Table::new(vec![in alloc; 0, 1, 2]?))?,
        _ => Box::new(alloc, Oldest)?,
    };
    let ends = run_harts(
        alloc,
        built,
        schedule.as_slice(),
        &mut sources,
        &mut sinks,
        &mut oracle,
        actions.as_slice(),
    )?;
    text_of(alloc, &ends, sinks.as_slice())
}

/// What comes of the text of a row with its harts, by a schedule. What was built is forgotten: its memory is had back when the program ends.
pub(crate) fn outcome_of(alloc: Global, row: Row, parts: &str) -> Result<Vec<u8>, AllocError> {
    built_programs_are_runnable();
    match build(alloc, row.text.as_bytes()) {
        Ok(built) => {
            keeps_rules(&built.image);
            let outcome = outcome_of_built(alloc, &built, row, parts);
            mem::forget(built);
            outcome
        }
        Err(BuildError::Refused(_)) => b"refused\n".as_slice().to_vec(alloc),
        Err(BuildError::Memory(error)) => Err(error),
    }
}
