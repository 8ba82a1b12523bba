//! The choice of pins: numbers that stand in registers from a function's entry on. They are those that save most, one after the other, while there are
//! registers and words for them and each saves more than it costs; among equals the one that comes first in the code.

ghost use Rattle.std.specs.Prelude.{[], ◌≡◌, ◌-◌, ◌^◌, ◌≤◌, length, map, IfOk, OnOk};
ghost use Rattle.mv_num.specs.Lists.{is_among};
ghost use Rattle.mv_select.specs.Functions.Pins.{pin_words, first_pin, moving_words, is_new, pin_next, pins_of};
ghost use Rattle.mv_select.specs.Functions.Pins.{weight_of, numbers_from, weigh, no_number, heaviest, pin_cost, pin_heaviest, chosen};

use crate::uses::{Use, number_words, uses};
use mv_ir::body::Body;
use mv_num::list::List;
use mv_select_code::trees::places::{Keeping, Pin, pinned};
use std::alloc::{AllocError, Global};

/// How many pins there are at most.
const MOST: u32 = 9;

/// A number, and what it saves in all where it stands in a register.
#[derive(Clone, Copy)]
pub struct Weighed {
    pub number: u32,
    pub weight: u128,
}

// How many words bring all pins there.
fn pin_words(pins: &[Pin]) -> u128
    ensures count { result ≡ pin_words pins.now }
    ensures within { result ≤ 2 ^ 96 }
{
    let mut words: u128 = 0;
    for pin in pins {
        words += u128::from(number_words(pin.number));
    }
    words
}

// Whether a number has no pin yet, and there are words for it.
fn is_new(room: u32, pins: &[Pin], n: u32) -> bool
    ensures { result ≡ is_new room pins.now n }
{
    pinned(pins, n).is_none() && pin_words(pins) + u128::from(number_words(n)) <= u128::from(room)
}

// A pin for a number, if there is room for it.
fn push_pin(
    pins: &mut List<Pin>,
    keeping: Keeping,
    first: u32,
    room: u32,
    n: u32,
) -> Result<(), AllocError>
    requires first { first ≤ 507 }
    requires few { length pins.now ≤ 17 }
    ensures { OnOk result (pins.new ≡ pin_next keeping first room pins.old n) }
{
    if !is_new(room, pins.as_slice(), n) {
        return Ok(());
    }
    match keeping.register(first + pins.as_slice().len() as u32) {
        Some(register) => {
            pins.push(Pin {
                number: n,
                register,
            })?;
            Ok(())
        }
        None => Ok(()),
    }
}

/// The temporary whose register the first pin has.
pub(crate) fn first_pin(keeping: Keeping, temps: u32) -> u32
    ensures { result ≡ first_pin keeping temps }
{
    match keeping {
        Keeping::Saved => temps,
        Keeping::Arguments | Keeping::Mixed => temps.max(1),
    }
}

// How many words there are for pins.
fn room_of(keeping: Keeping, params: u32) -> u32
    ensures { result ≡ 8 - moving_words keeping params }
{
    match keeping {
        Keeping::Saved => 8 - params.min(8),
        Keeping::Arguments | Keeping::Mixed => 8,
    }
}

// Whether a number is one of some.
fn is_among(n: u32, numbers: &[u32]) -> bool
    ensures { result ≡ is_among n numbers.now }
{
    for other in numbers {
        if n == *other {
            return true;
        }
    }
    false
}

// The first numbers that have uses, each once, and no more than 64: what else is done for each of them takes no longer than the code is.
fn numbers(alloc: Global, uses: &[Use]) -> Result<List<u32>, AllocError>
    ensures { IfOk result (λ numbers. numbers ≡ numbers_from [] uses.now) }
{
    let mut numbers = List::new(alloc);
    for one in uses {
        if !is_among(one.number, numbers.as_slice()) && numbers.len() < 64 {
            numbers.push(one.number)?;
        }
    }
    Ok(numbers)
}

// What a number saves in all.
fn weight_of(uses: &[Use], n: u32) -> u128
    ensures { result ≡ weight_of uses.now n }
{
    let mut weight: u128 = 0;
    for one in uses {
        if one.number == n {
            weight += u128::from(one.weight);
        }
    }
    weight
}

// What each of some numbers saves in all.
fn weigh(alloc: Global, uses: &[Use], numbers: &[u32]) -> Result<List<Weighed>, AllocError>
    ensures { IfOk result (λ all. all ≡ map (weigh uses.now) numbers.now) }
{
    let mut all = List::new(alloc);
    for number in numbers {
        all.push(Weighed {
            number: *number,
            weight: weight_of(uses, *number),
        })?;
    }
    Ok(all)
}

// The first of those that weigh most and are new, and else no number.
fn heaviest(room: u32, pins: &[Pin], all: &[Weighed]) -> Weighed
    ensures { result ≡ heaviest room pins.now no_number all.now }
{
    let mut best = Weighed {
        number: 0,
        weight: 0,
    };
    for one in all {
        if is_new(room, pins, one.number) && best.weight < one.weight {
            best = *one;
        }
    }
    best
}

// What a pin costs at entry and return.
fn pin_cost(keeping: Keeping, n: u32) -> u32
    ensures { result ≡ pin_cost keeping n }
{
    match keeping {
        Keeping::Saved | Keeping::Mixed => number_words(n) + 2,
        Keeping::Arguments => number_words(n),
    }
}

// A pin for the number that saves most, if it saves more than it costs.
fn push_heaviest(
    pins: &mut List<Pin>,
    keeping: Keeping,
    first: u32,
    room: u32,
    all: &[Weighed],
) -> Result<(), AllocError>
    requires first { first ≤ 507 }
    requires few { length pins.now ≤ 17 }
    ensures { OnOk result (pins.new ≡ pin_heaviest keeping first room all.now pins.old) }
{
    let best = heaviest(room, pins.as_slice(), all);
    if u128::from(pin_cost(keeping, best.number)) < best.weight {
        push_pin(pins, keeping, first, room, best.number)
    } else {
        Ok(())
    }
}

// Pins for the numbers that save most, at most nine.
fn chosen(
    alloc: Global,
    keeping: Keeping,
    first: u32,
    room: u32,
    all: &[Weighed],
) -> Result<List<Pin>, AllocError>
    requires { first ≤ 507 }
    ensures { IfOk result (λ pins. pins ≡ chosen keeping first room all.now) }
{
    let mut pins = List::new(alloc);
    for _turn in 0..MOST {
        push_heaviest(&mut pins, keeping, first, room, all)?;
    }
    Ok(pins)
}

/// The pins of a body: the numbers that save most where they stand in registers, as far as there are registers and words for them.
#[tactic(auto, unfolding(crate::specs::Functions::Pins::pins_of))]
pub(crate) fn pins_of(alloc: Global, body: &Body, keeping: Keeping) -> Result<List<Pin>, AllocError>
    requires { body.now.temps ≤ 507 }
    ensures { IfOk result (λ pins. pins ≡ pins_of keeping body.now) }
{
    let uses = uses(alloc, body)?;
    let numbers = numbers(alloc, uses.as_slice())?;
    let all = weigh(alloc, uses.as_slice(), numbers.as_slice())?;
    let first = first_pin(keeping, body.temps);
    let room = room_of(keeping, body.params);
    chosen(alloc, keeping, first, room, all.as_slice())
}
