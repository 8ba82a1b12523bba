//! The lines of words of text that are no longer the image's.

ghost use Rattle.std.specs.Prelude.{◌≡◌, ◌++◌, OnOk, IfOk};
ghost use Rattle.mv_list.specs.Changes.{LoadsGiveTheText, change_line, word_now, patched_text};

use crate::numbers::push_address;
use mv_image::Image;
use mv_image::facts::within_limits;
use mv_machine::Machine;
use mv_num::regions::TEXT_START;
use std::alloc::{AllocError, Global};

/// The present word at an address.
fn word_now(machine: &Machine, address: u32) -> u32
    ensures { result ≡ word_now machine.now.room.held address }
{
    machine.word(address).unwrap_or(0)
}

/// Adds the line of a word, where it is another than it was.
#[tactic(auto, unfolding(crate::specs::Changes::change_line))]
fn push_change(
    alloc: Global,
    out: &mut Vec<u8>,
    address: u32,
    old: u32,
    new: u32,
) -> Result<(), AllocError>
    ensures { OnOk result (out.new.items ≡ out.old.items ++ change_line address old new) }
{
    if old == new {
        return Ok(());
    }
    out.extend_from_slice(b"word ")?;
    push_address(alloc, out, address)?;
    out.push(b' ')?;
    push_address(alloc, out, old)?;
    out.push(b' ')?;
    push_address(alloc, out, new)?;
    out.push(b'\n')?;
    Ok(())
}

/// Where the words of a memory's text are words of 32 bits, the loads of the text give them.
pub fn loads_give_the_text()
    ensures { LoadsGiveTheText }
{}

/// A line for each word of the machine's text that isn't the image's, ascending.
pub fn patched(alloc: Global, image: &Image, machine: &Machine) -> Result<Vec<u8>, AllocError>
    ensures { IfOk result (λ text. text.items ≡ patched_text image.now machine.now.room.held) }
{
    within_limits(image);
    let mut out = Vec::new(alloc);
    let words = image.text().as_slice();
    let mut address = TEXT_START;
    for word in words {
        let new = word_now(machine, address);
        push_change(alloc, &mut out, address, *word, new)?;
        address += 4;
    }
    Ok(out)
}
