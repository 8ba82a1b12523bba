//! The text of a run of harts.

ghost use Rattle.std.specs.Prelude.{◌≡◌, ◌≤◌, ◌++◌, false, length, All, IfOk, OnOk};
ghost use Rattle.std.specs.String.{string_bytes};
ghost use Rattle.mv_harts.specs.Ends.{is_fault, stop_text};
ghost use Rattle.mv_harts.specs.Texts.{hart_text, line_of, texts_from};

use crate::devices::Keeping;
use crate::ends::{HartStop, HartsEnd};
use std::alloc::{AllocError, Global};

// The line of a hart that has written so many bytes.
fn line_of(alloc: Global, number: usize, stop: HartStop, count: usize) -> Result<String, AllocError>
    ensures { IfOk result (λ line. string_bytes line ≡ line_of number (stop_text stop) count) }
{
    format!(in alloc; "hart {number} {stop} bytes {count}\n")
}

// Adds the line of a hart, what it has written and a line feed.
fn push_hart(
    alloc: Global,
    text: &mut Vec<u8>,
    number: usize,
    stop: HartStop,
    bytes: &[u8],
) -> Result<(), AllocError>
    ensures { OnOk result (text.new.items ≡ text.old.items ++ hart_text number stop bytes.now) }
{
    let line = line_of(alloc, number, stop, bytes.len())?;
    text.extend_from_slice(line.as_str().as_bytes())?;
    text.extend_from_slice(bytes)?;
    text.push(b'\n')?;
    Ok(())
}

/// The lines of all harts. As a sink fails only for want of memory, so it is an error where one has failed.
pub(crate) fn text_of(
    alloc: Global,
    end: &HartsEnd,
    sinks: &[Keeping],
) -> Result<Vec<u8>, AllocError>
    requires { length end.now.harts ≤ length sinks.now }
    ensures text { IfOk result (λ text. text.items ≡ texts_from 0 end.now.harts sinks.now) }
    ensures faultless { IfOk result (λ text. All (λ hart. is_fault hart.stop ≡ false) end.now.harts) }
{
    let mut text = Vec::new(alloc);
    for (number, hart) in end.harts.as_slice().iter().enumerate() {
        if hart.stop.is_fault() {
            return Err(AllocError);
        }
        push_hart(alloc, &mut text, number, hart.stop, sinks[number].bytes())?;
    }
    Ok(text)
}
