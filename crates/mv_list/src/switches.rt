//! The lines of switches.

ghost use Rattle.std.specs.Prelude.{◌≡◌, ◌++◌, OnOk};
ghost use Rattle.mv_list.specs.Listing.{values_text, switch_line, switches_text};

use crate::names::{kind_name, switch_name};
use crate::numbers::push_value;
use crate::parts::front;
use mv_descriptors::SwitchRow;
use mv_image::Image;
use std::alloc::{AllocError, Global};

/// Adds values of a kind, each behind a space.
#[tactic(auto, unfolding(crate::specs::Listing::values_text))]
fn push_values(alloc: Global, out: &mut Vec<u8>, kind: u32, words: &[u32]) -> Result<(), AllocError>
    ensures { OnOk result (out.new.items ≡ out.old.items ++ values_text kind words.now) }
{
    for word in words {
        out.push(b' ')?;
        push_value(alloc, out, kind, *word)?;
    }
    Ok(())
}

/// Adds the line of the switch with this number.
#[tactic(auto, unfolding(crate::specs::Listing::switch_line))]
fn push_switch(
    alloc: Global,
    out: &mut Vec<u8>,
    image: &Image,
    switch: usize,
    row: &SwitchRow,
) -> Result<(), AllocError>
    ensures { OnOk result (out.new.items ≡ out.old.items ++ switch_line image.now switch row.now) }
{
    out.extend_from_slice(b"switch ")?;
    out.extend_from_slice(switch_name(image, switch))?;
    out.push(b' ')?;
    out.extend_from_slice(kind_name(row.kind))?;
    out.extend_from_slice(b" values")?;
    push_values(
        alloc,
        out,
        row.kind.number(),
        front(&row.values, row.count as usize),
    )?;
    out.push(b'\n')?;
    Ok(())
}

/// Adds the lines of all switches.
#[tactic(auto, unfolding(crate::specs::Listing::switches_text))]
pub(crate) fn push_switches(
    alloc: Global,
    out: &mut Vec<u8>,
    image: &Image,
) -> Result<(), AllocError>
    ensures { OnOk result (out.new.items ≡ out.old.items ++ switches_text image.now 0 image.now.switches) }
{
    let rows = image.switches().as_slice();
    let mut switch = 0;
    for row in rows {
        push_switch(alloc, out, image, switch, row)?;
        switch += 1;
    }
    Ok(())
}
