//! The lines before what stands at a place.

ghost use Rattle.std.specs.Prelude.{◌≡◌, ◌++◌, codes, OnOk, option_copied};
ghost use Rattle.mv_patch_view.specs.PatchView.{place_line, within_text};

use mv_list::numbers::push_address;
use std::alloc::{AllocError, Global};

/// Adds in whose code a place stands, where that is told.
fn push_within(out: &mut Vec<u8>, within: Option<&[u8]>) -> Result<(), AllocError>
    ensures { OnOk result (out.new.items ≡ out.old.items ++ within_text (option_copied within.entry)) }
{
    match within {
        Some(name) => {
            out.extend_from_slice(b" in ")?;
            out.extend_from_slice(name)
        }
        None => Ok(()),
    }
}

/// Adds the line of a place: what it is, its address, of which function or pointer switch it is, and in whose code it stands.
#[tactic(auto, unfolding(crate::specs::PatchView::place_line))]
pub(crate) fn push_head(
    alloc: Global,
    out: &mut Vec<u8>,
    what: &[u8],
    address: u32,
    name: &[u8],
    within: Option<&[u8]>,
) -> Result<(), AllocError>
    ensures { OnOk result (out.new.items ≡ out.old.items ++ place_line what.now address name.now (option_copied within.entry)) }
{
    out.extend_from_slice(what)?;
    out.push(b' ')?;
    push_address(alloc, out, address)?;
    out.push(b' ')?;
    out.extend_from_slice(name)?;
    push_within(out, within)?;
    out.push(b'\n')?;
    Ok(())
}
