//! From where a run went to another place than the next instruction.

ghost use Rattle.std.specs.Prelude.{◌≡◌, Some, if◌then◌else◌};
ghost use Rattle.mv_machine.specs.Departures.{departs, floor};

use mv_image::Image;
use mv_num::word::add;

/// Where the words of functions begin: at the first target, and at 0 in an image without.
pub(crate) fn floor_of(image: &Image) -> u32
    ensures { result ≡ floor image.now }
{
    match image.targets().as_slice() {
        [] => 0,
        [row, ..] => row.entry,
    }
}

/// Whether an instruction at one address in the words of functions didn't go on to the one behind it.
#[inline(always)]
fn departs(floor: u32, from: u32, to: u32) -> bool
    ensures { result ≡ departs floor from to }
{
    floor <= from && to != add(from, 4)
}

/// Takes the address of an instruction that went to another as the place, where it departs.
#[inline(always)]
pub(crate) fn note_departure(place: &mut Option<u32>, floor: u32, from: u32, to: u32)
    ensures { place.new ≡ (if departs floor from to then Some from else place.old) }
{
    if departs(floor, from, to) {
        *place = Some(from);
    }
}
