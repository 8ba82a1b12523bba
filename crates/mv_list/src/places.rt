//! In whose code an address stands.

ghost use Rattle.std.specs.Prelude.{◌≡◌, None, option_copied, IfOk};
ghost use Rattle.mv_list.specs.Places.{last_of_variants, last_start, last_target, last_variant, later, owner_name, place_name, place_text};

use crate::names::{function_name, target_name};
use crate::numbers::push_address;
use crate::parts::{behind, front};
use mv_descriptors::VariantRow;
use mv_image::Image;
use std::alloc::{AllocError, Global};

/// Whose code it is.
#[derive(Clone, Copy)]
pub(crate) enum Owner {
    /// That of the target with this number.
    Target(usize),
    /// A variant of the attributed function with this number.
    Attributed(usize),
}

/// Where code begins, and whose it is.
#[derive(Clone, Copy)]
pub(crate) struct Start {
    pub(crate) address: u32,
    pub(crate) owner: Owner,
}

/// The later of two starts that aren't behind an address, and the first of them where they are the same.
fn later(address: u32, best: Option<Start>, start: Start) -> Option<Start>
    ensures { result ≡ later address best start }
{
    match best {
        None => (start.address <= address).then_some(start),
        Some(best) => {
            if start.address <= address && best.address < start.address {
                Some(start)
            } else {
                Some(best)
            }
        }
    }
}

/// The last start of a target.
#[tactic(auto, unfolding(crate::specs::Places::last_target))]
fn last_target(image: &Image, address: u32) -> Option<Start>
    ensures { result ≡ last_target address 0 None image.now.targets }
{
    let rows = image.targets().as_slice();
    let mut number = 0;
    let mut best = None;
    for row in rows {
        let start = Start {
            address: row.entry,
            owner: Owner::Target(number),
        };
        best = later(address, best, start);
        number += 1;
    }
    best
}

/// The last start of a variant of one function.
#[tactic(auto, unfolding(crate::specs::Places::last_variant))]
fn last_variant(
    address: u32,
    function: usize,
    first: Option<Start>,
    rows: &[VariantRow],
) -> Option<Start>
    ensures { result ≡ last_variant address function first rows.now }
{
    let mut best = first;
    for row in rows {
        let start = Start {
            address: row.address,
            owner: Owner::Attributed(function),
        };
        best = later(address, best, start);
    }
    best
}

/// The last start.
#[tactic(auto, unfolding(crate::specs::Places::last_of_variants))]
fn last_start(image: &Image, address: u32) -> Option<Start>
    ensures { result ≡ last_start image.now address }
{
    let rows = image.functions().as_slice();
    let mut variants = image.variants().as_slice();
    let mut number = 0;
    let mut best = last_target(image, address);
    for row in rows {
        let own = front(variants, row.variants as usize);
        best = last_variant(address, number, best, own);
        variants = behind(variants, row.variants as usize);
        number += 1;
    }
    best
}

/// The name of an owner.
fn owner_name(image: &Image, owner: Owner) -> &[u8]
    ensures { result.now ≡ owner_name image.now owner }
{
    match owner {
        Owner::Target(target) => target_name(image, target),
        Owner::Attributed(function) => function_name(image, function),
    }
}

/// The name of the function in whose code an address stands, where the image has targets; none before all code.
pub fn place_name(image: &Image, address: u32) -> Option<&[u8]>
    ensures { option_copied result ≡ place_name image.now address }
{
    if image.targets().as_slice().is_empty() {
        return None;
    }
    match last_start(image, address) {
        Some(start) => Some(owner_name(image, start.owner)),
        None => None,
    }
}

/// The same, or else the address.
pub fn place(alloc: Global, image: &Image, address: u32) -> Result<Vec<u8>, AllocError>
    ensures { IfOk result (λ text. text.items ≡ place_text image.now address) }
{
    let mut out = Vec::new(alloc);
    match place_name(image, address) {
        Some(name) => out.extend_from_slice(name)?,
        None => push_address(alloc, &mut out, address)?,
    }
    Ok(out)
}
