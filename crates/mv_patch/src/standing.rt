//! What stands at the places of text at which bindings show.

ghost use Rattle.std.specs.Prelude.{◌≡◌, ◌+◌, ◌<◌, ◌^◌, ℕ, length, slice_get, slice_index, None, Some};
ghost use Rattle.mv_image.specs.Jumps.{jump, bound_words};
ghost use Rattle.mv_image.specs.Patched.{at_entry, at_site, after_site};
ghost use Rattle.mv_patch.specs.Tables.{word_of};

use mv_descriptors::{PointRow, SiteRow, VariantRow};
use mv_image::Image;
use mv_image::facts::{rows_fit, within_limits};
use mv_num::regions::TEXT_START;

/// `addi x0, x0, 0`
const NOP: u32 = 19;

/// The word of the image at an address.
pub fn text_word(image: &Image, address: u32) -> u32
    ensures { result ≡ word_of image.now.text address }
{
    let index = address.saturating_sub(TEXT_START) / 4;
    image.text().get(index as usize).copied().unwrap_or(0)
}

/// The word of `jal` with a register from one address to another.
#[tactic(auto, unfolding(mv_image::specs::Jumps::jump))]
fn jal(register: u32, from: u32, to: u32) -> u32
    requires { register < 8 }
    ensures { result ≡ jump register from to }
{
    let distance = (u64::from(to) + 0x20_0000).saturating_sub(u64::from(from)) % 0x20_0000;
    let d = distance as u32;
    d / 0x10_0000 % 2 * 0x8000_0000
        + d / 2 % 1024 * 0x20_0000
        + d / 2048 % 2 * 0x10_0000
        + d / 4096 % 256 * 4096
        + register * 128
        + 111
}

/// What stands at an entry.
pub fn at_entry(address: u32, word: u32, variant: Option<VariantRow>) -> u32
    ensures { result ≡ at_entry address word variant }
{
    match variant {
        None => word,
        Some(variant) => jal(0, address, variant.address),
    }
}

/// What stands at the first word of a site.
pub fn at_site(address: u32, word: u32, variant: Option<VariantRow>) -> u32
    ensures { result ≡ at_site address word variant }
{
    match variant {
        None => word,
        Some(variant) => {
            if variant.inlined == 1 {
                variant.words[0]
            } else {
                jal(1, address, variant.address)
            }
        }
    }
}

/// What stands at its second word.
pub fn after_site(address: u32, word: u32, variant: Option<VariantRow>) -> u32
    ensures { result ≡ after_site address word variant }
{
    match variant {
        None => word,
        Some(variant) => if variant.inlined == 1 {
            variant.words[1]
        } else {
            NOP
        },
    }
}

/// What stands at one of the four words of a pointer site, given the entry of the target.
#[tactic(auto, unfolding(mv_image::specs::Jumps::bound_words))]
pub fn at_point(check: u32, at: u32, place: usize, word: u32, target: Option<u32>) -> u32
    requires place { place < 4 }
    requires check { check + 8 < 2 ^ 32 }
    requires at { at + 12 < 2 ^ 32 }
    ensures none { target ≡ None → result ≡ word }
    ensures some { (entry : ℕ) → target ≡ Some entry → result ≡ slice_index (bound_words check at entry) place }
{
    let Some(entry) = target else {
        return word;
    };
    match place {
        0 => jal(6, at, check + 8),
        3 => jal(1, at + 12, entry),
        _ => NOP,
    }
}

/// The row of a site.
pub fn site_at(image: &Image, site: usize) -> SiteRow
    requires { site < length image.now.sites }
    ensures there { slice_get image.now.sites site ≡ Some result }
    ensures function { result.function < length image.now.functions }
    ensures address { result.address + 4 < 2 ^ 32 }
{
    within_limits(image);
    rows_fit(image);
    image.sites().as_slice()[site]
}

/// The row of a pointer site.
pub fn point_at(image: &Image, point: usize) -> PointRow
    requires { point < length image.now.points }
    ensures there { slice_get image.now.points point ≡ Some result }
    ensures pointer { result.pointer < length image.now.pointers }
    ensures address { result.address + 12 < 2 ^ 32 }
{
    within_limits(image);
    rows_fit(image);
    image.points().as_slice()[point]
}
