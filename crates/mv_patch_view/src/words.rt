//! The lines of what stands at an entry or a site.

ghost use Rattle.std.specs.Prelude.{◌≡◌, ◌++◌, ◌+◌, ◌<◌, ◌^◌, codes, length, OnOk, IfOk};
ghost use Rattle.std.specs.Fmt.{decimal};
ghost use Rattle.mv_patch_view.specs.PatchView.{AreStarts, IsAddressed, place_lines, variants_lines, variants_of, word_lines, words_at};

use crate::place::Place;
use mv_asmtext::push_word;
use mv_descriptors::VariantRow;
use mv_image::Image;
use mv_image::facts::{rows_belong, within_limits};
use mv_patch::standing::{after_site, at_entry, at_site, text_word};
use std::alloc::{AllocError, Global};

/// Adds a line for each word, behind the name of the state in which it stands there.
#[tactic(auto, unfolding(crate::specs::PatchView::word_lines))]
pub(crate) fn push_words(out: &mut Vec<u8>, state: &[u8], words: &[u32]) -> Result<(), AllocError>
    ensures { OnOk result (out.new.items ≡ out.old.items ++ word_lines state.now words.now) }
{
    for word in words {
        out.extend_from_slice(b"  ")?;
        out.extend_from_slice(state)?;
        out.extend_from_slice(b": ")?;
        push_word(out, *word)?;
        out.push(b'\n')?;
    }
    Ok(())
}

/// Adds what stands at an entry or a site under a variant, or while its function is free.
fn push_standing(
    out: &mut Vec<u8>,
    image: &Image,
    place: Place,
    state: &[u8],
    shown: Option<VariantRow>,
) -> Result<(), AllocError>
    requires { IsAddressed place }
    ensures { OnOk result (out.new.items ≡ out.old.items ++ word_lines state.now (words_at image.now place shown)) }
{
    match place {
        Place::Entry(address) => {
            let word = at_entry(address, text_word(image, address), shown);
            push_words(out, state, &[word])
        }
        Place::Site(address) => {
            let next = address + 4;
            let first = at_site(address, text_word(image, address), shown);
            let second = after_site(next, text_word(image, next), shown);
            push_words(out, state, &[first, second])
        }
    }
}

/// Adds what stands at an entry or a site under the variant with a number.
fn push_variant(
    alloc: Global,
    out: &mut Vec<u8>,
    image: &Image,
    place: Place,
    number: usize,
    row: &VariantRow,
) -> Result<(), AllocError>
    requires { IsAddressed place }
    ensures { OnOk result (out.new.items ≡ out.old.items ++ word_lines (codes "variant " ++ decimal number) (words_at image.now place (Some row.now))) }
{
    let state = format!(in alloc; "variant {number}")?;
    push_standing(out, image, place, state.as_bytes(), Some(*row))
}

/// Adds what stands at an entry or a site under each of its function's variants.
#[tactic(auto, unfolding(crate::specs::PatchView::variants_lines))]
fn push_variants(
    alloc: Global,
    out: &mut Vec<u8>,
    image: &Image,
    place: Place,
    rows: &[VariantRow],
) -> Result<(), AllocError>
    requires { IsAddressed place }
    ensures { OnOk result (out.new.items ≡ out.old.items ++ variants_lines image.now place 0 rows.now) }
{
    let mut number = 0;
    for row in rows {
        push_variant(alloc, out, image, place, number, row)?;
        number += 1;
    }
    Ok(())
}

/// The variants of the function with a number, given how many the functions before each have.
fn variants_of<'a>(image: &'a Image, starts: &[usize], function: usize) -> &'a [VariantRow]
    requires starts { AreStarts image.now starts.now }
    requires function { function < length image.now.functions }
    ensures { result.now ≡ variants_of image.now function }
{
    within_limits(image);
    rows_belong(image);
    let first = starts[function];
    let end = starts[function + 1];
    &image.variants().as_slice()[first..end]
}

/// Adds what stands at an entry or a site of a function, while it is free and under each of its variants.
pub(crate) fn push_place(
    alloc: Global,
    out: &mut Vec<u8>,
    image: &Image,
    starts: &[usize],
    place: Place,
    function: usize,
) -> Result<(), AllocError>
    requires starts { AreStarts image.now starts.now }
    requires function { function < length image.now.functions }
    requires place { IsAddressed place }
    ensures { OnOk result (out.new.items ≡ out.old.items ++ place_lines image.now place function) }
{
    push_standing(out, image, place, b"free", None)?;
    let rows = variants_of(image, starts, function);
    push_variants(alloc, out, image, place, rows)
}
