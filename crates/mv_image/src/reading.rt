//! The image that bytes spell.

ghost use Rattle.std.specs.Prelude.{◌≡◌, ◌≤◌, ◌<◌, ◌+◌, ◌-◌, ◌*◌, ◌/◌, ◌^◌, ◌++◌, ℕ, All, length, take, drop, map, slice_range, IfOk, IfErr, OnOk, MatchResult};
ghost use Rattle.std.specs.List.{flat_map};
ghost use Rattle.mv_num.specs.Bytes.{words_of};
ghost use Rattle.mv_image.specs.Places.{words_end, name_length, sum_below, first_of, switches_at, functions_at, variants_at, guards_at, sites_at, pointers_at, points_at, targets_at, switch_rows, function_rows, variant_rows, guard_rows, site_rows, pointer_rows, point_rows, target_rows};
ghost use Rattle.mv_descriptors.specs.Widths.{switch_words, function_words, variant_words, guard_words, site_words, pointer_words, point_words, target_words, SwitchWhole, FunctionWhole, VariantWhole, GuardWhole, SwitchClean, FunctionClean, VariantClean};
ghost use Rattle.mv_image.specs.Faults.{AllFit, Spelled, Spells, FirstFault, IsMemory};
ghost use Rattle.mv_image.specs.Tables.{AreTables};
ghost use Rattle.mv_image.specs.Spelling.{Fields, joined};

use crate::fault::ImageError;
use crate::image::Image;
use crate::judging::first_fault;
use crate::places::{
    data_at, functions_at, guards_at, header_words, later_word, name_length, names, pointers_at,
    points_at, sites_at, switches_at, targets_at, variants_at, word, words_end,
};
use mv_descriptors::{
    FunctionRow, GuardRow, PointRow, PointerRow, Row, SiteRow, SwitchRow, TargetRow, VariantRow,
};
use mv_num::bytes::words_of_bytes;
use mv_num::list::List;
use mv_num::text::Text;
use std::alloc::{AllocError, Global};

/// A number of words from a place on.
fn words_part(
    alloc: Global,
    words: &List<u32>,
    at: usize,
    count: usize,
) -> Result<List<u32>, AllocError>
    requires { at + count ≤ length words.now }
    ensures { IfOk result (λ part. part ≡ slice_range words.now at (at + count)) }
{
    let part = &words.as_slice()[at..at + count];
    Ok(List::from_vec(Vec::from_slice(alloc, part)?))
}

/// A number of rows from a place on.
fn rows_part<R: Row + Drop>(
    alloc: Global,
    words: &List<u32>,
    at: usize,
    count: usize,
) -> Result<List<R>, AllocError>
    requires room { at + R.WIDTH * count ≤ length words.now }
    requires rows { (k : ℕ) → k < count → R.is_row (slice_range words.now (at + R.WIDTH * k) (at + R.WIDTH * k + R.WIDTH)) }
    ensures words { IfOk result (λ rows. flat_map R.row_words rows ≡ slice_range words.now at (at + R.WIDTH * count)) }
    ensures count { IfOk result (λ rows. length rows ≡ count) }
    ensures clean { IfOk result (λ rows. All R.is_clean rows) }
    ensures whole { IfOk result (λ rows. All R.is_whole rows) }
{
    let _length = words.len();
    let mut rows = List::new(alloc);
    for k in 0..count {
        match R::read(words, at + R::WIDTH * k) {
            Some(row) => rows.push(row)?,
            None => unreachable!(),
        }
    }
    Ok(rows)
}

/// The names, of which there are so many.
fn names_part(
    alloc: Global,
    words: &[u32],
    bytes: &[u8],
    count: usize,
) -> Result<List<Text>, AllocError>
    requires count { count < 2 ^ 49 }
    requires room { 4 * words_end words.now + sum_below (name_length words.now) count ≤ length bytes.now }
    ensures bytes { IfOk result (λ names. joined names ≡ slice_range bytes.now (4 * words_end words.now) (4 * words_end words.now + sum_below (name_length words.now) count)) }
    ensures lengths { IfOk result (λ names. map length names ≡ first_of (name_length words.now) count) }
{
    let mut names = List::new(alloc);
    let mut at = 4 * words_end(words);
    for name in 0..count {
        let next = at + name_length(words, name) as usize;
        names.push(Text::new(alloc, &bytes[at..next])?)?;
        at = next;
    }
    Ok(names)
}

/// The tables of an image.
#[derive(Drop)]
struct Tables {
    switches: List<SwitchRow>,
    functions: List<FunctionRow>,
    variants: List<VariantRow>,
    guards: List<GuardRow>,
    sites: List<SiteRow>,
    pointers: List<PointerRow>,
    points: List<PointRow>,
    targets: List<TargetRow>,
}

fn switches_part(alloc: Global, words: &List<u32>) -> Result<List<SwitchRow>, AllocError>
    requires fit { AllFit words.now }
    requires room { words_end words.now ≤ length words.now }
    ensures words { IfOk result (λ rows. flat_map switch_words rows ≡ slice_range words.now (switches_at words.now) (functions_at words.now)) }
    ensures count { IfOk result (λ rows. length rows ≡ switch_rows words.now) }
    ensures clean { IfOk result (λ rows. All SwitchClean rows) }
    ensures whole { IfOk result (λ rows. All SwitchWhole rows) }
{
    let slice = words.as_slice();
    let at = switches_at(slice);
    rows_part(alloc, words, at, word(slice, 5) as usize)
}

fn functions_part(alloc: Global, words: &List<u32>) -> Result<List<FunctionRow>, AllocError>
    requires fit { AllFit words.now }
    requires room { words_end words.now ≤ length words.now }
    ensures words { IfOk result (λ rows. flat_map function_words rows ≡ slice_range words.now (functions_at words.now) (variants_at words.now)) }
    ensures count { IfOk result (λ rows. length rows ≡ function_rows words.now) }
    ensures clean { IfOk result (λ rows. All FunctionClean rows) }
    ensures whole { IfOk result (λ rows. All FunctionWhole rows) }
{
    let slice = words.as_slice();
    let at = functions_at(slice);
    rows_part(alloc, words, at, word(slice, 6) as usize)
}

fn variants_part(alloc: Global, words: &List<u32>) -> Result<List<VariantRow>, AllocError>
    requires fit { AllFit words.now }
    requires room { words_end words.now ≤ length words.now }
    ensures words { IfOk result (λ rows. flat_map variant_words rows ≡ slice_range words.now (variants_at words.now) (guards_at words.now)) }
    ensures count { IfOk result (λ rows. length rows ≡ variant_rows words.now) }
    ensures clean { IfOk result (λ rows. All VariantClean rows) }
    ensures whole { IfOk result (λ rows. All VariantWhole rows) }
{
    let slice = words.as_slice();
    let at = variants_at(slice);
    rows_part(alloc, words, at, word(slice, 7) as usize)
}

fn guards_part(alloc: Global, words: &List<u32>) -> Result<List<GuardRow>, AllocError>
    requires { words_end words.now ≤ length words.now }
    ensures words { IfOk result (λ rows. flat_map guard_words rows ≡ slice_range words.now (guards_at words.now) (sites_at words.now)) }
    ensures count { IfOk result (λ rows. length rows ≡ guard_rows words.now) }
    ensures whole { IfOk result (λ rows. All GuardWhole rows) }
{
    let slice = words.as_slice();
    let at = guards_at(slice);
    rows_part(alloc, words, at, word(slice, 8) as usize)
}

fn sites_part(alloc: Global, words: &List<u32>) -> Result<List<SiteRow>, AllocError>
    requires { words_end words.now ≤ length words.now }
    ensures words { IfOk result (λ rows. flat_map site_words rows ≡ slice_range words.now (sites_at words.now) (pointers_at words.now)) }
    ensures count { IfOk result (λ rows. length rows ≡ site_rows words.now) }
{
    let slice = words.as_slice();
    let at = sites_at(slice);
    rows_part(alloc, words, at, word(slice, 9) as usize)
}

fn pointers_part(alloc: Global, words: &List<u32>) -> Result<List<PointerRow>, AllocError>
    requires { words_end words.now ≤ length words.now }
    ensures words { IfOk result (λ rows. flat_map pointer_words rows ≡ slice_range words.now (pointers_at words.now) (points_at words.now)) }
    ensures count { IfOk result (λ rows. length rows ≡ pointer_rows words.now) }
{
    let slice = words.as_slice();
    let at = pointers_at(slice);
    rows_part(alloc, words, at, later_word(slice, 12) as usize)
}

fn points_part(alloc: Global, words: &List<u32>) -> Result<List<PointRow>, AllocError>
    requires { words_end words.now ≤ length words.now }
    ensures words { IfOk result (λ rows. flat_map point_words rows ≡ slice_range words.now (points_at words.now) (targets_at words.now)) }
    ensures count { IfOk result (λ rows. length rows ≡ point_rows words.now) }
{
    let slice = words.as_slice();
    let at = points_at(slice);
    rows_part(alloc, words, at, later_word(slice, 13) as usize)
}

fn targets_part(alloc: Global, words: &List<u32>) -> Result<List<TargetRow>, AllocError>
    requires { words_end words.now ≤ length words.now }
    ensures words { IfOk result (λ rows. flat_map target_words rows ≡ slice_range words.now (targets_at words.now) (words_end words.now)) }
    ensures count { IfOk result (λ rows. length rows ≡ target_rows words.now) }
{
    let slice = words.as_slice();
    let at = targets_at(slice);
    rows_part(alloc, words, at, later_word(slice, 14) as usize)
}

fn tables_part(alloc: Global, words: &List<u32>) -> Result<Tables, AllocError>
    requires fit { AllFit words.now }
    requires room { words_end words.now ≤ length words.now }
    ensures { IfOk result (λ tables. AreTables words.now tables) }
{
    let switches = switches_part(alloc, words)?;
    let functions = functions_part(alloc, words)?;
    let variants = variants_part(alloc, words)?;
    let guards = guards_part(alloc, words)?;
    let sites = sites_part(alloc, words)?;
    let pointers = pointers_part(alloc, words)?;
    let points = points_part(alloc, words)?;
    let targets = targets_part(alloc, words)?;
    Ok(Tables {
        switches,
        functions,
        variants,
        guards,
        sites,
        pointers,
        points,
        targets,
    })
}

/// The image that bytes spell, whose words are given.
fn image_part(alloc: Global, words: &List<u32>, bytes: &[u8]) -> Result<Image, AllocError>
    requires words { words.now ≡ words_of bytes.now }
    requires spelled { Spelled bytes.now }
    ensures { IfOk result (λ image. Spells bytes.now image) }
{
    let slice = words.as_slice();
    let text = words_part(alloc, words, header_words(slice), word(slice, 3) as usize)?;
    let globals = words_part(alloc, words, data_at(slice), word(slice, 4) as usize)?;
    let tables = tables_part(alloc, words)?;
    let names = names_part(alloc, slice, bytes, names(slice))?;
    let version = word(slice, 1);
    let entry = word(slice, 2);
    let check = later_word(slice, 15);
    let Tables {
        switches,
        functions,
        variants,
        guards,
        sites,
        pointers,
        points,
        targets,
    } = tables;
    Ok(Image::new(
        version, entry, text, globals, switches, functions, variants, guards, sites, pointers,
        points, targets, check, names,
    ))
}

fn read_once(alloc: Global, bytes: &[u8]) -> Result<Image, ImageError>
    // What is read is spelled so.
    ensures found { IfOk result (λ image. Spells bytes.now image) }
    // Else it is the first fault, or there was no memory.
    ensures fault { IfErr result (λ fault. FirstFault bytes.now fault) }
{
    let words = words_of_bytes(alloc, &bytes[..bytes.len() / 4 * 4])?;
    if let Some(fault) = first_fault(words.as_slice(), bytes) {
        return Err(fault);
    }
    Ok(image_part(alloc, &words, bytes)?)
}

/// The image that the bytes spell, or the first place at which they spell none.
pub fn read(alloc: Global, bytes: &[u8]) -> Result<Image, ImageError>
    // What is read is spelled so.
    ensures found { IfOk result (λ image. Spells bytes.now image) }
    // What is spelled so is read, unless there is no memory.
    ensures only { (image : Fields) → Spells bytes.now image → MatchResult result (λ read. read ≡ image) IsMemory }
    // Else it is the first fault, or there was no memory.
    ensures fault { IfErr result (λ fault. FirstFault bytes.now fault) }
{
    read_once(alloc, bytes)
}
