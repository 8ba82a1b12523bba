//! The words of text that change between two bindings.

ghost use Rattle.std.specs.Prelude.{◌≡◌, ◌++◌, ◌+◌, ◌*◌, ◌≤◌, ◌<◌, length, slice_index, vec_capacity};
ghost use Rattle.mv_image.specs.Faults.{Rules};
ghost use Rattle.mv_image.specs.Patched.{text_of};
ghost use Rattle.mv_patch.specs.Orders.{binding_count, values_of};
ghost use Rattle.mv_patch.specs.Shown.{AreShown, Shows};
ghost use Rattle.mv_patch.specs.Pairs.{pairs_between};
ghost use Rattle.mv_patch.specs.Tables.{patchable, entries, site_words, point_words, change, change_at, changes_at, is_entry_next, is_point_next, IsPassed, count_passed, places_left};

use crate::bindings::bound_target;
use crate::prepared::Pair;
use crate::standing::{after_site, at_entry, at_point, at_site, point_at, site_at, text_word};
use mv_bindings::binding::Binding;
use mv_descriptors::VariantRow;
use mv_image::Image;
use mv_image::facts::{fits_format, within_limits};

/// What shows in text while some bindings hold: the bindings, and the variants that they lead functions to.
#[derive(Clone, Copy)]
pub(crate) struct Showing<'a> {
    pub(crate) bound: &'a [Binding],
    pub(crate) variants: &'a [Option<VariantRow>],
}

/// Puts a pair at the end where a word changes.
fn push_change(pairs: &mut Vec<Pair>, address: u32, old: u32, new: u32)
    requires { length pairs.old.items < vec_capacity pairs.old }
    ensures items { pairs.new.items ≡ pairs.old.items ++ change address old new }
    ensures few { length pairs.new.items ≤ length pairs.old.items + 1 }
    ensures room { vec_capacity pairs.old ≤ vec_capacity pairs.new }
{
    if old != new {
        let pair = Pair { address, word: new };
        pairs.push(pair).unwrap();
    }
}

/// The address of a word of a site, of which each has two.
fn site_word(image: &Image, word: usize) -> u32
    requires { word < 2 * length image.now.sites }
    ensures { result ≡ slice_index (site_words image.now.sites) word }
{
    let site = site_at(image, word / 2);
    if word % 2 == 0 {
        site.address
    } else {
        site.address + 4
    }
}

/// The address of a word of a pointer site, of which each has four.
fn point_word(image: &Image, word: usize) -> u32
    requires { word < 4 * length image.now.points }
    ensures { result ≡ slice_index (point_words image.now.points) word }
{
    point_at(image, word / 4).address + 4 * (word % 4) as u32
}

/// How many entries, words of sites and words of pointer sites have been passed.
#[derive(Clone, Copy)]
struct Passed {
    entries: usize,
    sites: usize,
    points: usize,
}

/// Whether an entry comes next, rather than a word of a site.
fn is_entry_next(image: &Image, passed: Passed) -> bool
    ensures { result ≡ is_entry_next image.now passed.entries passed.sites }
{
    within_limits(image);
    if passed.entries >= image.functions().len() {
        return false;
    }
    if passed.sites >= 2 * image.sites().len() {
        return true;
    }
    image.functions().as_slice()[passed.entries].entry < site_word(image, passed.sites)
}

/// Whether a word of a pointer site comes next.
fn is_point_next(image: &Image, passed: Passed) -> bool
    ensures { result ≡ is_point_next image.now passed.entries passed.sites passed.points }
{
    within_limits(image);
    if passed.points >= 4 * image.points().len() {
        return false;
    }
    let address = point_word(image, passed.points);
    if passed.entries < image.functions().len()
        && image.functions().as_slice()[passed.entries].entry < address
    {
        return false;
    }
    passed.sites >= 2 * image.sites().len() || address <= site_word(image, passed.sites)
}

/// Puts the pair of an entry at the end where its word changes.
fn push_entry(
    image: &Image,
    before: Showing<'_>,
    after: Showing<'_>,
    function: usize,
    pairs: &mut Vec<Pair>,
)
    requires function { function < length image.now.functions }
    requires before { Shows image.now before }
    requires after { Shows image.now after }
    requires room { length pairs.old.items < vec_capacity pairs.old }
    ensures items { Rules image.now → pairs.new.items ≡ pairs.old.items ++ change_at image.now (values_of before.entry.bound.now) (values_of after.entry.bound.now) (slice_index (entries image.now) function) }
    ensures few { length pairs.new.items ≤ length pairs.old.items + 1 }
    ensures room { vec_capacity pairs.old ≤ vec_capacity pairs.new }
{
    let address = image.functions().as_slice()[function].entry;
    let word = text_word(image, address);
    let old = at_entry(address, word, before.variants[function]);
    let new = at_entry(address, word, after.variants[function]);
    push_change(pairs, address, old, new);
}

/// Puts the pair of a word of a site at the end where it changes.
fn push_site_word(
    image: &Image,
    before: Showing<'_>,
    after: Showing<'_>,
    word: usize,
    pairs: &mut Vec<Pair>,
)
    requires word { word < 2 * length image.now.sites }
    requires before { Shows image.now before }
    requires after { Shows image.now after }
    requires room { length pairs.old.items < vec_capacity pairs.old }
    ensures items { Rules image.now → pairs.new.items ≡ pairs.old.items ++ change_at image.now (values_of before.entry.bound.now) (values_of after.entry.bound.now) (slice_index (site_words image.now.sites) word) }
    ensures few { length pairs.new.items ≤ length pairs.old.items + 1 }
    ensures room { vec_capacity pairs.old ≤ vec_capacity pairs.new }
{
    let site = site_at(image, word / 2);
    let function = site.function as usize;
    let old = before.variants[function];
    let new = after.variants[function];
    if word % 2 == 0 {
        let address = site.address;
        let word = text_word(image, address);
        push_change(
            pairs,
            address,
            at_site(address, word, old),
            at_site(address, word, new),
        );
    } else {
        let address = site.address + 4;
        let word = text_word(image, address);
        push_change(
            pairs,
            address,
            after_site(address, word, old),
            after_site(address, word, new),
        );
    }
}

/// Puts the pair of a word of a pointer site at the end where it changes.
fn push_point_word(
    image: &Image,
    before: Showing<'_>,
    after: Showing<'_>,
    word: usize,
    pairs: &mut Vec<Pair>,
)
    requires word { word < 4 * length image.now.points }
    requires before { Shows image.now before }
    requires after { Shows image.now after }
    requires room { length pairs.old.items < vec_capacity pairs.old }
    ensures items { Rules image.now → pairs.new.items ≡ pairs.old.items ++ change_at image.now (values_of before.entry.bound.now) (values_of after.entry.bound.now) (slice_index (point_words image.now.points) word) }
    ensures few { length pairs.new.items ≤ length pairs.old.items + 1 }
    ensures room { vec_capacity pairs.old ≤ vec_capacity pairs.new }
{
    within_limits(image);
    fits_format(image);
    let point = point_at(image, word / 4);
    let number = image.functions().len() + point.pointer as usize;
    let old = bound_target(image, &before.bound[number]);
    let new = bound_target(image, &after.bound[number]);
    let check = image.check();
    let place = word % 4;
    let address = point.address + 4 * place as u32;
    let word = text_word(image, address);
    push_change(
        pairs,
        address,
        at_point(check, point.address, place, word, old),
        at_point(check, point.address, place, word, new),
    );
}

/// Puts the pair of what comes next at the end where its word changes, and gives what is passed then.
fn push_next(
    image: &Image,
    before: Showing<'_>,
    after: Showing<'_>,
    passed: Passed,
    pairs: &mut Vec<Pair>,
) -> Passed
    requires passed { IsPassed image.now passed }
    requires more { count_passed passed < patchable image.now }
    requires before { Shows image.now before }
    requires after { Shows image.now after }
    requires room { length pairs.old.items < vec_capacity pairs.old }
    ensures passed { IsPassed image.now result }
    ensures count { count_passed result ≡ count_passed passed + 1 }
    ensures items { Rules image.now → pairs.new.items ++ changes_at image.now (values_of before.entry.bound.now) (values_of after.entry.bound.now) (places_left image.now result)
        ≡ pairs.old.items ++ changes_at image.now (values_of before.entry.bound.now) (values_of after.entry.bound.now) (places_left image.now passed) }
    ensures few { length pairs.new.items ≤ length pairs.old.items + 1 }
    ensures room { vec_capacity pairs.old ≤ vec_capacity pairs.new }
{
    within_limits(image);
    if is_point_next(image, passed) {
        push_point_word(image, before, after, passed.points, pairs);
        return Passed {
            points: passed.points + 1,
            ..passed
        };
    }
    if is_entry_next(image, passed) {
        push_entry(image, before, after, passed.entries, pairs);
        return Passed {
            entries: passed.entries + 1,
            ..passed
        };
    }
    push_site_word(image, before, after, passed.sites, pairs);
    Passed {
        sites: passed.sites + 1,
        ..passed
    }
}

/// Finds the pairs of the words that change, given what shows before and behind an order. It goes through the entries, the sites and
/// the pointer sites together, in ascending order.
pub(crate) fn find_changes(
    image: &Image,
    before: Showing<'_>,
    after: Showing<'_>,
    pairs: &mut Vec<Pair>,
)
    requires before { Shows image.now before }
    requires after { Shows image.now after }
    requires room { patchable image.now ≤ vec_capacity pairs.old }
    ensures items { Rules image.now → pairs.new.items ≡ pairs_between (text_of image.now (values_of before.entry.bound.now)) (text_of image.now (values_of after.entry.bound.now)) }
    ensures room { vec_capacity pairs.old ≤ vec_capacity pairs.new }
{
    within_limits(image);
    pairs.clear();
    let mut passed = Passed {
        entries: 0,
        sites: 0,
        points: 0,
    };
    for _place in 0..image.functions().len() + 2 * image.sites().len() + 4 * image.points().len() {
        passed = push_next(image, before, after, passed, pairs);
    }
}
