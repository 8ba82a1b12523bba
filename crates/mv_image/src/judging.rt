//! The first place at which bytes are no image.

ghost use Rattle.std.specs.Prelude.{◌≡◌, ◌≤◌, ◌<◌, ◌+◌, ◌*◌, ◌^◌, ℕ, true, false, length, IfSome, IfNone};
ghost use Rattle.mv_num.specs.Bytes.{words_of};
ghost use Rattle.mv_image.specs.Places.{words_end, name_bytes};
ghost use Rattle.mv_image.specs.Rules.{word_fits, name_fits};
ghost use Rattle.mv_image.specs.Spelling.{filled};
ghost use Rattle.mv_image.specs.Faults.{FirstFault, Spelled};

use crate::fault::ImageError;
use crate::header::NAMES;
use crate::places::{first_cursor, first_owners, word, words_end};
use crate::rules::{name_fits, word_fits};

/// The first of some words that breaks its rule.
fn first_bad_word(words: &[u32], count: usize) -> Option<usize>
    requires { count < 2 ^ 48 }
    ensures none { IfNone result ((i : ℕ) → i < count → word_fits words.now i ≡ true) }
    ensures within { IfSome result (λ i. i < count) }
    ensures breaks { IfSome result (λ i. word_fits words.now i ≡ false) }
    ensures before { IfSome result (λ i. (k : ℕ) → k < i → word_fits words.now k ≡ true) }
{
    let mut owners = first_owners(words);
    for i in 0..count {
        if !word_fits(words, &mut owners, i) {
            return Some(i);
        }
    }
    None
}

/// The first of some bytes of the names that breaks its rule.
fn first_bad_name(words: &[u32], bytes: &[u8], count: usize) -> Option<usize>
    requires { 4 * words_end words.now + count ≤ length bytes.now }
    ensures none { IfNone result ((j : ℕ) → j < count → name_fits words.now bytes.now j ≡ true) }
    ensures within { IfSome result (λ j. j < count) }
    ensures breaks { IfSome result (λ j. name_fits words.now bytes.now j ≡ false) }
    ensures before { IfSome result (λ j. (k : ℕ) → k < j → name_fits words.now bytes.now k ≡ true) }
{
    let mut name = first_cursor();
    for j in 0..count {
        if !name_fits(words, bytes, &mut name, j) {
            return Some(j);
        }
    }
    None
}

/// The first fault of some bytes, whose words are given.
pub(crate) fn first_fault(words: &[u32], bytes: &[u8]) -> Option<ImageError>
    requires { words.now ≡ words_of bytes.now }
    ensures none { IfNone result (Spelled bytes.now) }
    ensures some { IfSome result (λ fault. FirstFault bytes.now fault) }
{
    let end = words_end(words);
    let there = words.len().min(end);
    if let Some(i) = first_bad_word(words, there) {
        return Some(ImageError::BadField(4 * i as u64));
    }
    if words.len() < end {
        return Some(ImageError::Truncated(4 * words.len() as u64));
    }
    let base = 4 * end;
    let names = (word(words, NAMES) as usize + 3) / 4 * 4;
    let there = (bytes.len() - base).min(names);
    if let Some(j) = first_bad_name(words, bytes, there) {
        return Some(ImageError::BadField((base + j) as u64));
    }
    if bytes.len() < base + names {
        return Some(ImageError::Truncated(bytes.len() as u64));
    }
    if base + names < bytes.len() {
        return Some(ImageError::Trailing((base + names) as u64));
    }
    None
}
