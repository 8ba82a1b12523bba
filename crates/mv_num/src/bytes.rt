//! Words of 32 bits as bytes, the lowest byte of a word first.
ghost use Rattle.std.specs.Prelude.{◌≡◌, ◌%◌, ◌<◌, ◌^◌, ℕ, List, length, slice_index, IfOk, All};
ghost use Rattle.mv_num.specs.Bytes.{words_of, bytes_of, AreBytes, AreWords};

use crate::list::List;
use byteorder::{ByteOrder, LittleEndian};
use std::alloc::{AllocError, Global};

/// The words of some bytes, four bytes a word.
pub fn words_of_bytes(alloc: Global, bytes: &[u8]) -> Result<List<u32>, AllocError>
    requires { length bytes.now % 4 ≡ 0 }
    ensures { IfOk result (λ words. words ≡ words_of bytes.now) }
{
    let mut words = List::new(alloc);
    for i in 0..bytes.len() / 4 {
        words.push(LittleEndian::read_u32(&bytes[4 * i..4 * i + 4]))?;
    }
    Ok(words)
}

/// The bytes of some words, four bytes a word.
pub fn bytes_of_words(alloc: Global, words: &List<u32>) -> Result<Vec<u8>, AllocError>
    ensures { IfOk result (λ bytes. bytes.items ≡ bytes_of words.now) }
{
    let mut bytes = Vec::new(alloc);
    for word in words.as_slice() {
        let mut cells = [0; 4];
        LittleEndian::write_u32(&mut cells, *word);
        bytes.extend_from_slice(&cells)?;
    }
    Ok(bytes)
}

/// `words_of_bytes` and `bytes_of_words` undo each other. The call does nothing: its contract is the law.
pub fn bytes_and_words()
    ensures bytes { (bytes : List ℕ) → AreBytes bytes → length bytes % 4 ≡ 0 → bytes_of (words_of bytes) ≡ bytes }
    ensures words { (words : List ℕ) → AreWords words → words_of (bytes_of words) ≡ words }
{}
