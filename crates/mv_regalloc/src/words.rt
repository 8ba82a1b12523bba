// Bits in words: that of a temporary is in the word at a 64th of its number.

ghost use Rattle.std.specs.Prelude.{ℕ, ◌≡◌, ◌<◌, ◌/◌, ◌%◌, ◌&&◌, true, false, cond, eqb, not, slice_index};
ghost use Rattle.mv_regalloc.specs.LiveBits.{in_word};

/// The word at a place.
pub fn word_at(words: &[u64], place: usize) -> u64
    ensures { result ≡ slice_index words.now place }
{
    match words.get(place) {
        Some(word) => *word,
        None => 0,
    }
}

/// The word with the bit of a temporary set or cleared.
pub fn put(word: u64, temp: u32, bit: bool) -> u64
    ensures { (t : ℕ) → t / 64 ≡ temp / 64 → in_word result t ≡ cond (eqb temp t) bit (in_word word t) }
{
    let mask = 1 << (temp % 64);
    if bit { word | mask } else { word & !mask }
}

/// Whether the bit of a temporary is set in a word.
pub fn is_set(word: u64, temp: u32) -> bool
    ensures { result ≡ in_word word temp }
{
    word >> (temp % 64) & 1 == 1
}

/// The place in a word of the lowest bit that is set.
pub fn lowest(word: u64) -> u32
    requires { 0 < word }
    ensures place { result < 64 }
    ensures set { (t : ℕ) → t % 64 ≡ result → in_word word t ≡ true }
{
    word.trailing_zeros()
}

/// The word without a bit that is set.
pub fn without(word: u64, bit: u32) -> u64
    requires place { bit < 64 }
    requires set { in_word word bit ≡ true }
    ensures bits { (t : ℕ) → in_word result t ≡ cond (eqb (t % 64) bit) false (in_word word t) }
    ensures less { result < word }
{
    word & !(1 << bit)
}

/// The bits of a word that aren't set in another one.
pub fn except(word: u64, other: u64) -> u64
    ensures { (t : ℕ) → in_word result t ≡ (in_word word t && not (in_word other t)) }
{
    word & !other
}
