//! The order of a kind's values, and which words are such values.

ghost use Rattle.std.specs.Prelude.{◌≡◌};
ghost use Rattle.mv_num.specs.Kinds.{is_value, rank, is_at_most};

/// Whether a word is a value of the kind with this number, where a value of a signed kind is
/// sign-extended. Every word is a value of a number above 4.
pub fn is_value(kind: u32, word: u32) -> bool
    ensures { result ≡ is_value kind word }
{
    match kind {
        0 => word < 2,
        1 => word < 128 || 0xFFFF_FF80 <= word,
        2 => word < 256,
        3 => word < 32768 || 0xFFFF_8000 <= word,
        4 => word < 65536,
        _ => true,
    }
}

/// A number that grows with the value of the word.
fn rank(kind: u32, word: u32) -> u32
    ensures { result ≡ rank kind word }
{
    if kind == 1 || kind == 3 || kind == 5 {
        if word < 0x8000_0000 {
            word + 0x8000_0000
        } else {
            word - 0x8000_0000
        }
    } else {
        word
    }
}

/// Whether a value isn't above another, as values of the kind with this number.
pub fn is_at_most(kind: u32, a: u32, b: u32) -> bool
    ensures { result ≡ is_at_most kind a b }
{
    rank(kind, a) <= rank(kind, b)
}
