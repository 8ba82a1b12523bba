//! Decimal numerals among words.

ghost use Rattle.std.specs.Prelude.{ℕ, ◌≡◌, ◌≢◌, ◌≤◌, ◌*◌, ◌+◌, ◌<◌, ◌^◌, MatchOption};
ghost use Rattle.std.specs.Fmt.{decimal};

/// The number whose decimal numeral the text is: digits alone, without a leading 0 other than `0` itself. None where it is none,
/// or is above `most`.
pub fn number(text: &[u8], most: u64) -> Option<u64>
    requires { most < 2 ^ 59 }
    ensures { MatchOption result ((n : ℕ) → n ≤ most → text.now ≢ decimal n) (λ n. (n ≤ most) × (text.now ≡ decimal n)) }
{
    if text.is_empty() || text[0] == b'0' && text.len() > 1 {
        return None;
    }
    let mut value: u64 = 0;
    for byte in text {
        if !byte.is_ascii_digit() {
            return None;
        }
        value = 10 * value + u64::from(*byte - b'0');
        if value > most {
            return None;
        }
    }
    Some(value)
}
