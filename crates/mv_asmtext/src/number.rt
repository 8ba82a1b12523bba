//! Numbers: decimal ones without leading zeros, with a sign where negative, and hexadecimal ones of up to eight digits.

ghost use Rattle.std.specs.Prelude.{◌≡◌, ◌<◌, ◌≤◌, ◌^◌};
ghost use Rattle.mv_asmtext.specs.Numbers.{digit, value_from, are_digits, is_decimal, hexadecimal, negative, decimal, number_of, signed, number_from, distance};

/// A number with its sign. The sign of 0 is positive.
#[derive(Clone, Copy)]
pub struct Number {
    pub negative: bool,
    pub magnitude: u64,
}

/// More than each field holds; it stands for all greater numbers.
const BEYOND: u64 = 0x1_0000_0000;

/// The value of a digit, and 16 for each other byte.
fn digit(byte: u8) -> u64
    ensures value { result ≡ digit byte }
    ensures small { result ≤ 16 }
{
    match byte {
        b'0'..=b'9' => u64::from(byte - b'0'),
        b'a'..=b'f' => u64::from(byte - b'a') + 10,
        b'A'..=b'F' => u64::from(byte - b'A') + 10,
        _ => 16,
    }
}

/// The number that digits write, and 2^32 for each from there on.
fn value(base: u64, digits: &[u8]) -> u64
    requires { base ≤ 16 }
    ensures { result ≡ value_from base 0 digits.now }
{
    let mut value = 0;
    for byte in digits {
        value = (value * base + digit(*byte)).min(BEYOND);
    }
    value
}

/// Whether all bytes are digits of the base.
fn are_digits(base: u64, digits: &[u8]) -> bool
    ensures { result ≡ are_digits base digits.now }
{
    digits.iter().all(|byte| digit(*byte) < base)
}

/// Whether these are decimal digits without a leading zero.
fn is_decimal(digits: &[u8]) -> bool
    ensures { result ≡ is_decimal digits.now }
{
    match digits {
        [] => false,
        [b'0', more @ ..] => more.is_empty(),
        _ => are_digits(10, digits),
    }
}

/// The number of the digits behind `0x`.
fn hexadecimal(digits: &[u8]) -> Option<Number>
    ensures { result ≡ hexadecimal digits.now }
{
    if !digits.is_empty() && digits.len() <= 8 && are_digits(16, digits) {
        Some(Number {
            negative: false,
            magnitude: value(16, digits),
        })
    } else {
        None
    }
}

/// The number of the digits behind a sign.
fn negative(digits: &[u8]) -> Option<Number>
    ensures { result ≡ negative digits.now }
{
    if is_decimal(digits) && digits != b"0".as_slice() {
        Some(Number {
            negative: true,
            magnitude: value(10, digits),
        })
    } else {
        None
    }
}

/// The number of digits with no sign.
fn decimal(digits: &[u8]) -> Option<Number>
    ensures { result ≡ decimal digits.now }
{
    if is_decimal(digits) {
        Some(Number {
            negative: false,
            magnitude: value(10, digits),
        })
    } else {
        None
    }
}

/// The number that a word spells, if it spells one.
#[tactic(auto, unfolding(crate::specs::Numbers::number_of))]
pub fn number_of(word: &[u8]) -> Option<Number>
    ensures { result ≡ number_of word.now }
{
    match word {
        [b'0', b'x', digits @ ..] => hexadecimal(digits),
        [b'-', digits @ ..] => negative(digits),
        _ => decimal(word),
    }
}

impl Number {
    /// The number as an immediate.
    #[tactic(auto, unfolding(crate::specs::Numbers::signed))]
    pub fn signed(self) -> i32
        requires { self.magnitude ≤ 2 ^ 20 }
        ensures { result ≡ signed self }
    {
        let magnitude = self.magnitude as i32;
        if self.negative { -magnitude } else { magnitude }
    }

    /// An immediate as a number.
    #[tactic(auto, unfolding(crate::specs::Numbers::number_from))]
    pub fn new(imm: i32) -> Number
        ensures { result ≡ number_from imm }
    {
        Number {
            negative: imm < 0,
            magnitude: u64::from(imm.unsigned_abs()),
        }
    }

    /// How far one address is above another.
    pub fn distance(at: u32, to: u32) -> Number
        ensures { result ≡ distance at to }
    {
        if to < at {
            Number {
                negative: true,
                magnitude: u64::from(at - to),
            }
        } else {
            Number {
                negative: false,
                magnitude: u64::from(to - at),
            }
        }
    }
}
