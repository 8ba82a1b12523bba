//! Integer constants (C11 6.4.4.1), and the other preprocessing numbers.
ghost use Rattle.std.specs.Prelude.{◌≡◌, ◌<◌, ◌≤◌, ◌^◌, ◌↔◌, length, drop, MatchOption, MatchBool, IsTrue, Bool, None, Some, [], ◌∷◌, codes};
ghost use Rattle.std.specs.Char.{digit_value};
ghost use Rattle.std.specs.List.{list_any};
ghost use Rattle.std.specs.Str.Parse.{digits_value};
ghost use Rattle.mv_num.specs.Lists.{is_among};
ghost use Rattle.mv_lexer.specs.Numbers as numbers;
ghost use Rattle.mv_lexer.specs.Reading as spec;
ghost use Rattle.mv_lexer.specs.declared.class.TokenClass.TheVariants as classes;

use crate::error::LexError;
use crate::table::{Table, index_of, size};
use mv_num::kind::Kind;
use mv_syntax::place::Place;
use mv_syntax::token::Piece;

/// The value of a digit or a letter; every other byte has 36.
pub fn digit(byte: u8) -> u8
    ensures { result ≡ digit_value byte }
{
    match byte {
        b'0'..=b'9' => byte - b'0',
        b'A'..=b'Z' => byte - b'A' + 10,
        b'a'..=b'z' => byte - b'a' + 10,
        _ => 36,
    }
}

/// The value of these digits, unless it is above 32 bits.
pub fn value(base: u32, digits: &[u8]) -> Option<u32>
    requires some { 1 ≤ base }
    requires small { base ≤ 16 }
    ensures { MatchOption result (2 ^ 32 ≤ digits_value base digits.now) (λ n. n ≡ digits_value base digits.now) }
{
    let mut value: u32 = 0;
    for byte in digits {
        let next = value as u64 * base as u64 + digit(*byte) as u64;
        if next > u32::MAX as u64 {
            return None;
        }
        value = next as u32;
    }
    Some(value)
}

/// Whether each of these bytes is a digit in the base.
pub fn are_digits(base: u32, digits: &[u8]) -> bool
    ensures { result ≡ numbers.are_digits base digits.now }
{
    digits.iter().all(|byte| (digit(*byte) as u32) < base)
}

/// Whether a byte may stand in a suffix.
fn is_suffix_byte(byte: u8) -> bool
    ensures { result ≡ is_among byte (codes "uUlL") }
{
    byte == b'u' || byte == b'U' || byte == b'l' || byte == b'L'
}

/// Where the integer suffix of a number begins: its length, where it has none.
fn suffix_at(text: &[u8]) -> usize
    ensures value { result ≡ numbers.suffix_at text.now }
    ensures in_range { result ≤ length text.now }
{
    let mut at = 0;
    while at < text.len() && !is_suffix_byte(text[at]) {
        at += 1;
    }
    at
}

/// Whether `0x` or `0X` stands in front.
fn is_hexadecimal(text: &[u8]) -> bool
    ensures { result ≡ numbers.is_hexadecimal text.now }
{
    match text {
        [b'0', second, ..] => *second == b'x' || *second == b'X',
        _ => false,
    }
}

/// The base of a number: 16, 8 or 10.
fn base_of(text: &[u8]) -> u32
    ensures value { result ≡ numbers.base text.now }
    ensures some { 1 ≤ result }
    ensures small { result ≤ 16 }
{
    if is_hexadecimal(text) {
        16
    } else if text.first() == Some(&b'0') {
        8
    } else {
        10
    }
}

/// The suffix of a number.
fn suffix_of(text: &[u8]) -> &[u8]
    ensures { result.now ≡ numbers.suffix text.now }
{
    let (_, suffix) = text.split_at(suffix_at(text));
    suffix
}

/// The digits of a number, without `0x` and the suffix.
fn digits_of(text: &[u8]) -> &[u8]
    ensures { result.now ≡ numbers.digits text.now }
{
    let (front, _) = text.split_at(suffix_at(text));
    if is_hexadecimal(text) {
        let (_, digits) = front.split_at(2);
        digits
    } else {
        front
    }
}

/// Whether one or more digits of the base stand before the suffix.
fn has_digits(text: &[u8]) -> bool
    ensures { MatchBool result (numbers.HasDigits text.now) (numbers.HasDigits text.now → ⊥) }
{
    let digits = digits_of(text);
    !digits.is_empty() && are_digits(base_of(text), digits)
}

/// Whether this suffix makes a constant unsigned. A suffix that no constant of the profile has is
/// `None`.
fn short_suffix(suffix: &[u8]) -> Option<bool>
    ensures { result ≡ numbers.short_suffix suffix.now }
{
    if suffix.is_empty() {
        Some(false)
    } else if suffix == b"u".as_slice() || suffix == b"U".as_slice() {
        Some(true)
    } else {
        None
    }
}

/// The first type of the profile that its base and suffix allow and that holds its value.
fn kind_of(base: u32, unsigned: bool, value: u32) -> Option<Kind>
    ensures { result ≡ numbers.kind_of base unsigned value }
{
    if unsigned {
        Some(Kind::UInt)
    } else if value < 1 << 31 {
        Some(Kind::Int)
    } else if base == 10 {
        None
    } else {
        Some(Kind::UInt)
    }
}

/// The value and the type of a constant, where a type of the profile holds it.
fn constant(text: &[u8], unsigned: bool) -> Option<(u32, Kind)>
    ensures { MatchOption result (numbers.kind_of (numbers.base text.now) unsigned (numbers.value text.now) ≡ None) (λ c. (c.0 ≡ numbers.value text.now) × (numbers.kind_of (numbers.base text.now) unsigned (numbers.value text.now) ≡ Some c.1)) }
{
    let base = base_of(text);
    let value = value(base, digits_of(text))?;
    let kind = kind_of(base, unsigned, value)?;
    Some((value, kind))
}

/// Whether a byte is a point or one of two letters.
fn is_point_or(byte: u8, small: u8, capital: u8) -> bool
    ensures { result ≡ is_among byte (46 ∷ small ∷ capital ∷ []) }
{
    byte == b'.' || byte == small || byte == capital
}

/// Whether a point or one of two letters stands in a number.
fn has_point_or(text: &[u8], small: u8, capital: u8) -> bool
    ensures { result ≡ list_any (λ b. is_among b (46 ∷ small ∷ capital ∷ [])) text.now }
{
    text.iter().any(|byte| is_point_or(*byte, small, capital))
}

/// Whether a number has a point, or the letter of an exponent: `p` where it is hexadecimal, else `e`.
fn is_floating(text: &[u8]) -> bool
    ensures { result ≡ numbers.is_floating text.now }
{
    if is_hexadecimal(text) {
        has_point_or(text, b'p', b'P')
    } else {
        has_point_or(text, b'e', b'E')
    }
}

/// Evaluates a preprocessing number: an integer constant or a refusal.
pub fn evaluate_number(text: &[u8], place: Place) -> Result<Option<Piece>, LexError>
    ensures { spec.GivesEvaluation classes.PreprocessingNumber text.now place result }
{
    if !has_digits(text) {
        return refuse_number(text, place);
    }
    let suffix = suffix_of(text);
    if let Some(unsigned) = short_suffix(suffix) {
        return match constant(text, unsigned) {
            Some((value, kind)) => Ok(Some(Piece::Number(value, kind))),
            None => Err(LexError::Unsupported(place)),
        };
    }
    if index_of(Table::LongSuffixes, suffix) < size(Table::LongSuffixes) {
        return Err(LexError::Unsupported(place));
    }
    refuse_number(text, place)
}

/// The refusal of a number that is no integer constant.
fn refuse_number(text: &[u8], place: Place) -> Result<Option<Piece>, LexError>
    requires no_constant { (unsigned : Bool) → numbers.IsIntegerConstant text.now unsigned → ⊥ }
    requires no_long { numbers.IsLongConstant text.now → ⊥ }
    ensures { spec.GivesEvaluation classes.PreprocessingNumber text.now place result }
{
    if is_floating(text) {
        Err(LexError::Unsupported(place))
    } else {
        Err(LexError::BadToken(place))
    }
}
