//! The lexemes of a line.

ghost use Rattle.std.specs.Prelude.{◌≡◌, ◌<◌, ◌≤◌, ◌∷◌, false, [], length, slice_index, MatchOption};
ghost use Rattle.std.specs.List.{prefix_len, list_all};
ghost use Rattle.mv_asmtext.specs.Lexemes.{is_blank, is_letter, is_name_byte, is_word_byte, is_name, lexemes, lexeme_of};

/// A lexeme: a word, the longest at its place, or another byte.
#[derive(Clone, Copy)]
pub enum Token<'a> {
    Word(&'a [u8]),
    Mark(u8),
}

/// Whether a byte is a space or a tab.
#[tactic(auto, unfolding(crate::specs::Lexemes::is_blank))]
fn is_blank(byte: u8) -> bool
    ensures { result ≡ is_blank byte }
{
    byte == b' ' || byte == b'\t'
}

/// Whether a byte is a letter or an underscore.
fn is_letter(byte: u8) -> bool
    ensures { result ≡ is_letter byte }
{
    byte.is_ascii_alphabetic() || byte == b'_'
}

/// Whether a byte may stand in a name: a letter, a digit or an underscore.
#[tactic(auto, unfolding(crate::specs::Lexemes::is_name_byte))]
fn is_name_byte(byte: u8) -> bool
    ensures { result ≡ is_name_byte byte }
{
    is_letter(byte) || byte.is_ascii_digit()
}

/// Whether a byte may stand in a word: one of a name, a point or a sign.
#[tactic(auto, unfolding(crate::specs::Lexemes::is_word_byte))]
fn is_word_byte(byte: u8) -> bool
    ensures { result ≡ is_word_byte byte }
{
    is_name_byte(byte) || byte == b'.' || byte == b'-'
}

/// Whether all bytes may stand in a name.
fn are_name_bytes(bytes: &[u8]) -> bool
    ensures { result ≡ list_all is_name_byte bytes.now }
{
    bytes.iter().all(|byte| is_name_byte(*byte))
}

/// Whether a word is a name, as a label has one: it begins with a letter or an underscore.
pub fn is_name(word: &[u8]) -> bool
    ensures { result ≡ is_name word.now }
{
    match word {
        [first, more @ ..] => is_letter(*first) && are_name_bytes(more),
        [] => false,
    }
}

/// What follows the blanks in front.
#[tactic(auto, using(crate::proofs::Lexing::blank_turn))]
fn behind_blanks(line: &[u8]) -> &[u8]
    ensures same { lexemes result.now ≡ lexemes line.now }
    ensures front { 0 < length result.now → is_blank (slice_index result.now 0) ≡ false }
{
    let mut at = 0;
    while at < line.len() && is_blank(line[at]) {
        at += 1;
    }
    &line[at..]
}

/// The length of the word in front.
fn word_length(line: &[u8]) -> usize
    ensures value { result ≡ prefix_len is_word_byte line.now }
    ensures in_range { result ≤ length line.now }
{
    let mut at = 0;
    while at < line.len() && is_word_byte(line[at]) {
        at += 1;
    }
    at
}

/// The first lexeme, and what follows it. A comment and blanks are none.
#[tactic(auto, using(crate::proofs::Lexing::none_turn, crate::proofs::Lexing::comment_turn, crate::proofs::Lexing::word_turn, crate::proofs::Lexing::mark_turn))]
pub fn next(line: &[u8]) -> Option<(Token<'_>, &[u8])>
    ensures { MatchOption result (lexemes line.now ≡ []) (λ found. lexemes line.now ≡ lexeme_of found.0 ∷ lexemes found.1.now) }
{
    let front = behind_blanks(line);
    if front.is_empty() || front[0] == b'#' {
        return None;
    }
    let first = front[0];
    if is_word_byte(first) {
        let (word, behind) = front.split_at(word_length(front));
        Some((Token::Word(word), behind))
    } else {
        let (_, behind) = front.split_at(1);
        Some((Token::Mark(first), behind))
    }
}
