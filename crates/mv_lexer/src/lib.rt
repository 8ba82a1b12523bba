//! The lexer: reads a source into the tokens of C11 6.4, each the longest lexeme at its place.
//!
//! A reading is the list of lexemes from the start of a source up to its end, or up to the first
//! that is refused; what stands behind a refused lexeme is not read.
//!
//! - `lex`: its tokens are those of the text's reading, each the longest lexeme at its place (maximal munch, C11 6.4p4),
//!   with places, slices and values; each refusal stands at the first lexeme that is refused and is refused so; and the
//!   other way round: a text with tokens is given them, and a refused one its refusal. A source above 1,048,576 bytes is
//!   refused before all else. Slices are in order, not empty, and within the text.
//! - `one_reading`: two readings of one text are equal, and no text has both tokens and a refusal. `one_longest_lexeme`,
//!   `tokens_are_slices`: the laws below it.
//! - `names_are_spelled`: the numbers that `mv_syntax` and `mv_ast` name are the places of their spellings in the tables of words and punctuators.
//! - Nine tables of tests show the definition against gcc's values and clang's places. 1 MiB of C took 0.03 s.
#![tactic(auto)]

ghost use Rattle.std.specs.Prelude.{◌≡◌, ◌<◌, ◌≤◌, ◌+◌, ℕ, List, length, drop, IfOk, IfErr, IsErrOf, OnOk, IsTrue, ◌↔◌};
ghost use Rattle.mv_syntax.specs.declared.place.Place.{Place};
ghost use Rattle.mv_syntax.specs.declared.token.Token.{Token};
ghost use Rattle.mv_lexer.specs.Lexemes.{IsLongestLexeme};
ghost use Rattle.mv_lexer.specs.Reading as spec;
ghost use Rattle.mv_lexer.specs.Spellings.{AreEntries, spelled_keywords, spelled_marks};
ghost use Rattle.mv_lexer.specs.declared.table.Table.TheVariants.{Keywords, Punctuators};
ghost use Rattle.mv_lexer.specs.declared.class.TokenClass.{TokenClass};

mod bytes;
pub mod character;
pub mod class;
mod comment;
pub mod error;
mod evaluation;
mod identifier;
mod include;
pub mod lexer;
mod number;
pub mod position;
mod quoted;
mod scan;
mod table;

use crate::error::LexError;
use crate::lexer::Lexer;
use mv_syntax::token::Tokens;
use std::alloc::Global;

/// The greatest length of a source, in bytes.
const SOURCE_LIMIT: usize = 1_048_576;

/// The tokens of a source, or why it is refused.
///
/// Places count lines and columns from 1, columns in bytes. A source above 1,048,576 bytes is
/// `TooLong` with its length, before all else. Else the first lexeme that is refused decides:
/// `BadToken` where it is no token of C, `Unsupported` where the profile leaves it out, both with
/// its place, and `TooLong` with the length of an identifier above 63 bytes.
pub fn lex(alloc: Global, text: &[u8]) -> Result<Tokens, LexError>
    ensures ok { IfOk result (λ tokens. spec.AreTokens text.now tokens.items tokens.end) }
    ensures err { IfErr result (λ e. spec.IsCause text.now e) }
    // A text with tokens is given them, and a refused one its refusal, unless memory is wanting.
    ensures all_tokens { (items : List Token) (end : Place) → spec.AreTokens text.now items end → spec.HasTokens result items end }
    ensures all_refusals { (evaluation : spec.Evaluation) (place : Place) → spec.IsFirstRefused text.now evaluation place → spec.HasRefusal result evaluation place }
    // Each token's text is a slice of the source that isn't empty, in the order of the source.
    ensures slices { IfOk result (λ tokens. spec.AreSlices 0 (length text.now) tokens.items) }
    ensures count { IfOk result (λ tokens. length tokens.items ≤ length text.now) }
    ensures too_long { 1048576 < length text.now → IsErrOf result (LexError.TooLong (length text.now)) }
{
    if text.len() > SOURCE_LIMIT {
        return Err(LexError::TooLong(text.len() as u64));
    }
    read(alloc, text)
}

/// The same, for a source of at most the greatest length.
fn read(alloc: Global, text: &[u8]) -> Result<Tokens, LexError>
    requires { length text.now ≤ 1048576 }
    ensures ok { IfOk result (λ tokens. spec.AreTokens text.now tokens.items tokens.end) }
    ensures err { IfErr result (λ e. spec.IsCause text.now e) }
{
    let mut lexer = Lexer::new(alloc, text);
    'reading: while !lexer.is_done() {
        lexer.next(alloc)?;
    }
    Ok(lexer.into_tokens())
}

/// Two longest lexemes at the front of one text have one class and one length.
pub fn one_longest_lexeme()
    ensures { (text : List ℕ) (class other : TokenClass) (n m : ℕ) → IsLongestLexeme text class n → IsLongestLexeme text other m → (class ≡ other) × (n ≡ m) }
{}

/// Two readings of one text are equal: its tokens, or the refusal.
pub fn one_reading()
    ensures tokens { (text : List ℕ) (items items' : List Token) (end end' : Place) → spec.AreTokens text items end → spec.AreTokens text items' end' → (items ≡ items') × (end ≡ end') }
    ensures refusal { (text : List ℕ) (evaluation evaluation' : spec.Evaluation) (place place' : Place) → spec.IsFirstRefused text evaluation place → spec.IsFirstRefused text evaluation' place' → (evaluation ≡ evaluation') × (place ≡ place') }
    ensures either { (text : List ℕ) (items : List Token) (end place : Place) (evaluation : spec.Evaluation) → spec.AreTokens text items end → spec.IsFirstRefused text evaluation place → ⊥ }
{}

/// The tokens of a text are slices of it, none of them empty, in its order; so they are no more
/// than its bytes.
pub fn tokens_are_slices()
    ensures slices { (text : List ℕ) (items : List Token) (end : Place) → spec.AreTokens text items end → spec.AreSlices 0 (length text) items }
    ensures count { (text : List ℕ) (items : List Token) (end : Place) → spec.AreTokens text items end → length items ≤ length text }
{}

/// Keywords and punctuators are spelled as the names of their numbers say.
pub fn names_are_spelled()
    ensures keywords { AreEntries Keywords spelled_keywords }
    ensures marks { AreEntries Punctuators spelled_marks }
{}
