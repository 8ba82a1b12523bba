//! What a lexeme evaluates to: nothing, a token, or a refusal.
ghost use Rattle.std.specs.Prelude.{List, ℕ};
ghost use Rattle.mv_lexer.specs.Characters.{IsQuoted};
ghost use Rattle.mv_lexer.specs.Lexemes.{HasValues};
ghost use Rattle.mv_lexer.specs.Reading as spec;
ghost use Rattle.mv_lexer.specs.declared.class.TokenClass.TheVariants as classes;

use crate::class::TokenClass;
use crate::error::LexError;
use crate::identifier::evaluate_identifier;
use crate::number::evaluate_number;
use crate::quoted::quoted_values;
use mv_num::kind::Kind;
use mv_syntax::place::Place;
use mv_syntax::token::Piece;
use std::alloc::Global;

/// Evaluates a character constant (C11 6.4.4.4): it has exactly one character.
fn evaluate_character(alloc: Global, text: &[u8], place: Place) -> Result<Option<Piece>, LexError>
    requires { (values : List ℕ) × IsQuoted 39 text.now values }
    ensures { spec.GivesEvaluation classes.CharacterConstant text.now place result }
{
    let values = match quoted_values(alloc, b'\'', text) {
        Ok(values) => values,
        Err(e) => return Err(LexError::Memory(e)),
    };
    match values.as_slice() {
        [] => Err(LexError::BadToken(place)),
        [value] => Ok(Some(Piece::Number(u32::from(*value), Kind::Int))),
        _ => Err(LexError::Unsupported(place)),
    }
}

/// Evaluates a string literal (C11 6.4.5). Its values have no closing 0.
fn evaluate_string(alloc: Global, text: &[u8], place: Place) -> Result<Option<Piece>, LexError>
    requires { (values : List ℕ) × IsQuoted 34 text.now values }
    ensures { spec.GivesEvaluation classes.StringLiteral text.now place result }
{
    match quoted_values(alloc, b'"', text) {
        Ok(values) => Ok(Some(Piece::Chars(values))),
        Err(e) => Err(LexError::Memory(e)),
    }
}

/// Evaluates a lexeme. White space gives nothing; the refusals name `place`, where it stands.
pub fn evaluate(
    alloc: Global,
    class: TokenClass,
    bytes: &[u8],
    place: Place,
) -> Result<Option<Piece>, LexError>
    requires { HasValues class bytes.now }
    ensures { spec.GivesEvaluation class bytes.now place result }
{
    match class {
        TokenClass::WhiteSpace | TokenClass::Comment => Ok(None),
        TokenClass::Identifier => evaluate_identifier(bytes, place),
        TokenClass::PreprocessingNumber => evaluate_number(bytes, place),
        TokenClass::CharacterConstant => evaluate_character(alloc, bytes, place),
        TokenClass::StringLiteral => evaluate_string(alloc, bytes, place),
        TokenClass::Punctuator(number) => Ok(Some(Piece::Mark(number))),
        TokenClass::UnsupportedPunctuator => Err(LexError::Unsupported(place)),
        TokenClass::UnclosedComment | TokenClass::Other => Err(LexError::BadToken(place)),
    }
}
