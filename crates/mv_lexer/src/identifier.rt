//! Identifiers and keywords (C11 6.4.1, 6.4.2).
ghost use Rattle.std.specs.Prelude.{◌≡◌};
ghost use Rattle.mv_lexer.specs.Reading as spec;
ghost use Rattle.mv_lexer.specs.declared.class.TokenClass.TheVariants.{Identifier};

use crate::error::LexError;
use crate::table::{Table, index_of, size};
use mv_syntax::place::Place;
use mv_syntax::token::Piece;

/// The greatest length of an identifier, in bytes.
const IDENTIFIER_LIMIT: usize = 63;

/// Evaluates a lexeme of the class of identifiers: a keyword, a name, or a refusal. Its length is
/// judged first.
pub fn evaluate_identifier(name: &[u8], place: Place) -> Result<Option<Piece>, LexError>
    ensures { spec.GivesEvaluation Identifier name.now place result }
{
    if name.len() > IDENTIFIER_LIMIT {
        return Err(LexError::TooLong(name.len() as u64));
    }
    let keyword = index_of(Table::Keywords, name);
    if keyword < size(Table::Keywords) {
        return Ok(Some(Piece::Keyword(keyword as u8)));
    }
    if index_of(Table::UnsupportedKeywords, name) < size(Table::UnsupportedKeywords) {
        return Err(LexError::Unsupported(place));
    }
    Ok(Some(Piece::Name))
}
