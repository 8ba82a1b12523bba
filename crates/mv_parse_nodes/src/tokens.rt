//! What the next tokens are.
ghost use Rattle.std.specs.Prelude.{◌≡◌, ◌<◌, [], ℕ, List, true, false, length, IfOk, IfSome, MatchOption};
ghost use Rattle.mv_ast.specs.Marks as marks;
ghost use Rattle.mv_parse_grammar.specs.Language as language;
ghost use Rattle.mv_parse_grammar.specs.Reader.{next, next_two, token};
ghost use Rattle.mv_parse_grammar.specs.Terminals.{terminal, terminals, mark_of, keyword_of, is_mark, is_keyword, is_no_end, is_name, is_number, is_string, is_multiverse, rank, is_rank, is_step, is_sign, is_type_word, is_type_part, is_specifier};
ghost use Rattle.mv_parse_nodes.specs.Gives.{Gives, IsTaken, IsTakenBefore};

use crate::fault::Fault;
use mv_ast::marks::{
    AMPERSAND, CLOSE_BRACE, COUNT, DECREMENT, EXCLAMATION, INCREMENT, MINUS, OPEN_PARENTHESIS,
    PLUS, STAR, TILDE,
};
use mv_num::text::Text;
use mv_syntax::keywords::{
    ATTRIBUTE, BOOL, CHAR, CONST, ENUM, INT, SHORT, SIGNED, STATIC, UNSIGNED, VOID,
};
use mv_syntax::place::Place;
use mv_syntax::token::{Piece, Token};
use std::alloc::{AllocError, Global};

/// How loosely each punctuator binds what is before it.
const RANKS: [u8; COUNT] = [
    0, 13, 0, 13, 13, 13, 13, 13, 13, 11, 13, 13, 2, 2, 1, 1, 1, 6, 8, 7, 4, 4, 12, 0, 0, 3, 3, 4,
    4, 5, 5, 9, 10, 12, 12, 12, 12, 12, 12, 12, 12, 12, 12,
];

/// The place of the first token.
pub fn place_of(tokens: &[Token]) -> Place
    ensures { (text : List ℕ) → result ≡ language.place_of (terminals text tokens.now) }
{
    match tokens {
        [] => Place { line: 0, column: 0 },
        [token, ..] => token.place,
    }
}

/// The number of a punctuator, and 255 for what is none.
pub fn mark_of(token: &Token) -> u8
    ensures { result ≡ mark_of token.now.what }
{
    match token.what {
        Piece::Mark(number) => number,
        _ => 255,
    }
}

/// The number of a keyword, and 255 for what is none.
pub fn keyword_of(token: &Token) -> u8
    ensures { result ≡ keyword_of token.now.what }
{
    match token.what {
        Piece::Keyword(number) => number,
        _ => 255,
    }
}

/// How loosely a token binds what is before it.
pub fn rank_of(token: &Token) -> u8
    ensures { result ≡ rank (terminal [] token.now) }
{
    let mark = mark_of(token) as usize;
    if mark < COUNT { RANKS[mark] } else { 13 }
}

/// Whether a token is `++` or `--`.
pub fn steps(token: &Token) -> bool
    ensures { result ≡ is_step (terminal [] token.now) }
{
    let mark = mark_of(token);
    mark == INCREMENT || mark == DECREMENT
}

/// Whether a token is an operator on the operand behind it, other than `++` and `--`.
pub fn signs(token: &Token) -> bool
    ensures { result ≡ is_sign (terminal [] token.now) }
{
    let mark = mark_of(token);
    mark == TILDE
        || mark == EXCLAMATION
        || mark == PLUS
        || mark == MINUS
        || mark == STAR
        || mark == AMPERSAND
}

/// Whether a token is one of `_Bool char int short signed unsigned void`.
pub fn types(token: &Token) -> bool
    ensures { result ≡ is_type_word (terminal [] token.now) }
{
    let word = keyword_of(token);
    word == BOOL
        || word == CHAR
        || word == INT
        || word == SHORT
        || word == SIGNED
        || word == UNSIGNED
        || word == VOID
}

/// Whether a token may stand in the type of a cast.
pub fn starts_part(token: &Token) -> bool
    ensures { result ≡ is_type_part (terminal [] token.now) }
{
    let word = keyword_of(token);
    types(token) || word == CONST || word == ENUM
}

/// Whether a declaration begins with a token.
pub fn specifies(token: &Token) -> bool
    ensures { result ≡ is_specifier (terminal [] token.now) }
{
    let word = keyword_of(token);
    starts_part(token) || word == STATIC || word == ATTRIBUTE
}

/// The first token, where it is this punctuator.
pub fn next_mark(tokens: &[Token], mark: u8) -> Option<(&Token, &[Token])>
    ensures next { (text : List ℕ) → MatchOption result (next (is_mark mark) (terminals text tokens.now) ≡ false) (λ x. IsTaken (is_mark mark) (terminals text tokens.now) (terminal text x.0.now) (terminals text x.1.now)) }
    ensures shorter { IfSome result (λ x. length x.1.now < length tokens.now) }
{
    match tokens {
        [token, rest @ ..] => {
            if mark_of(token) == mark {
                Some((token, rest))
            } else {
                None
            }
        }
        [] => None,
    }
}

/// The first token, where it is this keyword.
pub fn next_keyword(tokens: &[Token], keyword: u8) -> Option<(&Token, &[Token])>
    ensures next { (text : List ℕ) → MatchOption result (next (is_keyword keyword) (terminals text tokens.now) ≡ false) (λ x. IsTaken (is_keyword keyword) (terminals text tokens.now) (terminal text x.0.now) (terminals text x.1.now)) }
    ensures shorter { IfSome result (λ x. length x.1.now < length tokens.now) }
{
    match tokens {
        [token, rest @ ..] => {
            if keyword_of(token) == keyword {
                Some((token, rest))
            } else {
                None
            }
        }
        [] => None,
    }
}

/// The first token, where it has this rank.
pub fn next_rank(tokens: &[Token], rank: u8) -> Option<(&Token, &[Token])>
    ensures next { (text : List ℕ) → MatchOption result (next (is_rank rank) (terminals text tokens.now) ≡ false) (λ x. IsTaken (is_rank rank) (terminals text tokens.now) (terminal text x.0.now) (terminals text x.1.now)) }
    ensures shorter { IfSome result (λ x. length x.1.now < length tokens.now) }
{
    match tokens {
        [token, rest @ ..] => {
            if rank_of(token) == rank {
                Some((token, rest))
            } else {
                None
            }
        }
        [] => None,
    }
}

/// The first token, where it is `++` or `--`.
pub fn next_step(tokens: &[Token]) -> Option<(&Token, &[Token])>
    ensures next { (text : List ℕ) → MatchOption result (next is_step (terminals text tokens.now) ≡ false) (λ x. IsTaken is_step (terminals text tokens.now) (terminal text x.0.now) (terminals text x.1.now)) }
    ensures shorter { IfSome result (λ x. length x.1.now < length tokens.now) }
{
    match tokens {
        [token, rest @ ..] => {
            if steps(token) {
                Some((token, rest))
            } else {
                None
            }
        }
        [] => None,
    }
}

/// The first token, where it is another operator on the operand behind it.
pub fn next_sign(tokens: &[Token]) -> Option<(&Token, &[Token])>
    ensures next { (text : List ℕ) → MatchOption result (next is_sign (terminals text tokens.now) ≡ false) (λ x. IsTaken is_sign (terminals text tokens.now) (terminal text x.0.now) (terminals text x.1.now)) }
    ensures shorter { IfSome result (λ x. length x.1.now < length tokens.now) }
{
    match tokens {
        [token, rest @ ..] => {
            if signs(token) {
                Some((token, rest))
            } else {
                None
            }
        }
        [] => None,
    }
}

/// The first token, where it is a word of a type.
pub fn next_type_word(tokens: &[Token]) -> Option<(&Token, &[Token])>
    ensures next { (text : List ℕ) → MatchOption result (next is_type_word (terminals text tokens.now) ≡ false) (λ x. IsTaken is_type_word (terminals text tokens.now) (terminal text x.0.now) (terminals text x.1.now)) }
    ensures shorter { IfSome result (λ x. length x.1.now < length tokens.now) }
{
    match tokens {
        [token, rest @ ..] => {
            if types(token) {
                Some((token, rest))
            } else {
                None
            }
        }
        [] => None,
    }
}

/// The first token, where it may stand in the type of a cast.
pub fn next_type_part(tokens: &[Token]) -> Option<(&Token, &[Token])>
    ensures next { (text : List ℕ) → MatchOption result (next is_type_part (terminals text tokens.now) ≡ false) (λ x. IsTaken is_type_part (terminals text tokens.now) (terminal text x.0.now) (terminals text x.1.now)) }
    ensures shorter { IfSome result (λ x. length x.1.now < length tokens.now) }
{
    match tokens {
        [token, rest @ ..] => {
            if starts_part(token) {
                Some((token, rest))
            } else {
                None
            }
        }
        [] => None,
    }
}

/// The first token, where a declaration begins with it.
pub fn next_specifier(tokens: &[Token]) -> Option<(&Token, &[Token])>
    ensures next { (text : List ℕ) → MatchOption result (next is_specifier (terminals text tokens.now) ≡ false) (λ x. IsTaken is_specifier (terminals text tokens.now) (terminal text x.0.now) (terminals text x.1.now)) }
    ensures shorter { IfSome result (λ x. length x.1.now < length tokens.now) }
{
    match tokens {
        [token, rest @ ..] => {
            if specifies(token) {
                Some((token, rest))
            } else {
                None
            }
        }
        [] => None,
    }
}

/// The first token, where it is a `(` and the type of a cast comes behind it.
pub fn next_cast(tokens: &[Token]) -> Option<(&Token, &[Token])>
    ensures next { (text : List ℕ) → MatchOption result (next_two (is_mark marks.open_parenthesis) is_type_part (terminals text tokens.now) ≡ false) (λ x. IsTakenBefore (is_mark marks.open_parenthesis) is_type_part (terminals text tokens.now) (terminal text x.0.now) (terminals text x.1.now)) }
    ensures shorter { IfSome result (λ x. length x.1.now < length tokens.now) }
{
    let Some((open, rest)) = next_mark(tokens, OPEN_PARENTHESIS) else {
        return None;
    };
    let Some(_) = next_type_part(rest) else {
        return None;
    };
    Some((open, rest))
}

/// The first token, where it is a name.
pub fn next_name(tokens: &[Token]) -> Option<(&Token, &[Token])>
    ensures next { (text : List ℕ) → MatchOption result (next is_name (terminals text tokens.now) ≡ false) (λ x. IsTaken is_name (terminals text tokens.now) (terminal text x.0.now) (terminals text x.1.now)) }
    ensures shorter { IfSome result (λ x. length x.1.now < length tokens.now) }
{
    match tokens {
        [token, rest @ ..] => match token.what {
            Piece::Name => Some((token, rest)),
            _ => None,
        },
        [] => None,
    }
}

/// The first token, where it is a number or a character.
pub fn next_number(tokens: &[Token]) -> Option<(&Token, &[Token])>
    ensures next { (text : List ℕ) → MatchOption result (next is_number (terminals text tokens.now) ≡ false) (λ x. IsTaken is_number (terminals text tokens.now) (terminal text x.0.now) (terminals text x.1.now)) }
    ensures shorter { IfSome result (λ x. length x.1.now < length tokens.now) }
{
    match tokens {
        [token, rest @ ..] => match token.what {
            Piece::Number(_, _) => Some((token, rest)),
            _ => None,
        },
        [] => None,
    }
}

/// The first token, where it is a string.
pub fn next_string(tokens: &[Token]) -> Option<(&Token, &[Token])>
    ensures next { (text : List ℕ) → MatchOption result (next is_string (terminals text tokens.now) ≡ false) (λ x. IsTaken is_string (terminals text tokens.now) (terminal text x.0.now) (terminals text x.1.now)) }
    ensures shorter { IfSome result (λ x. length x.1.now < length tokens.now) }
{
    match tokens {
        [token, rest @ ..] => match token.what {
            Piece::Chars(_) => Some((token, rest)),
            _ => None,
        },
        [] => None,
    }
}

/// The first token.
pub fn next_any(tokens: &[Token]) -> Option<(&Token, &[Token])>
    ensures next { (text : List ℕ) → MatchOption result (tokens.now ≡ []) (λ x. IsTaken (λ _. true) (terminals text tokens.now) (terminal text x.0.now) (terminals text x.1.now)) }
    ensures shorter { IfSome result (λ x. length x.1.now < length tokens.now) }
{
    match tokens {
        [token, rest @ ..] => Some((token, rest)),
        [] => None,
    }
}

/// The first token, where it isn't `}`.
pub fn next_inside(tokens: &[Token]) -> Option<(&Token, &[Token])>
    ensures next { (text : List ℕ) → MatchOption result (next is_no_end (terminals text tokens.now) ≡ false) (λ x. IsTaken is_no_end (terminals text tokens.now) (terminal text x.0.now) (terminals text x.1.now)) }
    ensures shorter { IfSome result (λ x. length x.1.now < length tokens.now) }
{
    match tokens {
        [token, rest @ ..] => {
            if mark_of(token) != CLOSE_BRACE {
                Some((token, rest))
            } else {
                None
            }
        }
        [] => None,
    }
}

/// The first token, which has to be this punctuator.
pub fn expect_mark(tokens: &[Token], mark: u8) -> Result<(&Token, &[Token]), Fault>
    ensures reads { (text : List ℕ) → Gives (λ x. (terminal text x.0.now, terminals text x.1.now)) result (token (is_mark mark) (terminals text tokens.now)) }
    ensures shorter { IfOk result (λ x. length x.1.now < length tokens.now) }
{
    match next_mark(tokens, mark) {
        Some(taken) => Ok(taken),
        None => Err(Fault::Syntax(tokens.len())),
    }
}

/// The first token, which has to be this keyword.
pub fn expect_keyword(tokens: &[Token], keyword: u8) -> Result<(&Token, &[Token]), Fault>
    ensures reads { (text : List ℕ) → Gives (λ x. (terminal text x.0.now, terminals text x.1.now)) result (token (is_keyword keyword) (terminals text tokens.now)) }
    ensures shorter { IfOk result (λ x. length x.1.now < length tokens.now) }
{
    match next_keyword(tokens, keyword) {
        Some(taken) => Ok(taken),
        None => Err(Fault::Syntax(tokens.len())),
    }
}

/// The first token, which has to be a name.
pub fn expect_name(tokens: &[Token]) -> Result<(&Token, &[Token]), Fault>
    ensures reads { (text : List ℕ) → Gives (λ x. (terminal text x.0.now, terminals text x.1.now)) result (token is_name (terminals text tokens.now)) }
    ensures shorter { IfOk result (λ x. length x.1.now < length tokens.now) }
{
    match next_name(tokens) {
        Some(taken) => Ok(taken),
        None => Err(Fault::Syntax(tokens.len())),
    }
}

/// The first token, which has to be a string.
pub fn expect_string(tokens: &[Token]) -> Result<(&Token, &[Token]), Fault>
    ensures reads { (text : List ℕ) → Gives (λ x. (terminal text x.0.now, terminals text x.1.now)) result (token is_string (terminals text tokens.now)) }
    ensures shorter { IfOk result (λ x. length x.1.now < length tokens.now) }
{
    match next_string(tokens) {
        Some(taken) => Ok(taken),
        None => Err(Fault::Syntax(tokens.len())),
    }
}

/// The first token, which has to be `++` or `--`.
pub fn expect_step(tokens: &[Token]) -> Result<(&Token, &[Token]), Fault>
    ensures reads { (text : List ℕ) → Gives (λ x. (terminal text x.0.now, terminals text x.1.now)) result (token is_step (terminals text tokens.now)) }
    ensures shorter { IfOk result (λ x. length x.1.now < length tokens.now) }
{
    match next_step(tokens) {
        Some(taken) => Ok(taken),
        None => Err(Fault::Syntax(tokens.len())),
    }
}

/// The first token, which has to be the name of the attribute.
pub fn expect_multiverse<'a>(
    text: &[u8],
    tokens: &'a [Token],
) -> Result<(&'a Token, &'a [Token]), Fault>
    ensures reads { Gives (λ x. (terminal text.now x.0.now, terminals text.now x.1.now)) result (token is_multiverse (terminals text.now tokens.now)) }
    ensures shorter { IfOk result (λ x. length x.1.now < length tokens.now) }
{
    match next_multiverse(text, tokens) {
        Some(taken) => Ok(taken),
        None => Err(Fault::Syntax(tokens.len())),
    }
}

fn next_multiverse<'a>(text: &[u8], tokens: &'a [Token]) -> Option<(&'a Token, &'a [Token])>
    ensures next { MatchOption result (next is_multiverse (terminals text.now tokens.now) ≡ false) (λ x. IsTaken is_multiverse (terminals text.now tokens.now) (terminal text.now x.0.now) (terminals text.now x.1.now)) }
    ensures shorter { IfSome result (λ x. length x.1.now < length tokens.now) }
{
    match tokens {
        [token, rest @ ..] => {
            if names_multiverse(text, token) {
                Some((token, rest))
            } else {
                None
            }
        }
        [] => None,
    }
}

fn names_multiverse(text: &[u8], token: &Token) -> bool
    ensures { result ≡ is_multiverse (terminal text.now token.now) }
{
    match token.what {
        Piece::Name => spelling(text, token) == "multiverse".as_bytes(),
        _ => false,
    }
}

// The bytes of a token in the source.
fn spelling<'a>(text: &'a [u8], token: &Token) -> &'a [u8]
    ensures { result.now ≡ (terminal text.now token.now).spelling }
{
    let from = (token.start as usize).min(text.len());
    let rest = &text[from..];
    let count = (token.stop.saturating_sub(token.start) as usize).min(rest.len());
    &rest[..count]
}

/// The text of a token in the source.
pub fn text_of(alloc: Global, text: &[u8], token: &Token) -> Result<Text, AllocError>
    ensures { IfOk result (λ bytes. bytes ≡ (terminal text.now token.now).spelling) }
{
    Text::new(alloc, spelling(text, token))
}
