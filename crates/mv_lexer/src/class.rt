//! The classes of lexemes (C11 6.4).
ghost use Rattle.std.specs.Prelude.{◌≡◌};

/// The class of a lexeme. A punctuator has its number in its row. `Other` is a byte that begins
/// nothing else.
#[derive(Clone, Copy, Debug, PartialEq, Eq)]
pub enum TokenClass {
    WhiteSpace,
    Comment,
    UnclosedComment,
    CharacterConstant,
    StringLiteral,
    Identifier,
    PreprocessingNumber,
    Punctuator(u8),
    UnsupportedPunctuator,
    Other,
}

/// The class and the length in bytes of the lexeme that a scan found.
#[derive(Clone, Copy, Debug, PartialEq, Eq)]
pub struct Match {
    pub class: TokenClass,
    pub length: usize,
}

impl TokenClass {
    ghost use Rattle.mv_lexer.specs.Include as spec;

    /// Whether it is white space, which gives no token.
    pub fn is_skipped(self) -> bool
        ensures { result ≡ spec.is_skipped self }
    {
        match self {
            TokenClass::WhiteSpace | TokenClass::Comment => true,
            _ => false,
        }
    }
}
