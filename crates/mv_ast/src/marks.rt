//! The punctuators of the language by their numbers (C11 6.4.6). Operators have the numbers of their marks.

/// `(`
pub const OPEN_PARENTHESIS: u8 = 0;

/// `)`
pub const CLOSE_PARENTHESIS: u8 = 1;

/// `[`
pub const OPEN_BRACKET: u8 = 2;

/// `]`
pub const CLOSE_BRACKET: u8 = 3;

/// `{`
pub const OPEN_BRACE: u8 = 4;

/// `}`
pub const CLOSE_BRACE: u8 = 5;

/// `;`
pub const SEMICOLON: u8 = 6;

/// `,`
pub const COMMA: u8 = 7;

/// `:`
pub const COLON: u8 = 8;

/// `?`
pub const QUESTION: u8 = 9;

/// `~`
pub const TILDE: u8 = 10;

/// `!`
pub const EXCLAMATION: u8 = 11;

/// `+`
pub const PLUS: u8 = 12;

/// `-`
pub const MINUS: u8 = 13;

/// `*`
pub const STAR: u8 = 14;

/// `/`
pub const SLASH: u8 = 15;

/// `%`
pub const PERCENT: u8 = 16;

/// `&`
pub const AMPERSAND: u8 = 17;

/// `|`
pub const BAR: u8 = 18;

/// `^`
pub const CARET: u8 = 19;

/// `<`
pub const LESS: u8 = 20;

/// `>`
pub const GREATER: u8 = 21;

/// `=`
pub const ASSIGN: u8 = 22;

/// `++`
pub const INCREMENT: u8 = 23;

/// `--`
pub const DECREMENT: u8 = 24;

/// `<<`
pub const SHIFT_LEFT: u8 = 25;

/// `>>`
pub const SHIFT_RIGHT: u8 = 26;

/// `<=`
pub const LESS_OR_EQUAL: u8 = 27;

/// `>=`
pub const GREATER_OR_EQUAL: u8 = 28;

/// `==`
pub const EQUAL: u8 = 29;

/// `!=`
pub const NOT_EQUAL: u8 = 30;

/// `&&`
pub const LOGICAL_AND: u8 = 31;

/// `||`
pub const LOGICAL_OR: u8 = 32;

/// `+=`
pub const PLUS_ASSIGN: u8 = 33;

/// `-=`
pub const MINUS_ASSIGN: u8 = 34;

/// `*=`
pub const STAR_ASSIGN: u8 = 35;

/// `/=`
pub const SLASH_ASSIGN: u8 = 36;

/// `%=`
pub const PERCENT_ASSIGN: u8 = 37;

/// `&=`
pub const AMPERSAND_ASSIGN: u8 = 38;

/// `|=`
pub const BAR_ASSIGN: u8 = 39;

/// `^=`
pub const CARET_ASSIGN: u8 = 40;

/// `<<=`
pub const SHIFT_LEFT_ASSIGN: u8 = 41;

/// `>>=`
pub const SHIFT_RIGHT_ASSIGN: u8 = 42;

/// How many there are.
pub const COUNT: usize = 43;
