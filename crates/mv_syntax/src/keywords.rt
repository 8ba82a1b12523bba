//! The keywords of the language by their numbers (C11 6.4.1), and the one of the attribute.

/// `_Bool`
pub const BOOL: u8 = 0;

/// `break`
pub const BREAK: u8 = 1;

/// `case`
pub const CASE: u8 = 2;

/// `char`
pub const CHAR: u8 = 3;

/// `const`
pub const CONST: u8 = 4;

/// `continue`
pub const CONTINUE: u8 = 5;

/// `default`
pub const DEFAULT: u8 = 6;

/// `do`
pub const DO: u8 = 7;

/// `else`
pub const ELSE: u8 = 8;

/// `enum`
pub const ENUM: u8 = 9;

/// `for`
pub const FOR: u8 = 10;

/// `if`
pub const IF: u8 = 11;

/// `int`
pub const INT: u8 = 12;

/// `return`
pub const RETURN: u8 = 13;

/// `short`
pub const SHORT: u8 = 14;

/// `signed`
pub const SIGNED: u8 = 15;

/// `static`
pub const STATIC: u8 = 16;

/// `switch`
pub const SWITCH: u8 = 17;

/// `unsigned`
pub const UNSIGNED: u8 = 18;

/// `void`
pub const VOID: u8 = 19;

/// `while`
pub const WHILE: u8 = 20;

/// `__attribute__`
pub const ATTRIBUTE: u8 = 21;
