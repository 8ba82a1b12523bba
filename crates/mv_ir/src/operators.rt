//! The operators of trees and the divisions, by their numbers.

// ---- operators on one value

/// Negation.
pub const NEGATE: u8 = 0;

/// The complement of each bit.
pub const COMPLEMENT: u8 = 1;

/// 1 for 0, and 0 for all else.
pub const LOGICAL_NOT: u8 = 2;

// ---- operators on two values

/// A sum.
pub const ADD: u8 = 0;

/// A difference.
pub const SUB: u8 = 1;

/// A product.
pub const MUL: u8 = 2;

/// And, bit by bit.
pub const BIT_AND: u8 = 3;

/// Or, bit by bit.
pub const BIT_OR: u8 = 4;

/// Exclusive or, bit by bit.
pub const BIT_XOR: u8 = 5;

/// A shift to the left.
pub const SHIFT_LEFT: u8 = 6;

/// A shift to the right that copies the sign.
pub const SHIFT_RIGHT_SIGNED: u8 = 7;

/// A shift to the right that brings zeros.
pub const SHIFT_RIGHT_UNSIGNED: u8 = 8;

/// Whether the first is less, as signed numbers.
pub const LESS_SIGNED: u8 = 9;

/// Whether the first is less, as unsigned numbers.
pub const LESS_UNSIGNED: u8 = 10;

/// Whether both are equal.
pub const EQUAL: u8 = 11;

/// Whether they differ.
pub const NOT_EQUAL: u8 = 12;

// ---- divisions, which are statements

/// A quotient of signed numbers.
pub const QUOTIENT_SIGNED: u8 = 0;

/// A quotient of unsigned numbers.
pub const QUOTIENT_UNSIGNED: u8 = 1;

/// A remainder of signed numbers.
pub const REMAINDER_SIGNED: u8 = 2;

/// A remainder of unsigned numbers.
pub const REMAINDER_UNSIGNED: u8 = 3;
