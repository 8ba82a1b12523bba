// Types, and how values are converted.

ghost use Rattle.std.specs.Prelude.{◌≡◌, IfOk};
ghost use Rattle.mv_num.specs.Kinds.{kind_number};
ghost use Rattle.mv_check_scope.specs.Conversions.{same_type, is_integer, is_pointer, is_void, promotion, promoted, usual, converted_to};

use mv_ast::program::{CType, Expr, Form};
use mv_num::boxed::Boxed;
use mv_num::kind::Kind;
use std::alloc::{AllocError, Global};

/// The number of a kind, from 0 to 6, by which kinds are told apart.
pub(crate) fn kind_number(kind: Kind) -> u8
    ensures { result ≡ kind_number kind }
{
    match kind {
        Kind::Bool => 0,
        Kind::SChar => 1,
        Kind::UChar => 2,
        Kind::Short => 3,
        Kind::UShort => 4,
        Kind::Int => 5,
        Kind::UInt => 6,
    }
}

/// Whether two types are the same.
pub fn same_type(s: CType, t: CType) -> bool
    ensures { result ≡ same_type s t }
{
    match (s, t) {
        (CType::Void, CType::Void) => true,
        (CType::Scalar(k), CType::Scalar(l)) => kind_number(k) == kind_number(l),
        (CType::Pointer(a), CType::Pointer(b)) => a == b,
        _ => false,
    }
}

/// Whether a type is an integer type.
pub fn is_integer(t: CType) -> bool
    ensures { result ≡ is_integer t }
{
    matches!(t, CType::Scalar(_))
}

/// Whether a type is that of a function pointer.
pub fn is_pointer(t: CType) -> bool
    ensures { result ≡ is_pointer t }
{
    matches!(t, CType::Pointer(_))
}

/// Whether a type is `void`.
pub fn is_void(t: CType) -> bool
    ensures { result ≡ is_void t }
{
    matches!(t, CType::Void)
}

/// The type to which the integer promotions take a type (C11 6.3.1.1).
pub fn promotion(t: CType) -> CType
    ensures { result ≡ promotion t }
{
    match t {
        CType::Scalar(Kind::UInt) => CType::Scalar(Kind::UInt),
        CType::Scalar(_) => CType::Scalar(Kind::Int),
        CType::Void => CType::Void,
        CType::Pointer(s) => CType::Pointer(s),
    }
}

/// The type to which the usual arithmetic conversions take two integer types (C11 6.3.1.8).
pub fn usual(s: CType, t: CType) -> CType
    ensures { result ≡ usual s t }
{
    let unsigned = CType::Scalar(Kind::UInt);
    if same_type(s, unsigned) || same_type(t, unsigned) {
        unsigned
    } else {
        CType::Scalar(Kind::Int)
    }
}

/// An expression converted to a type. It stays as it is where it has the type.
#[tactic(auto, unfolding(crate::specs::Conversions::converted_to))]
pub fn converted_to(alloc: Global, t: CType, e: Expr) -> Result<Expr, AllocError>
    ensures { IfOk result (λ r. r ≡ converted_to t e) }
{
    if same_type(t, e.ctype) {
        return Ok(e);
    }
    let e = Boxed::new(alloc, e)?;
    Ok(Expr {
        ctype: t,
        what: Form::Convert(e),
    })
}

/// An expression after the integer promotions.
pub fn promoted(alloc: Global, e: Expr) -> Result<Expr, AllocError>
    ensures { IfOk result (λ r. r ≡ promoted e) }
{
    let t = promotion(e.ctype);
    converted_to(alloc, t, e)
}
