// The objects that declarators declare, and the rules that they break (C11 6.7, 6.7.9).

ghost use Rattle.std.specs.Prelude.{◌≡◌};
ghost use Rattle.mv_check_expressions.specs.Breaches.{if_broken};
ghost use Rattle.mv_check_declarations.specs.Objects.{scalar, sized, is_single, is_unconverted, has_room, is_char, string_fits, is_empty, is_overfull, breaks_extents, least};

use mv_ast::program::{CType, Local};
use mv_check_expressions::rules;
use mv_check_scope::convert::is_void;
use mv_num::kind::Kind;
use mv_syntax::unit::Initial;

/// Which of its rules a declared object breaks.
#[derive(Clone, Copy)]
pub struct Breaches {
    /// The name is declared already, in a way that doesn't go with this.
    pub redeclared: bool,
    /// A value doesn't convert.
    pub unconverted: bool,
    /// It is of type `void`.
    pub void: bool,
    /// It has no size, or no room for its values.
    pub extents: bool,
    /// A block follows.
    pub block: bool,
}

/// A scalar of a type.
pub fn scalar(ctype: CType) -> Local
    ensures { result ≡ scalar ctype }
{
    Local { ctype, size: None }
}

/// An array of a type. One without a size that is at least 1 is of size 0.
pub fn sized(ctype: CType, size: Option<u32>) -> Local
    ensures { result ≡ sized ctype size }
{
    Local {
        ctype,
        size: Some(size.unwrap_or(0)),
    }
}

fn is_single(initial: &Option<Initial>) -> bool
    ensures { result ≡ is_single initial.now }
{
    matches!(initial, Some(Initial::Value(_)))
}

/// Whether a value doesn't convert, of some that all do or not, or is one where an array is initialised. What a `void` object is given
/// needn't convert.
pub fn is_unconverted(local: Local, initial: &Option<Initial>, all: bool) -> bool
    ensures { result ≡ is_unconverted local initial.now all }
{
    !is_void(local.ctype) && (!all || (local.size.is_some() && is_single(initial)))
}

fn has_room(size: Option<u32>, count: usize) -> bool
    ensures { result ≡ has_room size count }
{
    match size {
        None => false,
        Some(size) => count <= size as usize,
    }
}

fn is_char(ctype: CType) -> bool
    ensures { result ≡ is_char ctype }
{
    matches!(ctype, CType::Scalar(Kind::SChar | Kind::UChar))
}

fn string_fits(local: Local, count: usize) -> bool
    ensures { result ≡ string_fits local count }
{
    is_char(local.ctype) && has_room(local.size, count)
}

fn is_empty(size: Option<u32>) -> bool
    ensures { result ≡ is_empty size }
{
    match size {
        None => false,
        Some(size) => size == 0,
    }
}

fn is_overfull(global: bool, local: Local, initial: &Option<Initial>, count: usize) -> bool
    ensures { result ≡ is_overfull global local initial.now count }
{
    match initial {
        Some(Initial::Values(_)) => !has_room(local.size, count),
        Some(Initial::Chars(bytes)) => !(global && string_fits(local, bytes.len())),
        Some(Initial::Value(_)) | None => false,
    }
}

/// Whether an array has no size that is at least 1, or an object no room for what it is given, so many values. A string goes into a
/// global array of a char type.
pub fn breaks_extents(global: bool, local: Local, initial: &Option<Initial>, count: usize) -> bool
    ensures { result ≡ breaks_extents global local initial.now count }
{
    is_empty(local.size) || is_overfull(global, local, initial, count)
}

fn if_broken(broken: bool, rule: u8, others: Option<u8>) -> Option<u8>
    ensures { result ≡ if_broken broken rule others }
{
    if broken { Some(rule) } else { others }
}

/// The least rule that is broken.
#[tactic(auto, unfolding(crate::specs::Objects::least))]
pub fn least(breaches: Breaches) -> Option<u8>
    ensures { result ≡ least breaches }
{
    let found = if_broken(breaches.block, rules::DECLARATIONS, None);
    let found = if_broken(breaches.extents, rules::EXTENTS, found);
    let found = if_broken(breaches.void, rules::VOID, found);
    let found = if_broken(breaches.unconverted, rules::CONVERSIONS, found);
    if_broken(breaches.redeclared, rules::REDECLARATIONS, found)
}
