// What the declarations of a unit so far come to.

use mv_ast::program::{Function, Global};
use mv_check_outline::names::Names;
use mv_check_outline::outline::Outline;
use mv_check_scope::domain::Domain;
use mv_check_scope::scope::Scope;
use mv_num::list::List;

/// A global so far: whether a declaration has given it an initial value, and its domain if it is no pointer and one has the attribute.
#[derive(Drop)]
pub struct Object {
    pub global: Global,
    pub given: bool,
    pub domain: Option<Domain>,
}

/// What the declarations of a unit so far come to: the scope behind them, the globals in order of first declaration, and of each
/// function that the unit defines, by its number, what it is once it is defined.
#[derive(Drop)]
pub struct Contents {
    pub scope: Scope,
    pub objects: List<Object>,
    pub functions: List<Option<Function>>,
}

/// A unit that breaks no rule: what its declarations come to, the globals that are its pointer switches, and the number of its `main`.
#[derive(Drop)]
pub struct Completed {
    pub contents: Contents,
    pub pointers: List<u32>,
    pub main: u32,
}

/// What is known of a unit's names before its first declaration is judged: which functions, switches and pointer switches it has, the functions of which
/// any declaration has the attribute, also of those that aren't defined, and the objects of which any declaration says `const`.
#[derive(Drop)]
pub struct Foreknown {
    pub outline: Outline,
    pub attributed: Names,
    pub constants: Names,
}
