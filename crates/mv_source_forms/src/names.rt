// Which expressions name a local.

ghost use Rattle.std.specs.Prelude.{◌≡◌, map};
ghost use Rattle.mv_ast.specs.Names.{any_of, names_local, target_names_local};

use mv_ast::program::{Expr, Form, Target};
use mv_num::list::List;

// Whether the name of a local stands in an expression.
#[cycle(names)]
fn names_local(e: &Expr, l: u32) -> bool
    ensures { result ≡ names_local l e.now }
{
    match &e.what {
        Form::Number(_) => false,
        Form::Read(target) => target_names(target, l),
        Form::Function(_) => false,
        Form::Unary(_, a) => names_local(a.get(), l),
        Form::Binary(_, a, b) => names_local(a.get(), l) || names_local(b.get(), l),
        Form::Both(a, b) => names_local(a.get(), l) || names_local(b.get(), l),
        Form::Either(a, b) => names_local(a.get(), l) || names_local(b.get(), l),
        Form::Choose(c, a, b) => {
            names_local(c.get(), l) || names_local(a.get(), l) || names_local(b.get(), l)
        }
        Form::Convert(a) => names_local(a.get(), l),
        Form::Set(target, a) => target_names(target, l) || names_local(a.get(), l),
        Form::Change(_, _, target, a) => target_names(target, l) || names_local(a.get(), l),
        Form::After(_, target) => target_names(target, l),
        Form::Direct(_, args) => any_names(args, l),
        Form::Through(args, callee) => any_names(args, l) || names_local(callee.get(), l),
        Form::Known(_, args) => any_names(args, l),
    }
}

// Whether the name of a local stands in an lvalue.
#[cycle(names)]
fn target_names(target: &Target, l: u32) -> bool
    ensures { result ≡ target_names_local l target.now }
{
    match target {
        Target::Global(_) => false,
        Target::Local(m) => *m == l,
        Target::GlobalAt(_, e) => names_local(e.get(), l),
        Target::LocalAt(m, e) => *m == l || names_local(e.get(), l),
    }
}

/// Whether the name of a local stands in one of some expressions.
#[cycle(names)]
pub fn any_names(es: &List<Expr>, l: u32) -> bool
    ensures { result ≡ any_of (map (names_local l) es.now) }
{
    for e in es.as_slice() {
        if names_local(e, l) {
            return true;
        }
    }
    false
}
