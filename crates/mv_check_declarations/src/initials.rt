// Initial values (C11 6.7.9).

ghost use Rattle.std.specs.Prelude.{◌≡◌, IfOk};
ghost use Rattle.mv_check_expressions.specs.Judged.{IsJudged, Good, and_then};
ghost use Rattle.mv_check_declarations.specs.Initials.{unless_zero, size_of_values, array_size, none_converted, converted_value, converted_values, initial_values, plain_values};

use crate::constants::is_positive;
use crate::steps::with_last;
use mv_ast::program::{CType, Expr};
use mv_check_expressions::constant::Constant;
use mv_check_expressions::error::RuleError;
use mv_check_expressions::judge::value;
use mv_check_scope::constant::converts;
use mv_check_scope::convert::converted_to;
use mv_check_scope::scope::Scope;
use mv_num::list::List;
use mv_num::results::both;
use mv_syntax::unit::{Initial, Node};
use std::alloc::{AllocError, Global};

/// Some values converted to a type, and whether all of them convert.
#[derive(Drop)]
pub struct Converted {
    pub all: bool,
    pub values: List<Expr>,
}

// A size, for which there is no memory from 2^32 on.
fn size_of_length(length: usize) -> Result<Option<u32>, AllocError>
    ensures { IfOk result (λ size. size ≡ unless_zero length) }
{
    if length == 0 {
        Ok(None)
    } else if length > 0xFFFF_FFFF {
        Err(AllocError)
    } else {
        Ok(Some(length as u32))
    }
}

fn size_of_values(values: &Option<Initial>) -> Result<Option<u32>, AllocError>
    ensures { IfOk result (λ size. size ≡ size_of_values values.now) }
{
    match values {
        Some(Initial::Values(nodes)) => size_of_length(nodes.len()),
        Some(Initial::Chars(bytes)) => {
            let length = bytes.len();
            if length >= 0xFFFF_FFFF {
                Err(AllocError)
            } else {
                Ok(Some(length as u32 + 1))
            }
        }
        Some(Initial::Value(_)) | None => Ok(None),
    }
}

/// The size of an array, if it has one that is at least 1.
pub fn array_size(
    size: Option<Constant>,
    values: &Option<Initial>,
) -> Result<Option<u32>, AllocError>
    ensures { IfOk result (λ found. found ≡ array_size size values.now) }
{
    match size {
        None => size_of_values(values),
        Some(constant) => {
            if is_positive(constant) {
                Ok(Some(constant.value))
            } else {
                Ok(None)
            }
        }
    }
}

fn none_converted(alloc: Global) -> Converted
    ensures { result ≡ none_converted }
{
    Converted {
        all: true,
        values: List::new(alloc),
    }
}

fn converted_value(
    alloc: Global,
    ctype: CType,
    scope: &Scope,
    node: &Node,
    done: Converted,
) -> Result<Converted, RuleError>
    ensures { IsJudged (converted_value ctype scope.now node.now done) result }
{
    let Converted { all, values } = done;
    let (values, e) = both(values, value(alloc, scope, node))?;
    let all = all && converts(&e, ctype);
    let (values, e) = both(values, converted_to(alloc, ctype, e))?;
    let values = with_last(values, e)?;
    Ok(Converted { all, values })
}

fn converted_values(
    alloc: Global,
    ctype: CType,
    scope: &Scope,
    nodes: &[Node],
) -> Result<Converted, RuleError>
    ensures { IsJudged (converted_values ctype scope.now nodes.now) result }
{
    let mut done = none_converted(alloc);
    for node in nodes {
        done = converted_value(alloc, ctype, scope, node, done)?;
    }
    Ok(done)
}

/// The values that a declarator gives what it declares, converted to a type.
pub fn initial_values(
    alloc: Global,
    ctype: CType,
    initial: &Option<Initial>,
    scope: &Scope,
) -> Result<Converted, RuleError>
    ensures { IsJudged (initial_values ctype initial.now scope.now) result }
{
    match initial {
        Some(Initial::Value(node)) => converted_value(
            alloc,
            ctype,
            scope,
            node,
            none_converted(alloc),
        ),
        Some(Initial::Values(nodes)) => converted_values(alloc, ctype, scope, nodes.as_slice()),
        Some(Initial::Chars(_)) | None => Ok(none_converted(alloc)),
    }
}

/// Judges the values that a function is given. Nothing is made of them.
pub fn check_plain_values(
    alloc: Global,
    initial: &Option<Initial>,
    scope: &Scope,
) -> Result<(), RuleError>
    ensures { IsJudged (and_then (plain_values initial.now scope.now) (λ x. Good tt)) result }
{
    drop(initial_values(alloc, CType::Void, initial, scope)?);
    Ok(())
}
