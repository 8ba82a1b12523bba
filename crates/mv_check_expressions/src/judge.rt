// The judgement on expressions.

ghost use Rattle.mv_check_expressions.specs.Judged.{IsJudged};
ghost use Rattle.std.specs.Prelude.{◌≡◌};
ghost use Rattle.mv_check_expressions.specs.Judgements.{operand_use, cast_use, judgement, judgements, value_judgement, effect_judgement};

use crate::calls::{argument_use, call};
use crate::error::RuleError;
use crate::forms::{after, assign, before, binary, cast, choose, index, name, number, unary};
use crate::seen::{Seen, Use, value_of};
use crate::type_names::type_of;
use mv_ast::marks::AMPERSAND;
use mv_ast::program::{CType, Expr};
use mv_check_scope::convert::is_void;
use mv_check_scope::scope::Scope;
use mv_num::list::List;
use mv_syntax::unit::{Node, What};
use std::alloc::Global;

// What the operand of an operator is used as.
fn operand_use(op: u8) -> Use
    ensures { result ≡ operand_use op }
{
    if op == AMPERSAND {
        Use::Address
    } else {
        Use::Value
    }
}

// What is cast to `void` is used for its effect.
fn cast_use(to: CType) -> Use
    ensures { result ≡ cast_use to }
{
    if is_void(to) {
        Use::Discarded
    } else {
        Use::Value
    }
}

/// What an expression that is used as something is found to be, with all conversions written out; or the first place in it at which a
/// rule is broken, with the least rule of that node.
// An arm for each form of node.
#[cycle(expressions)]
pub fn judge(alloc: Global, scope: &Scope, node: &Node, used: Use) -> Result<Seen, RuleError>
    ensures { IsJudged (judgement scope.now node.now used) result }
{
    let place = node.place;
    match &node.what {
        What::Number(n, kind) => number(scope, place, used, *n, *kind),
        What::Name(text) => name(scope, place, used, text.bytes()),
        What::Unary(op, a) => {
            let a = judge(alloc, scope, a.get(), operand_use(*op))?;
            unary(alloc, scope, place, used, *op, a)
        }
        What::Binary(op, a, b) => {
            let a = judge(alloc, scope, a.get(), Use::Value)?;
            let b = judge(alloc, scope, b.get(), Use::Value)?;
            binary(alloc, scope, place, used, *op, a, b)
        }
        What::Choose(test, a, b) => {
            let test = judge(alloc, scope, test.get(), Use::Value)?;
            let a = judge(alloc, scope, a.get(), Use::Value)?;
            let b = judge(alloc, scope, b.get(), Use::Value)?;
            choose(alloc, scope, place, used, test, a, b)
        }
        What::Assign(op, a, b) => {
            let a = judge(alloc, scope, a.get(), Use::Place)?;
            let b = judge(alloc, scope, b.get(), Use::Value)?;
            assign(alloc, scope, place, used, *op, a, b)
        }
        What::Before(up, a) => {
            let a = judge(alloc, scope, a.get(), Use::Place)?;
            before(alloc, scope, place, used, *up, a)
        }
        What::After(up, a) => {
            let a = judge(alloc, scope, a.get(), Use::Place)?;
            after(scope, place, used, *up, a)
        }
        What::Index(a, i) => {
            let a = judge(alloc, scope, a.get(), Use::Base)?;
            let i = judge(alloc, scope, i.get(), Use::Value)?;
            index(alloc, scope, place, used, a, i)
        }
        What::Call(f, args) => {
            let callee = judge(alloc, scope, f.get(), Use::Callee)?;
            let args = judge_all(alloc, scope, args.as_slice(), argument_use(&callee))?;
            call(alloc, scope, place, used, callee, args)
        }
        What::Cast(specs, a) => {
            let to = type_of(scope, specs)?;
            let a = judge(alloc, scope, a.get(), cast_use(to))?;
            cast(alloc, scope, place, used, to, a)
        }
    }
}

// Expressions that are used alike, in their order.
#[cycle(expressions)]
fn judge_all(
    alloc: Global,
    scope: &Scope,
    nodes: &[Node],
    used: Use,
) -> Result<List<Seen>, RuleError>
    ensures { IsJudged (judgements scope.now nodes.now used) result }
{
    let mut done = List::new(alloc);
    for node in nodes {
        let seen = judge(alloc, scope, node, used)?;
        done.push(seen)?;
    }
    Ok(done)
}

/// The value of an expression.
pub fn value(alloc: Global, scope: &Scope, node: &Node) -> Result<Expr, RuleError>
    ensures { IsJudged (value_judgement scope.now node.now) result }
{
    let seen = judge(alloc, scope, node, Use::Value)?;
    Ok(value_of(seen))
}

/// The computation of an expression that is used for its effect alone, as in an expression statement.
pub fn effect(alloc: Global, scope: &Scope, node: &Node) -> Result<Expr, RuleError>
    ensures { IsJudged (effect_judgement scope.now node.now) result }
{
    let seen = judge(alloc, scope, node, Use::Effect)?;
    Ok(value_of(seen))
}
