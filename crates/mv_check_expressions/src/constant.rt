// Where a constant is needed (C11 6.6).

ghost use Rattle.mv_check_expressions.specs.Judged.{IsJudged};
ghost use Rattle.mv_check_expressions.specs.NeededConstants.{constant_judgement};

use crate::error::RuleError;
use crate::judge::value;
use crate::rules;
use mv_ast::program::CType;
use mv_check_scope::constant::constant_value;
use mv_check_scope::scope::Scope;
use mv_syntax::unit::Node;
use std::alloc::Global;

/// The value of a constant expression, with its type.
#[derive(Clone, Copy, PartialEq, Eq, Debug)]
pub struct Constant {
    pub value: u32,
    pub ctype: CType,
}

/// The value of an expression where a constant is needed. The rule of constants is broken at the expression where it isn't one or divides by 0.
pub fn needed(alloc: Global, scope: &Scope, node: &Node) -> Result<Constant, RuleError>
    ensures { IsJudged (constant_judgement scope.now node.now) result }
{
    let e = value(alloc, scope, node)?;
    let ctype = e.ctype;
    let value = constant_value(&e);
    drop(e);
    match value {
        Some(value) => Ok(Constant { value, ctype }),
        None => Err(RuleError::Rule(node.place, rules::CONSTANTS)),
    }
}
