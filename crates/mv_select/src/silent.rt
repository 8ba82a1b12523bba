// Code that calls nothing.
ghost use Rattle.std.specs.Prelude.{◌≡◌};
ghost use Rattle.mv_select.specs.Functions.FunctionCode.{is_silent, calls_nothing};
ghost use Rattle.mv_select_code.specs.Control.FlowCode.{only_tests};

use mv_ir::stm::{Callee, Stm};
use mv_ir::tree::Tree;
use mv_num::list::List;

/// Whether some code calls nothing, neither a function nor a known one.
#[cycle(silent)]
pub(crate) fn calls_nothing(code: &List<Stm>) -> bool
    ensures { result ≡ calls_nothing code.now }
{
    for statement in code.as_slice() {
        if !is_silent(statement) {
            return false;
        }
    }
    true
}

// Whether a call is what is left of one whose statements stand behind it.
fn only_tests(callee: &Callee, args: &List<Tree>) -> bool
    ensures { result ≡ only_tests callee.now args.now }
{
    match callee {
        Callee::Expanded => args.as_slice().is_empty(),
        _ => false,
    }
}

#[cycle(silent)]
#[tactic(auto, using(crate::proofs::OfFunctions::Silent::silent))]
fn is_silent(statement: &Stm) -> bool
    ensures { result ≡ is_silent statement.now }
{
    match statement {
        Stm::If(_, first, second) => calls_nothing(first) && calls_nothing(second),
        Stm::Loop(body) => calls_nothing(body),
        Stm::Block(body) => calls_nothing(body),
        Stm::Call(_, callee, args) => only_tests(callee, args),
        Stm::Known(_, _, _) => false,
        Stm::Set(_, _) => true,
        Stm::SetGlobal(_, _) => true,
        Stm::Divide(_, _, _, _) => true,
        Stm::Check(_, _) => true,
        Stm::Read(_, _, _) => true,
        Stm::Write(_, _, _) => true,
        Stm::Zero(_) => true,
        Stm::Break(_) => true,
        Stm::Back(_) => true,
        Stm::Return(_) => true,
    }
}
