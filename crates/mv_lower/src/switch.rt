// The tests and the arms of `switch`.
ghost use Rattle.std.specs.Prelude.{◌≡◌, ◌+◌, ◌++◌, ◌∷◌, [], ◌<◌, ◌≤◌, ◌^◌, IfOk, OnOk, map, length};
ghost use Rattle.mv_lower_spec.specs.Lowered.{number, set};
ghost use Rattle.mv_lower_spec.specs.Statements.{in_arm, enclosed, break, test_labels, arm_code};
ghost use Rattle.mv_lower.specs.Statements.{seen_jumps, seen_code};
ghost use Rattle.mv_lower_expressions.specs.Values.{seen};
ghost use Rattle.mv_lower.specs.Switches.{default_place, all_tests, switch_of};

use crate::code::{Code, Jumps};
use mv_ast::program::Arm;
use mv_ir::operators;
use mv_ir::stm::Stm;
use mv_ir::tree::Tree;
use mv_lower_expressions::value::{Value, is_empty, one_statement};
use mv_num::boxed::Boxed;
use mv_num::list::List;
use std::alloc::{AllocError, Global};

/// In an arm, which stands in the block of the `switch`.
pub fn in_arm(jumps: Jumps) -> Jumps
    requires again { jumps.again + 1 < 2 ^ 32 }
    requires around { jumps.around + 1 < 2 ^ 32 }
    ensures { seen_jumps result ≡ in_arm (seen_jumps jumps) }
{
    Jumps {
        leave: 0,
        again: jumps.again + 1,
        around: jumps.around + 1,
    }
}

// The place of an arm, which takes the place of the value, and the jump out of the tests.
#[tactic(auto, using(mv_lower_expressions::proofs::Emitting::emitted))]
fn begin_at(alloc: Global, n: u32, i: u32) -> Result<List<Stm>, AllocError>
    ensures { IfOk result (λ code. code ≡ set n (number i) ∷ break 0 ∷ []) }
{
    let mut code = one_statement(alloc, Stm::Set(n, Tree::Number(i)))?;
    code.push(Stm::Break(0))?;
    Ok(code)
}

// A test of the value in a temporary against a label.
#[tactic(auto, using(mv_lower_expressions::proofs::Emitting::emitted))]
fn test_label(alloc: Global, n: u32, i: u32, label: u32) -> Result<Stm, AllocError>
    ensures { IfOk result (λ s. s ∷ [] ≡ test_labels n i (label ∷ [])) }
{
    let begins = begin_at(alloc, n, i)?;
    let value = Boxed::new(alloc, Tree::Temp(n))?;
    let label = Boxed::new(alloc, Tree::Number(label))?;
    Ok(Stm::If(
        Tree::Binary(operators::EQUAL, value, label),
        begins,
        List::new(alloc),
    ))
}

#[tactic(auto, using(crate::proofs::Declaring::label_tests))]
fn test_labels(
    alloc: Global,
    code: &mut List<Stm>,
    n: u32,
    i: u32,
    labels: &List<u32>,
) -> Result<(), AllocError>
    ensures { OnOk result (code.new ≡ code.old ++ test_labels n i labels.now) }
{
    for label in labels.as_slice() {
        code.push(test_label(alloc, n, i, *label)?)?;
    }
    Ok(())
}

// The place of the arm with `default`, and the place behind all where there is none.
#[tactic(auto, using(crate::proofs::Declaring::defaults))]
fn default_place(arms: &List<Arm>) -> u32
    requires { length arms.now < 2 ^ 32 }
    ensures { result ≡ default_place 0 arms.now }
{
    let mut place = 0;
    for arm in arms.as_slice() {
        if arm.other {
            return place;
        }
        place += 1;
    }
    place
}

/// The tests of the value in a temporary, in the order of the arms. Behind them the place of `default` is begun at.
#[tactic(auto, using(mv_lower_expressions::proofs::Emitting::emitted, crate::proofs::Declaring::arm_tests), unfolding(crate::specs::Switches::all_tests))]
pub fn tests(alloc: Global, arms: &List<Arm>, n: u32) -> Result<List<Stm>, AllocError>
    requires { length arms.now < 2 ^ 32 }
    ensures { IfOk result (λ code. code ≡ all_tests n arms.now) }
{
    let mut code = List::new(alloc);
    let mut place = 0;
    for arm in arms.as_slice() {
        test_labels(alloc, &mut code, n, place, &arm.labels)?;
        place += 1;
    }
    code.push(Stm::Set(n, Tree::Number(default_place(arms))))?;
    Ok(code)
}

/// The code of an arm, skipped where the place in the temporary is a later one. Behind it control falls through: the place is the first.
#[tactic(auto, using(mv_lower_expressions::proofs::Emitting::emitted, crate::proofs::Switching::arm_forms))]
pub fn arm_code(alloc: Global, n: u32, i: u32, mut code: List<Stm>) -> Result<List<Stm>, AllocError>
    ensures { IfOk result (λ c. c ≡ arm_code n i code) }
{
    if is_empty(&code) {
        return Ok(code);
    }
    code.push(Stm::Set(n, Tree::Number(0)))?;
    let arm = Boxed::new(alloc, Tree::Number(i))?;
    let place = Boxed::new(alloc, Tree::Temp(n))?;
    one_statement(
        alloc,
        Stm::If(
            Tree::Binary(operators::LESS_UNSIGNED, arm, place),
            List::new(alloc),
            code,
        ),
    )
}

// Code behind a block that holds other code.
#[tactic(auto, using(mv_lower_expressions::proofs::Emitting::emitted))]
fn after_block(alloc: Global, inner: List<Stm>, code: List<Stm>) -> Result<List<Stm>, AllocError>
    ensures { IfOk result (λ c. c ≡ enclosed inner ∷ code) }
{
    let mut all = one_statement(alloc, Stm::Block(inner))?;
    all.append(code)?;
    Ok(all)
}

/// `switch` (C11 6.8.4.2): the value is put away, and one block holds that of the tests and the arms.
#[tactic(auto, using(mv_lower_expressions::proofs::Emitting::emitted))]
pub fn switch(
    alloc: Global,
    value: Value,
    tests: List<Stm>,
    arms: Code,
    n: u32,
) -> Result<Code, AllocError>
    requires { n + 1 < 2 ^ 32 }
    ensures { IfOk result (λ c. seen_code c ≡ switch_of (seen value) tests (seen_code arms) n) }
{
    let whole = after_block(alloc, tests, arms.code)?;
    let Value {
        mut code,
        tree,
        top,
    } = value;
    code.push(Stm::Set(n, tree))?;
    code.push(Stm::Block(whole))?;
    Ok(Code {
        code,
        top: (n + 1).max(top.max(arms.top)),
    })
}
