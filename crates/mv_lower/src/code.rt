// Lowered statements, from what their parts are lowered to.
ghost use Rattle.std.specs.Prelude.{◌≡◌, ◌+◌, ◌++◌, ◌∷◌, [], ◌<◌, ◌^◌, IfOk, OnOk};
ghost use Rattle.mv_lower_spec.specs.Statements.{in_body, in_arm, enclosed};
ghost use Rattle.mv_lower_expressions.specs.Values.{seen};
ghost use Rattle.mv_lower.specs.Statements.{seen_code, seen_jumps, express_of, return_of, if_of, tested_body, while_of, do_of, for_of, break_at, continue_at, end_at};

use mv_ir::stm::Stm;
use mv_ir::tree::Tree;
use mv_lower_expressions::value::{Value, one_statement};
use mv_num::list::List;
use std::alloc::{AllocError, Global};

/// Statements, and what is above all temporaries that they write.
#[derive(Drop)]
pub struct Code {
    pub code: List<Stm>,
    pub top: u32,
}

/// Where control leads: the numbers of the blocks that `break` and `continue` leave, and how many blocks stand around.
#[derive(Clone, Copy)]
pub struct Jumps {
    pub leave: u32,
    pub again: u32,
    pub around: u32,
}

/// In the body of a loop, which stands in a block of its own.
pub fn in_body(jumps: Jumps) -> Jumps
    requires { jumps.around + 2 < 2 ^ 32 }
    ensures { seen_jumps result ≡ in_body (seen_jumps jumps) }
{
    Jumps {
        leave: 1,
        again: 0,
        around: jumps.around + 2,
    }
}

/// An expression statement (C11 6.8.3).
#[tactic(auto, unfolding(crate::specs::Statements::express_of))]
pub fn express(value: Value) -> Code
    ensures { seen_code result ≡ express_of (seen value) }
{
    Code {
        code: value.code,
        top: value.top,
    }
}

/// `return` with a value (C11 6.8.6.4).
#[tactic(auto, using(mv_lower_expressions::proofs::Emitting::emitted), unfolding(crate::specs::Statements::return_of))]
pub fn return_value(value: Value) -> Result<Code, AllocError>
    ensures { IfOk result (λ c. seen_code c ≡ return_of (seen value)) }
{
    let Value {
        mut code,
        tree,
        top,
    } = value;
    code.push(Stm::Return(tree))?;
    Ok(Code { code, top })
}

/// `break` (C11 6.8.6.3).
#[tactic(auto, using(mv_lower_expressions::proofs::Emitting::emitted), unfolding(crate::specs::Statements::break_at))]
pub fn leave(alloc: Global, jumps: Jumps, n: u32) -> Result<Code, AllocError>
    ensures { IfOk result (λ c. seen_code c ≡ break_at (seen_jumps jumps) n) }
{
    let code = one_statement(alloc, Stm::Break(jumps.leave))?;
    Ok(Code { code, top: n })
}

/// `continue` (C11 6.8.6.2).
#[tactic(auto, using(mv_lower_expressions::proofs::Emitting::emitted), unfolding(crate::specs::Statements::continue_at))]
pub fn go_on(alloc: Global, jumps: Jumps, n: u32) -> Result<Code, AllocError>
    ensures { IfOk result (λ c. seen_code c ≡ continue_at (seen_jumps jumps) n) }
{
    let code = one_statement(alloc, Stm::Break(jumps.again))?;
    Ok(Code { code, top: n })
}

/// `return` without a value, which leads to the end of the function.
#[tactic(auto, using(mv_lower_expressions::proofs::Emitting::emitted), unfolding(crate::specs::Statements::end_at))]
pub fn end(alloc: Global, jumps: Jumps, n: u32) -> Result<Code, AllocError>
    ensures { IfOk result (λ c. seen_code c ≡ end_at (seen_jumps jumps) n) }
{
    let code = one_statement(alloc, Stm::Break(jumps.around))?;
    Ok(Code { code, top: n })
}

/// `if` (C11 6.8.4.1).
#[tactic(auto, using(mv_lower_expressions::proofs::Emitting::emitted), unfolding(crate::specs::Statements::if_of))]
pub fn choose(test: Value, a: Code, b: Code) -> Result<Code, AllocError>
    ensures { IfOk result (λ c. seen_code c ≡ if_of (seen test) (seen_code a) (seen_code b)) }
{
    let Value {
        mut code,
        tree,
        top,
    } = test;
    let above = a.top.max(b.top);
    code.push(Stm::If(tree, a.code, b.code))?;
    Ok(Code {
        code,
        top: top.max(above),
    })
}

#[tactic(auto, using(mv_lower_expressions::proofs::Emitting::emitted))]
fn in_block(alloc: Global, code: List<Stm>) -> Result<List<Stm>, AllocError>
    ensures { IfOk result (λ c. c ≡ enclosed code ∷ []) }
{
    one_statement(alloc, Stm::Block(code))
}

// A test that leaves the loop, and else the body.
#[tactic(auto, using(mv_lower_expressions::proofs::Emitting::emitted))]
fn test_and_body(alloc: Global, test: Value, body: List<Stm>) -> Result<List<Stm>, AllocError>
    ensures { IfOk result (λ c. c ≡ tested_body (seen test) body) }
{
    let Value {
        mut code,
        tree,
        top: _,
    } = test;
    let leaving = one_statement(alloc, Stm::Break(0))?;
    code.push(Stm::If(tree, body, leaving))?;
    Ok(code)
}

/// `while` (C11 6.8.5.1).
#[tactic(auto, using(mv_lower_expressions::proofs::Emitting::emitted), unfolding(crate::specs::Statements::while_of))]
pub fn while_loop(alloc: Global, test: Value, body: Code) -> Result<Code, AllocError>
    ensures { IfOk result (λ c. seen_code c ≡ while_of (seen test) (seen_code body)) }
{
    let top = test.top.max(body.top);
    let inner = in_block(alloc, body.code)?;
    let turn = test_and_body(alloc, test, inner)?;
    let code = one_statement(alloc, Stm::Loop(turn))?;
    Ok(Code { code, top })
}

/// `do` (C11 6.8.5.2). The test comes behind the block of the body, which `continue` leaves.
#[tactic(auto, using(mv_lower_expressions::proofs::Emitting::emitted), unfolding(crate::specs::Statements::do_of))]
pub fn do_loop(alloc: Global, body: Code, test: Value) -> Result<Code, AllocError>
    ensures { IfOk result (λ c. seen_code c ≡ do_of (seen_code body) (seen test)) }
{
    let top = test.top.max(body.top);
    let mut turn = in_block(alloc, body.code)?;
    turn.append(test_and_body(alloc, test, List::new(alloc))?)?;
    let code = one_statement(alloc, Stm::Loop(turn))?;
    Ok(Code { code, top })
}

/// `for` (C11 6.8.5.3).
#[tactic(auto, using(mv_lower_expressions::proofs::Emitting::emitted), unfolding(crate::specs::Statements::for_of))]
pub fn for_loop(
    alloc: Global,
    first: Code,
    test: Value,
    step: Value,
    body: Code,
) -> Result<Code, AllocError>
    ensures { IfOk result (λ c. seen_code c ≡ for_of (seen_code first) (seen test) (seen step) (seen_code body)) }
{
    let above = test.top.max(step.top.max(body.top));
    let inner = in_block(alloc, body.code)?;
    let mut turn = test_and_body(alloc, test, inner)?;
    turn.append(step.code)?;
    let Code { mut code, top } = first;
    code.push(Stm::Loop(turn))?;
    Ok(Code {
        code,
        top: top.max(above),
    })
}
