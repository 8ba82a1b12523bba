//! Which bodies can stand in place of a call.
ghost use Rattle.std.specs.Prelude.{ℕ, ◌≡◌, ◌∷◌, [], true, IfOk};
ghost use Rattle.mv_num.specs.Lists.{is_among};
ghost use Rattle.mv_ir.specs.Live.{below};
ghost use Rattle.mv_expand.specs.Straight.{IsShort, Straight, reads_only};
ghost use Rattle.mv_expand.specs.Walking.{IsDivisor, LeadsOn};

use mv_ir::body::Body;
use mv_ir::stm::Stm;
use mv_ir::tree::Tree;
use mv_num::list::List;
use std::alloc::{AllocError, Global};

/// How many parameters such a body has at most.
const PARAMS: u32 = 6;

/// How many temporaries.
pub const TEMPS: u32 = 16;

/// And how many statements.
const STATEMENTS: usize = 8;

fn is_among(number: u32, all: &[u32]) -> bool
    ensures { result ≡ is_among number all.now }
{
    for other in all {
        if number == *other {
            return true;
        }
    }
    false
}

// Whether a tree names nothing but constants and some temporaries.
#[tactic(auto, using(crate::proofs::Equations::only_reads))]
fn reads_only(known: &[u32], tree: &Tree) -> bool
    ensures { result ≡ reads_only known.now tree.now }
{
    match tree {
        Tree::Number(_) => true,
        Tree::Temp(t) => is_among(*t, known),
        Tree::Global(_) => false,
        Tree::Function(_) => false,
        Tree::Unary(_, a) => reads_only(known, a.get()),
        Tree::Binary(_, a, b) => reads_only(known, a.get()) && reads_only(known, b.get()),
        Tree::Narrow(_, a) => reads_only(known, a.get()),
    }
}

fn first_temps(alloc: Global, count: u32) -> Result<List<u32>, AllocError>
    ensures { IfOk result (λ temps. temps ≡ below count) }
{
    let mut temps = List::new(alloc);
    for t in 0..count {
        temps.push(t)?;
    }
    Ok(temps)
}

fn is_divisor(tree: &Tree) -> bool
    ensures { result ≡ true → IsDivisor tree.now }
{
    match tree {
        Tree::Number(n) => *n != 0,
        _ => false,
    }
}

// Whether a statement sets one of so many temporaries, by a value or a quotient that is known. It is then known too.
fn leads_on(temps: u32, stm: &Stm, known: &mut List<u32>) -> Result<bool, AllocError>
    ensures { IfOk result (λ leads. leads ≡ true → LeadsOn temps known.old (stm.now ∷ []) known.new) }
{
    match stm {
        Stm::Set(t, v) => {
            if *t >= temps || !reads_only(known.as_slice(), v) {
                return Ok(false);
            }
            known.push(*t)?;
            Ok(true)
        }
        Stm::Divide(t, _, a, b) => {
            if *t >= temps || !is_divisor(b) || !reads_only(known.as_slice(), a) {
                return Ok(false);
            }
            known.push(*t)?;
            Ok(true)
        }
        _ => Ok(false),
    }
}

// Whether a statement returns a value that is known.
fn returns_known(stm: &Stm, known: &[u32]) -> bool
    ensures { (temps : ℕ) → result ≡ true → Straight temps known.now (stm.now ∷ []) }
{
    match stm {
        Stm::Return(v) => reads_only(known, v),
        _ => false,
    }
}

// Whether code is straight over some of so many temporaries.
fn is_straight(temps: u32, code: &[Stm], known: &mut List<u32>) -> Result<bool, AllocError>
    ensures { IfOk result (λ straight. straight ≡ true → Straight temps known.old code.now) }
{
    if code.is_empty() {
        return Ok(false);
    }
    let last = code.len() - 1;
    for i in 0..last {
        if !leads_on(temps, &code[i], known)? {
            return Ok(false);
        }
    }
    Ok(returns_known(&code[last], known.as_slice()))
}

/// Whether a body can stand in place of a call. It takes a body of at most 6 parameters, 16 temporaries and 8 statements that sets temporaries, by values or by
/// divisions by numbers other than 0, and at last returns a value. Its trees name nothing but constants, parameters, and temporaries that were set before.
pub fn is_short(alloc: Global, body: &Body) -> Result<bool, AllocError>
    ensures { IfOk result (λ short. short ≡ true → IsShort body.now) }
{
    if body.params > PARAMS || body.temps > TEMPS || body.code.len() > STATEMENTS {
        return Ok(false);
    }
    let mut known = first_temps(alloc, body.params)?;
    is_straight(body.temps, body.code.as_slice(), &mut known)
}
