//! Which blocks are a `switch` that can be made so, and what their tests become.
ghost use Rattle.std.specs.Prelude.{◌≡◌, ◌++◌, ◌∷◌, [], true, IfOk, IfSome};
ghost use Rattle.mv_ir.specs.Rolled as rolled;
ghost use Rattle.mv_arms.specs.Arms.{AreArms, EndsAtZero, IsArm, Steered, passed, skips};
ghost use Rattle.mv_arms.specs.Walking.{IsPlan, IsTest, leaving};

use mv_fold::copies::copy_tree;
use mv_ir::operators::LESS_UNSIGNED;
use mv_ir::stm::Stm;
use mv_ir::tree::Tree;
use mv_num::list::List;
use std::alloc::{AllocError, Global};

/// How many arms a `switch` has at most.
pub const ARMS: usize = 32;

// ---- tests

// Which temporary a statement sets to which number.
fn number_set(stm: &Stm) -> Option<(u32, u32)>
    ensures { IfSome result (λ p. stm.now ≡ rolled.set p.0 (rolled.number p.1)) }
{
    match stm {
        Stm::Set(t, Tree::Number(n)) => Some((*t, *n)),
        _ => None,
    }
}

// Whether a statement leaves the innermost block.
fn is_leave(stm: &Stm) -> bool
    ensures { result ≡ true → stm.now ≡ rolled.break 0 }
{
    match stm {
        Stm::Break(n) => *n == 0,
        _ => false,
    }
}

// The place that code puts into a temporary before it leaves the innermost block.
fn place_chosen(temp: u32, code: &List<Stm>) -> Option<u32>
    ensures { IfSome result (λ p. code.now ≡ leaving temp p 0) }
{
    let stms = code.as_slice();
    if stms.len() != 2 || !is_leave(&stms[1]) {
        return None;
    }
    let (t, p) = number_set(&stms[0])?;
    if t == temp { Some(p) } else { None }
}

// How many arms stand before the one that a place chooses.
fn passed(places: &[u32], place: u32) -> Option<u32>
    ensures { IfSome result (λ k. k ≡ passed places.now place) }
{
    match places.split_first() {
        None => Some(0),
        Some((first, rest)) => {
            if *first < place {
                return passed(rest, place)?.checked_add(1);
            }
            Some(0)
        }
    }
}

// A place put into a temporary, and the blocks left that lead to its arm.
fn leaving(alloc: Global, temp: u32, place: u32, passed: u32) -> Result<List<Stm>, AllocError>
    ensures { IfOk result (λ code. code ≡ leaving temp place passed) }
{
    let mut code = List::new(alloc);
    code.push(Stm::Set(temp, Tree::Number(place)))?;
    code.push(Stm::Break(passed))?;
    Ok(code)
}

// What a test becomes.
fn test_made(alloc: Global, temp: u32, places: &[u32], stm: &Stm) -> Result<Option<Stm>, AllocError>
    ensures { IfOk result (λ test. IfSome test (IsTest temp places.now stm.now)) }
{
    match stm {
        Stm::If(c, a, b) => {
            let Some(place) = place_chosen(temp, a) else {
                return Ok(None);
            };
            let Some(k) = passed(places, place) else {
                return Ok(None);
            };
            if b.len() != 0 {
                return Ok(None);
            }
            let code = leaving(alloc, temp, place, k)?;
            Ok(Some(Stm::If(copy_tree(alloc, c)?, code, List::new(alloc))))
        }
        _ => Ok(None),
    }
}

// What tests become behind which a temporary is set to a place.
fn tests_made(
    alloc: Global,
    temp: u32,
    other: u32,
    places: &[u32],
    tests: &[Stm],
) -> Result<Option<List<Stm>>, AllocError>
    ensures { IfOk result (λ made. IfSome made (Steered temp places.now (tests.now ++ rolled.set temp (rolled.number other) ∷ []))) }
{
    let mut made = List::new(alloc);
    for stm in tests {
        let Some(test) = test_made(alloc, temp, places, stm)? else {
            return Ok(None);
        };
        made.push(test)?;
    }
    let Some(k) = passed(places, other) else {
        return Ok(None);
    };
    made.append(leaving(alloc, temp, other, k)?)?;
    Ok(Some(made))
}

// ---- arms

// The place before which the value in a temporary skips an arm.
fn place_tested(temp: u32, test: &Tree) -> Option<u32>
    ensures { IfSome result (λ i. test.now ≡ skips i temp) }
{
    match test {
        Tree::Binary(o, a, b) => match (a.get(), b.get()) {
            (Tree::Number(i), Tree::Temp(t)) => {
                if *o == LESS_UNSIGNED && *t == temp {
                    Some(*i)
                } else {
                    None
                }
            }
            _ => None,
        },
        _ => None,
    }
}

// Whether code ends by setting a temporary to 0.
fn ends_at_zero(temp: u32, code: &List<Stm>) -> bool
    ensures { result ≡ true → EndsAtZero temp code.now }
{
    match code.as_slice().split_last() {
        Some((last, _)) => match number_set(last) {
            Some((t, n)) => t == temp && n == 0,
            None => false,
        },
        None => false,
    }
}

// The place of an arm.
fn place_of(temp: u32, stm: &Stm) -> Option<u32>
    ensures { IfSome result (λ i. IsArm temp i stm.now) }
{
    match stm {
        Stm::If(test, a, b) => {
            let i = place_tested(temp, test)?;
            if a.len() == 0 && ends_at_zero(temp, b) {
                Some(i)
            } else {
                None
            }
        }
        _ => None,
    }
}

// The places of arms.
fn places_of(alloc: Global, temp: u32, arms: &[Stm]) -> Result<Option<List<u32>>, AllocError>
    ensures { IfOk result (λ all. IfSome all (λ places. AreArms temp places arms.now)) }
{
    let mut places = List::new(alloc);
    for arm in arms {
        let Some(i) = place_of(temp, arm) else {
            return Ok(None);
        };
        places.push(i)?;
    }
    Ok(Some(places))
}

// ---- both

// What tests become that stand before some arms.
fn plan_of(
    alloc: Global,
    temps: u32,
    tests: &[Stm],
    arms: &[Stm],
) -> Result<Option<List<Stm>>, AllocError>
    ensures { IfOk result (λ plan. IfSome plan (λ made. IsPlan temps (rolled.enclosed tests.now ∷ arms.now) made)) }
{
    let Some((last, front)) = tests.split_last() else {
        return Ok(None);
    };
    let Some((temp, other)) = number_set(last) else {
        return Ok(None);
    };
    if temp >= temps || arms.len() == 0 {
        return Ok(None);
    }
    let Some(places) = places_of(alloc, temp, arms)? else {
        return Ok(None);
    };
    tests_made(alloc, temp, other, places.as_slice(), front)
}

/// What the tests of a `switch` become, where code is one that has 2 to 32 arms, and so many blocks may be added around these.
pub fn plan(
    alloc: Global,
    temps: u32,
    blocks: usize,
    code: &List<Stm>,
) -> Result<Option<List<Stm>>, AllocError>
    ensures { IfOk result (λ plan. IfSome plan (IsPlan temps code.now)) }
{
    match code.as_slice().split_first() {
        Some((Stm::Block(tests), arms)) => {
            let count = arms.len();
            if count < 2 || count > ARMS || count - 1 > blocks {
                return Ok(None);
            }
            plan_of(alloc, temps, tests.as_slice(), arms)
        }
        _ => Ok(None),
    }
}

// ---- a look beforehand

// Whether code may be a `switch` of which there is a plan, by its tests' last statement and its first arm.
fn may_be_switch(code: &List<Stm>) -> bool {
    let Some((Stm::Block(tests), arms)) = code.as_slice().split_first() else {
        return false;
    };
    let Some((last, _)) = tests.as_slice().split_last() else {
        return false;
    };
    let Some((temp, _)) = number_set(last) else {
        return false;
    };
    let count = arms.len();
    count >= 2 && count <= ARMS && place_of(temp, &arms[0]).is_some()
}

/// Whether some of the code may be a `switch` of which there is a plan.
#[cycle(look)]
pub fn may_have_arms(code: &List<Stm>) -> bool {
    for stm in code.as_slice() {
        if stm_may_have_arms(stm) {
            return true;
        }
    }
    false
}

#[cycle(look)]
fn stm_may_have_arms(stm: &Stm) -> bool {
    match stm {
        Stm::If(_, a, b) => may_have_arms(a) || may_have_arms(b),
        Stm::Loop(b) => may_have_arms(b),
        Stm::Block(b) => may_be_switch(b) || may_have_arms(b),
        _ => false,
    }
}
