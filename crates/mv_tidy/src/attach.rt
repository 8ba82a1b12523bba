//! A choice behind some code.
ghost use Rattle.std.specs.Prelude.{ℕ, ◌≡◌, ◌++◌, ◌∷◌, [], true, false, IfOk, IfSome, List};
ghost use Rattle.mv_ir.specs.declared.stm.Stm.{Stm};
ghost use Rattle.mv_ir.specs.declared.tree.Tree.{Tree};
ghost use Rattle.mv_ir.specs.Operators as operator;
ghost use Rattle.mv_ir.specs.Rolled as rolled;
ghost use Rattle.mv_regalloc.specs.declared.liveness.Row.TheVariants.{Saved};
ghost use Rattle.mv_regalloc.specs.Rows.{Bits};
ghost use Rattle.mv_regalloc.specs.Shared.{row_of};
ghost use Rattle.mv_tidy.specs.Attaching.{framed, Asks, HasParts, IsEnded, IsMerge, IsMergeOf, IsSide, IsSplit, IsStep};
ghost use Rattle.mv_tidy.specs.Choosing.{is_jump, Attached};
ghost use Rattle.mv_tidy.specs.Walking.{IsGone};

use crate::one::is_gone;
use crate::trees::is_zero;
use mv_fold::simple::constant;
use mv_ir::operators;
use mv_ir::stm::Stm;
use mv_ir::tree::Tree;
use mv_num::list::List;
use mv_regalloc::liveness::Liveness;
use std::alloc::{AllocError, Global};

// The temporary that a condition asks for, and whether for the opposite.
#[derive(Clone, Copy)]
struct Asked {
    temp: u32,
    denied: bool,
}

// Some code that is nothing, or one jump, or something else.
#[derive(Drop)]
enum Side {
    Empty,
    Jump(Stm),
    Other,
}

// How two sides take a choice in: the number's side is short and stands there, or the other is a jump; whether the number is 0.
#[derive(Drop)]
enum Merge {
    Pushed(Option<Stm>),
    Jumped(bool),
}

// Some code without the set of a temporary at its end, and the value that is set; or the code.
#[derive(Drop)]
enum Ended {
    Other(List<Stm>),
    Value(List<Stm>, Tree),
}

// What stands before a choice, its condition, and its sides without the sets at their ends, the one with the value first.
#[derive(Drop)]
struct Parts {
    first: List<Stm>,
    turned: bool,
    test: Tree,
    a: List<Stm>,
    value: Tree,
    b: List<Stm>,
}

#[derive(Drop)]
enum Split {
    Whole(List<Stm>),
    At(Parts, Merge),
}

// What is around the side that a choice goes to.
#[derive(Drop)]
struct Frame {
    first: List<Stm>,
    turned: bool,
    test: Tree,
    b: List<Stm>,
    rest: List<Stm>,
}

// A choice behind some code, or what is around it and the choice that is left.
#[derive(Drop)]
enum Step {
    Done(List<Stm>),
    Inner(Frame, List<Stm>, Tree, List<Stm>, List<Stm>),
}

// For the opposite.
fn opposite(asked: Option<Asked>) -> Option<Asked>
    ensures { (k : Tree) → IfSome asked (λ a. Asks a.temp a.denied k) → IfSome result (λ a.
        Asks a.temp a.denied (rolled.unary operator.logical_not k) × Asks a.temp a.denied (rolled.binary operator.equal k (rolled.number 0))) }
{
    match asked {
        Some(a) => Some(Asked {
            temp: a.temp,
            denied: !a.denied,
        }),
        None => None,
    }
}

fn asks_for(tree: &Tree) -> Option<Asked>
    ensures { IfSome result (λ a. Asks a.temp a.denied tree.now) }
{
    match tree {
        Tree::Temp(t) => Some(Asked {
            temp: *t,
            denied: false,
        }),
        Tree::Unary(o, a) => {
            if *o == operators::LOGICAL_NOT {
                opposite(asks_for(a.get()))
            } else {
                None
            }
        }
        Tree::Binary(o, a, b) => {
            if !is_zero(b.get()) {
                return None;
            }
            if *o == operators::NOT_EQUAL {
                return asks_for(a.get());
            }
            if *o == operators::EQUAL {
                opposite(asks_for(a.get()))
            } else {
                None
            }
        }
        _ => None,
    }
}

fn side_of(code: &[Stm]) -> Side
    ensures { IsSide code.now result }
{
    if code.len() == 0 {
        return Side::Empty;
    }
    if code.len() > 1 {
        return Side::Other;
    }
    match &code[0] {
        Stm::Break(n) => Side::Jump(Stm::Break(*n)),
        Stm::Back(n) => Side::Jump(Stm::Back(*n)),
        _ => Side::Other,
    }
}

fn is_jump(code: &[Stm]) -> bool
    ensures { result ≡ true → is_jump code.now ≡ true }
{
    match side_of(code) {
        Side::Jump(_) => true,
        Side::Empty => false,
        Side::Other => false,
    }
}

// How sides that end by setting a number take in a choice whose sides are these: the one that the number takes, and the other.
fn merge_sides(zero: bool, taken: &[Stm], other: &[Stm]) -> Option<Merge>
    ensures { IfSome result (IsMergeOf zero taken.now other.now) }
{
    match side_of(taken) {
        Side::Empty => Some(Merge::Pushed(None)),
        Side::Jump(s) => Some(Merge::Pushed(Some(s))),
        Side::Other => {
            if is_jump(other) {
                Some(Merge::Jumped(zero))
            } else {
                None
            }
        }
    }
}

fn merge_of(value: &Tree, x: &[Stm], y: &[Stm]) -> Option<Merge>
    ensures { IfSome result (IsMerge value.now x.now y.now) }
{
    match constant(value) {
        Some(n) => {
            if n == 0 {
                merge_sides(true, y, x)
            } else {
                merge_sides(false, x, y)
            }
        }
        None => None,
    }
}

// Some code at whose end a temporary may be set.
fn end_of(code: List<Stm>, temp: u32) -> Result<Ended, AllocError>
    ensures { IfOk result (IsEnded code temp) }
{
    let mut stms = code.into_vec();
    match stms.pop() {
        Some(Stm::Set(t, e)) => {
            if t == temp {
                return Ok(Ended::Value(List::from_vec(stms), e));
            }
            stms.push(Stm::Set(t, e))?;
        }
        Some(stm) => stms.push(stm)?,
        None => {}
    }
    Ok(Ended::Other(List::from_vec(stms)))
}

fn with_set(mut code: List<Stm>, temp: u32, value: Tree) -> Result<List<Stm>, AllocError>
    ensures { IfOk result (λ l. l ≡ code ++ rolled.set temp value ∷ []) }
{
    code.push(Stm::Set(temp, value))?;
    Ok(code)
}

/// A choice at the end of some code.
pub fn with_choice(
    mut code: List<Stm>,
    test: Tree,
    a: List<Stm>,
    b: List<Stm>,
) -> Result<List<Stm>, AllocError>
    ensures { IfOk result (λ l. l ≡ code ++ rolled.choose test a b ∷ []) }
{
    code.push(Stm::If(test, a, b))?;
    Ok(code)
}

// A choice whose sides end by setting a temporary, and how it takes in another one.
fn split_values(
    parts: Parts,
    value: Tree,
    temp: u32,
    x: &[Stm],
    y: &[Stm],
) -> Result<Split, AllocError>
    ensures { IfOk result (λ made. (code : List Stm) → parts.turned ≡ false → HasParts code temp parts value → IsSplit code temp x.now y.now made) }
{
    if let Some(m) = merge_of(&value, x, y) {
        return Ok(Split::At(parts, m));
    }
    let Parts {
        first,
        turned: _,
        test,
        a,
        value: other,
        b,
    } = parts;
    if let Some(m) = merge_of(&other, x, y) {
        return Ok(Split::At(
            Parts {
                first,
                turned: true,
                test,
                a: b,
                value,
                b: a,
            },
            m,
        ));
    }
    let a = with_set(a, temp, other)?;
    let b = with_set(b, temp, value)?;
    Ok(Split::Whole(with_choice(first, test, a, b)?))
}

// A choice behind some code, whose sides may end by setting a temporary.
fn split_choice(
    first: List<Stm>,
    test: Tree,
    a: List<Stm>,
    b: List<Stm>,
    temp: u32,
    x: &[Stm],
    y: &[Stm],
) -> Result<Split, AllocError>
    ensures { IfOk result (IsSplit (first ++ rolled.choose test a b ∷ []) temp x.now y.now) }
{
    match end_of(a, temp)? {
        Ended::Other(a) => Ok(Split::Whole(with_choice(first, test, a, b)?)),
        Ended::Value(a, other) => match end_of(b, temp)? {
            Ended::Other(b) => {
                let a = with_set(a, temp, other)?;
                Ok(Split::Whole(with_choice(first, test, a, b)?))
            }
            Ended::Value(b, value) => split_values(
                Parts {
                    first,
                    turned: false,
                    test,
                    a,
                    value: other,
                    b,
                },
                value,
                temp,
                x,
                y,
            ),
        },
    }
}

fn split_last(code: List<Stm>, temp: u32, x: &[Stm], y: &[Stm]) -> Result<Split, AllocError>
    ensures { IfOk result (IsSplit code temp x.now y.now) }
{
    let mut stms = code.into_vec();
    match stms.pop() {
        Some(Stm::If(test, a, b)) => {
            return split_choice(List::from_vec(stms), test, a, b, temp, x, y);
        }
        Some(stm) => stms.push(stm)?,
        None => {}
    }
    Ok(Split::Whole(List::from_vec(stms)))
}

// What is left to do where two sides take in a choice. An arm for each way that they do.
fn inner(
    alloc: Global,
    parts: Parts,
    merge: Merge,
    x: List<Stm>,
    y: List<Stm>,
) -> Result<Step, AllocError>
    ensures { IfOk result (λ step. (temps t : ℕ) (live : Bits) (code : List Stm) (v : Tree) → IsGone temps live t → HasParts code t parts v → IsMerge v x y merge →
        IsStep (IsGone temps live) code (rolled.temp t) x y step) }
{
    let Parts {
        first,
        turned,
        test,
        a,
        value,
        mut b,
    } = parts;
    match merge {
        Merge::Pushed(jump) => {
            if let Some(stm) = jump {
                b.push(stm)?;
            }
            let rest = List::new(alloc);
            Ok(Step::Inner(
                Frame {
                    first,
                    turned,
                    test,
                    b,
                    rest,
                },
                a,
                value,
                x,
                y,
            ))
        }
        Merge::Jumped(zero) => {
            let none = List::new(alloc);
            let (x, y, rest) = if zero { (x, none, y) } else { (none, y, x) };
            Ok(Step::Inner(
                Frame {
                    first,
                    turned,
                    test,
                    b,
                    rest,
                },
                a,
                value,
                x,
                y,
            ))
        }
    }
}

// A choice that asks for a temporary.
fn step_to(
    alloc: Global,
    temps: u32,
    first: List<Stm>,
    temp: u32,
    x: List<Stm>,
    y: List<Stm>,
    liveness: &Liveness,
) -> Result<Step, AllocError>
    ensures { IfOk result (IsStep (IsGone temps (row_of liveness.now (Saved 0))) first (rolled.temp temp) x y) }
{
    if !is_gone(temps, temp, liveness) {
        return Ok(Step::Done(with_choice(first, Tree::Temp(temp), x, y)?));
    }
    match split_last(first, temp, x.as_slice(), y.as_slice())? {
        Split::Whole(first) => Ok(Step::Done(with_choice(first, Tree::Temp(temp), x, y)?)),
        Split::At(parts, merge) => inner(alloc, parts, merge, x, y),
    }
}

fn next_step(
    alloc: Global,
    temps: u32,
    first: List<Stm>,
    test: Tree,
    x: List<Stm>,
    y: List<Stm>,
    liveness: &Liveness,
) -> Result<Step, AllocError>
    ensures { IfOk result (IsStep (IsGone temps (row_of liveness.now (Saved 0))) first test x y) }
{
    match asks_for(&test) {
        Some(a) => {
            if a.denied {
                step_to(alloc, temps, first, a.temp, y, x, liveness)
            } else {
                step_to(alloc, temps, first, a.temp, x, y, liveness)
            }
        }
        None => Ok(Step::Done(with_choice(first, test, x, y)?)),
    }
}

fn placed(frame: Frame, side: List<Stm>) -> Result<List<Stm>, AllocError>
    ensures { IfOk result (λ l. l ≡ framed frame side) }
{
    let Frame {
        first,
        turned,
        test,
        b,
        rest,
    } = frame;
    let mut code = if turned {
        with_choice(first, test, b, side)?
    } else {
        with_choice(first, test, side, b)?
    };
    code.append(rest)?;
    Ok(code)
}

/// A choice behind some code.
pub fn attached(
    alloc: Global,
    temps: u32,
    first: List<Stm>,
    test: Tree,
    x: List<Stm>,
    y: List<Stm>,
    liveness: &Liveness,
) -> Result<List<Stm>, AllocError>
    ensures { IfOk result (Attached (IsGone temps (row_of liveness.now (Saved 0))) first test x y) }
{
    match next_step(alloc, temps, first, test, x, y, liveness)? {
        Step::Done(code) => Ok(code),
        Step::Inner(frame, a, value, x, y) => {
            let side = attached(alloc, temps, a, value, x, y, liveness)?;
            placed(frame, side)
        }
    }
}
