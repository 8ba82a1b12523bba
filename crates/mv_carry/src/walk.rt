// The walk over code, in the order in which it runs.
ghost use Rattle.std.specs.Prelude.{◌≡◌, map, IfOk, OnOk};
ghost use Rattle.mv_fold.specs.Simple.{constant};
ghost use Rattle.mv_carry.specs.Carrying.{begun, put, wrote_result, wrote, learned, jumped, leaves, around, chosen, inner, start, step, carried_code, loop_walk, block_walk};

use crate::facts::{Reach, copied, forgotten, meet, number_at};
use crate::trees::{carry_callee, carry_tree, carry_trees};
use crate::writes::unwritten;
use mv_fold::simple::constant;
use mv_ir::stm::Stm;
use mv_ir::tree::Tree;
use mv_num::list::List;
use std::alloc::{AllocError, Global};

/// What a walk knows of the loops around it.
#[derive(Drop)]
pub struct Within {
    /// How many more levels of loops it looks into for what they write.
    pub looks: u32,
    /// What is known at each start of the innermost loop that it has looked into.
    pub start: Reach,
}

/// Where a walk has come to in a list of statements.
#[derive(Drop)]
pub struct Walk {
    /// The statements that it has come by, with numbers carried.
    pub code: List<Stm>,
    /// What is known behind them.
    pub here: Reach,
    /// What is known wherever they leave the innermost loop or block around the list.
    pub left: Reach,
    /// What is known wherever they leave one further out.
    pub far: Reach,
}

fn begun(alloc: Global, reach: &Reach) -> Result<Walk, AllocError>
    ensures { IfOk result (λ w. w ≡ begun reach.now) }
{
    Ok(Walk {
        code: List::new(alloc),
        here: copied(alloc, reach)?,
        left: Reach::Never,
        far: Reach::Never,
    })
}

fn put(walk: &mut Walk, stm: Stm) -> Result<(), AllocError>
    ensures { OnOk result (walk.new ≡ put stm walk.old) }
{
    walk.code.push(stm)?;
    Ok(())
}

#[tactic(auto, using(crate::proofs::Writing::wrote_unknown))]
fn wrote(alloc: Global, walk: &mut Walk, temp: u32) -> Result<(), AllocError>
    ensures { OnOk result (walk.new ≡ wrote temp walk.old) }
{
    match number_at(&walk.here, temp) {
        Some(_) => {
            walk.here = forgotten(alloc, temp, &walk.here)?;
            Ok(())
        }
        None => Ok(()),
    }
}

fn wrote_result(alloc: Global, walk: &mut Walk, target: Option<u32>) -> Result<(), AllocError>
    ensures { OnOk result (walk.new ≡ wrote_result target walk.old) }
{
    match target {
        Some(temp) => wrote(alloc, walk, temp),
        None => Ok(()),
    }
}

fn set(
    alloc: Global,
    temps: u32,
    walk: &mut Walk,
    temp: u32,
    value: &Tree,
) -> Result<(), AllocError>
    ensures { OnOk result (walk.new ≡ learned temps temp (constant value.now) walk.old) }
{
    let value = constant(value);
    match value {
        Some(_) => {
            walk.here = crate::facts::learned(alloc, temps, temp, value, &walk.here)?;
            Ok(())
        }
        None => wrote(alloc, walk, temp),
    }
}

fn leaves(alloc: Global, walk: &mut Walk, level: u32) -> Result<(), AllocError>
    ensures { OnOk result (walk.new ≡ leaves level walk.old) }
{
    if level == 0 {
        walk.left = meet(alloc, &walk.left, &walk.here)?;
    } else {
        walk.far = meet(alloc, &walk.far, &walk.here)?;
    }
    Ok(())
}

// A statement with others in it, and what is known behind it.
fn around(
    alloc: Global,
    walk: &mut Walk,
    stm: Stm,
    here: Reach,
    left: Reach,
    far: Reach,
) -> Result<(), AllocError>
    ensures { OnOk result (walk.new ≡ around stm here left far walk.old) }
{
    walk.left = meet(alloc, &walk.left, &left)?;
    walk.here = here;
    walk.far = meet(alloc, &walk.far, &far)?;
    put(walk, stm)
}

// A choice: behind it is known what is known behind both sides, or behind the side that a constant takes.
fn choice(alloc: Global, walk: &mut Walk, t: Tree, a: Walk, b: Walk) -> Result<(), AllocError>
    ensures { OnOk result (walk.new ≡ chosen (constant t) t a b walk.old) }
{
    let side = constant(&t);
    match side {
        None => {
            let here = meet(alloc, &a.here, &b.here)?;
            let left = meet(alloc, &a.left, &b.left)?;
            let far = meet(alloc, &a.far, &b.far)?;
            around(alloc, walk, Stm::If(t, a.code, b.code), here, left, far)
        }
        Some(n) => {
            if n == 0 {
                around(
                    alloc,
                    walk,
                    Stm::If(t, a.code, b.code),
                    b.here,
                    b.left,
                    b.far,
                )
            } else {
                around(
                    alloc,
                    walk,
                    Stm::If(t, a.code, b.code),
                    a.here,
                    a.left,
                    a.far,
                )
            }
        }
    }
}

// What is known at each start of a loop. What loops write is looked for in so many levels of them alone, so that the work grows with the code, however deep it
// stands.
fn start_of(
    alloc: Global,
    within: &Within,
    here: &Reach,
    b: &List<Stm>,
) -> Result<Reach, AllocError>
    ensures { IfOk result (λ r. r ≡ start within.now b.now here.now) }
{
    match here {
        Reach::Never => Ok(Reach::Never),
        Reach::Knowing(facts) => {
            if within.looks == 0 {
                copied(alloc, &within.start)
            } else {
                Ok(Reach::Knowing(unwritten(alloc, facts, b)?))
            }
        }
    }
}

fn inner(alloc: Global, within: &Within, start: &Reach) -> Result<Within, AllocError>
    ensures { IfOk result (λ w. w ≡ inner within.now start.now) }
{
    Ok(Within {
        looks: within.looks.saturating_sub(1),
        start: copied(alloc, start)?,
    })
}

/// What a walk over some code comes to, from a place where something is known.
#[cycle(carry)]
#[tactic(auto, using(crate::proofs::Equations::carried_more))]
pub fn carry_code(
    alloc: Global,
    temps: u32,
    within: &Within,
    reach: &Reach,
    code: &List<Stm>,
) -> Result<Walk, AllocError>
    ensures { IfOk result (λ w. w ≡ carried_code temps within.now reach.now code.now) }
{
    let mut walk = begun(alloc, reach)?;
    for stm in code.as_slice() {
        carry_stm(alloc, temps, within, stm, &mut walk)?;
    }
    Ok(walk)
}

#[cycle(carry)]
fn carry_loop(
    alloc: Global,
    temps: u32,
    within: &Within,
    b: &List<Stm>,
    walk: &mut Walk,
) -> Result<(), AllocError>
    ensures { OnOk result (walk.new ≡ loop_walk temps within.now b.now walk.old) }
{
    let start = start_of(alloc, within, &walk.here, b)?;
    let within = inner(alloc, within, &start)?;
    let turn = carry_code(alloc, temps, &within, &start, b)?;
    let far = copied(alloc, &turn.far)?;
    around(alloc, walk, Stm::Loop(turn.code), turn.left, turn.far, far)
}

#[cycle(carry)]
fn carry_block(
    alloc: Global,
    temps: u32,
    within: &Within,
    b: &List<Stm>,
    walk: &mut Walk,
) -> Result<(), AllocError>
    ensures { OnOk result (walk.new ≡ block_walk temps within.now b.now walk.old) }
{
    let body = carry_code(alloc, temps, within, &walk.here, b)?;
    let here = meet(alloc, &body.here, &body.left)?;
    let far = copied(alloc, &body.far)?;
    around(alloc, walk, Stm::Block(body.code), here, body.far, far)
}

// An arm for each statement: what becomes of it, and what is known behind it.
#[cycle(carry)]
#[tactic(auto, using(crate::proofs::Equations::steps))]
fn carry_stm(
    alloc: Global,
    temps: u32,
    within: &Within,
    stm: &Stm,
    walk: &mut Walk,
) -> Result<(), AllocError>
    ensures { OnOk result (walk.new ≡ (step temps stm.now).walk within.now walk.old) }
{
    match stm {
        Stm::Set(t, v) => {
            let v = carry_tree(alloc, &walk.here, v)?;
            set(alloc, temps, walk, *t, &v)?;
            put(walk, Stm::Set(*t, v))
        }
        Stm::SetGlobal(g, v) => {
            let v = carry_tree(alloc, &walk.here, v)?;
            put(walk, Stm::SetGlobal(*g, v))
        }
        Stm::Divide(t, o, a, b) => {
            let a = carry_tree(alloc, &walk.here, a)?;
            let b = carry_tree(alloc, &walk.here, b)?;
            wrote(alloc, walk, *t)?;
            put(walk, Stm::Divide(*t, *o, a, b))
        }
        Stm::Check(a, i) => {
            let i = carry_tree(alloc, &walk.here, i)?;
            put(walk, Stm::Check(*a, i))
        }
        Stm::Read(t, a, i) => {
            let i = carry_tree(alloc, &walk.here, i)?;
            wrote(alloc, walk, *t)?;
            put(walk, Stm::Read(*t, *a, i))
        }
        Stm::Write(a, i, v) => {
            let i = carry_tree(alloc, &walk.here, i)?;
            let v = carry_tree(alloc, &walk.here, v)?;
            put(walk, Stm::Write(*a, i, v))
        }
        Stm::Zero(l) => put(walk, Stm::Zero(*l)),
        Stm::If(t, a, b) => {
            let t = carry_tree(alloc, &walk.here, t)?;
            let a = carry_code(alloc, temps, within, &walk.here, a)?;
            let b = carry_code(alloc, temps, within, &walk.here, b)?;
            choice(alloc, walk, t, a, b)
        }
        Stm::Loop(b) => carry_loop(alloc, temps, within, b, walk),
        Stm::Block(b) => carry_block(alloc, temps, within, b, walk),
        Stm::Break(n) => {
            leaves(alloc, walk, *n)?;
            jumped(walk);
            put(walk, Stm::Break(*n))
        }
        Stm::Back(n) => {
            jumped(walk);
            put(walk, Stm::Back(*n))
        }
        Stm::Call(r, f, args) => {
            let f = carry_callee(alloc, &walk.here, f)?;
            let args = carry_trees(alloc, &walk.here, args)?;
            wrote_result(alloc, walk, *r)?;
            put(walk, Stm::Call(*r, f, args))
        }
        Stm::Known(r, k, args) => {
            let args = carry_trees(alloc, &walk.here, args)?;
            wrote_result(alloc, walk, *r)?;
            put(walk, Stm::Known(*r, *k, args))
        }
        Stm::Return(v) => {
            let v = carry_tree(alloc, &walk.here, v)?;
            jumped(walk);
            put(walk, Stm::Return(v))
        }
    }
}

// Behind a jump control never comes.
fn jumped(walk: &mut Walk)
    ensures { walk.new ≡ jumped walk.old }
{
    walk.here = Reach::Never;
}
