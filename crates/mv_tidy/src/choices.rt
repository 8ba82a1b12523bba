//! Two choices as one: a walk over code, from its end to its start.
ghost use Rattle.std.specs.Prelude.{◌≡◌, ◌++◌, ◌∷◌, map, reverse, IfOk, List};
ghost use Rattle.mv_ir.specs.declared.stm.Stm.{Stm};
ghost use Rattle.mv_ir.specs.declared.tree.Tree.{Tree};
ghost use Rattle.mv_ir.specs.Live.{nowhere};
ghost use Rattle.mv_ir.specs.Rolled as rolled;
ghost use Rattle.mv_regalloc.specs.Rows.{live_before, sets, stm_rows};
ghost use Rattle.mv_regalloc.specs.declared.liveness.Row.TheVariants.{Saved};
ghost use Rattle.mv_regalloc.specs.Shared.{LiveSets, row_of, with_live};
ghost use Rattle.mv_tidy.specs.Choosing.{Chosen};
ghost use Rattle.mv_tidy.specs.ChoosingWalk.{AreChosen, IsChosenFrom, IsPut, HasChosen, either_before, passed_within};
ghost use Rattle.mv_tidy.specs.Walking.{IsGone};

use crate::attach::{attached, with_choice};
use mv_ir::stm::Stm;
use mv_ir::tree::Tree;
use mv_num::list::List;
use mv_regalloc::live::{live_loop, live_plain, live_stm};
use mv_regalloc::liveness::{Liveness, Row};
use std::alloc::{AllocError, Global};

// Code before some that is kept with the last statement first.
fn put_before(mut kept: List<Stm>, code: List<Stm>) -> Result<List<Stm>, AllocError>
    ensures { IfOk result (λ all. reverse all ≡ code ++ reverse kept) }
{
    let mut stms = code.into_vec();
    stms.reverse();
    kept.append(List::from_vec(stms))?;
    Ok(kept)
}

// A choice before some code, whose first statement may be a choice too.
fn put_choice(
    alloc: Global,
    temps: u32,
    test: Tree,
    a: List<Stm>,
    b: List<Stm>,
    kept: List<Stm>,
    liveness: &Liveness,
) -> Result<List<Stm>, AllocError>
    ensures { IfOk result (λ all. IsPut (IsGone temps (row_of liveness.now (Saved 0))) (reverse kept) (rolled.choose test a b) (reverse all)) }
{
    let mut stms = kept.into_vec();
    match stms.pop() {
        Some(Stm::If(k, x, y)) => {
            let first = with_choice(List::new(alloc), test, a, b)?;
            let code = attached(alloc, temps, first, k, x, y, liveness)?;
            return put_before(List::from_vec(stms), code);
        }
        Some(stm) => stms.push(stm)?,
        None => {}
    }
    with_choice(List::from_vec(stms), test, a, b)
}

// A statement before some code.
fn put(
    alloc: Global,
    temps: u32,
    stm: Stm,
    mut kept: List<Stm>,
    liveness: &Liveness,
) -> Result<List<Stm>, AllocError>
    ensures { IfOk result (λ all. IsPut (IsGone temps (row_of liveness.now (Saved 0))) (reverse kept) stm (reverse all)) }
{
    match stm {
        Stm::If(test, a, b) => put_choice(alloc, temps, test, a, b, kept, liveness),
        other => {
            kept.push(other)?;
            Ok(kept)
        }
    }
}

/// What becomes of some code, and from what is live behind it to what is live before it.
#[cycle(choices)]
fn choose_code(
    alloc: Global,
    temps: u32,
    code: List<Stm>,
    liveness: &mut Liveness,
) -> Result<List<Stm>, AllocError>
    ensures live { IfOk result (λ made.
        liveness.new ≡ with_live liveness.old (live_before (map stm_rows code) (sets liveness.old.around liveness.old.live))
        ) }
    ensures made { IfOk result (AreChosen temps liveness.old code) }
{
    liveness.save(Row::Empty)?;
    let mut stms = code.into_vec();
    let mut kept = List::new(alloc);
    while let Some(stm) = stms.pop() {
        kept = choose_next(alloc, temps, stm, kept, liveness)?;
    }
    liveness.forget();
    let mut made = kept.into_vec();
    made.reverse();
    Ok(List::from_vec(made))
}

// The next statement towards the start.
#[cycle(choices)]
fn choose_next(
    alloc: Global,
    temps: u32,
    stm: Stm,
    kept: List<Stm>,
    liveness: &mut Liveness,
) -> Result<List<Stm>, AllocError>
    ensures { IfOk result (λ made. (start : LiveSets) (code : List Stm) → IsChosenFrom temps start code (reverse kept) liveness.old →
        IsChosenFrom temps start (stm ∷ code) (reverse made) liveness.new) }
{
    let becomes = choose_stm(alloc, temps, stm, liveness)?;
    let made = put(alloc, temps, becomes, kept, liveness)?;
    liveness.forget();
    liveness.save(Row::Behind(0))?;
    liveness.leave();
    Ok(made)
}

// What becomes of a statement, and from what is live behind it to what is live before it, in a level behind which what is to be put aside is live: what was
// put aside for the code behind the statement is still asked for.
#[cycle(choices)]
fn choose_stm(
    alloc: Global,
    temps: u32,
    stm: Stm,
    liveness: &mut Liveness,
) -> Result<Stm, AllocError>
    ensures live { IfOk result (λ made. liveness.new ≡ passed_within stm liveness.old) }
    ensures made { IfOk result (HasChosen temps liveness.old stm) }
{
    match stm {
        Stm::If(test, a, b) => choose_choice(alloc, temps, test, a, b, liveness),
        Stm::Loop(b) => choose_loop(alloc, temps, b, liveness),
        Stm::Block(b) => choose_block(alloc, temps, b, liveness),
        other => {
            live_stm(&other, liveness)?;
            liveness.enter(Row::Empty, Row::Empty)?;
            Ok(other)
        }
    }
}

// What becomes of a choice.
#[cycle(choices)]
fn choose_choice(
    alloc: Global,
    temps: u32,
    test: Tree,
    a: List<Stm>,
    b: List<Stm>,
    liveness: &mut Liveness,
) -> Result<Stm, AllocError>
    ensures live { IfOk result (λ made. liveness.new ≡ passed_within (Stm.If test a b) liveness.old) }
    ensures made { IfOk result (HasChosen temps liveness.old (Stm.If test a b)) }
{
    let (a, b) = choose_sides(alloc, temps, a, b, liveness)?;
    let made = Stm::If(test, a, b);
    liveness.enter(Row::Live, Row::Empty)?;
    live_plain(&made, None, liveness)?;
    Ok(made)
}

// What becomes of the sides of a choice, and from what is live behind it to what is live where either side begins.
#[cycle(choices)]
fn choose_sides(
    alloc: Global,
    temps: u32,
    a: List<Stm>,
    b: List<Stm>,
    liveness: &mut Liveness,
) -> Result<(List<Stm>, List<Stm>), AllocError>
    ensures live { IfOk result (λ made. liveness.new ≡ with_live liveness.old (either_before a b (sets liveness.old.around liveness.old.live))) }
    ensures first { IfOk result (λ made. AreChosen temps liveness.old a made.0) }
    ensures second { IfOk result (λ made. AreChosen temps liveness.old b made.1) }
{
    liveness.save(Row::Live)?;
    let b = choose_code(alloc, temps, b, liveness)?;
    liveness.save(Row::Live)?;
    liveness.turn(Row::Saved(1));
    let a = choose_code(alloc, temps, a, liveness)?;
    liveness.join(Row::Saved(0))?;
    liveness.forget();
    liveness.forget();
    Ok((a, b))
}

// What becomes of a loop. What is live at its start has to be known before its code is gone over.
#[cycle(choices)]
fn choose_loop(
    alloc: Global,
    temps: u32,
    code: List<Stm>,
    liveness: &mut Liveness,
) -> Result<Stm, AllocError>
    ensures live { IfOk result (λ made. liveness.new ≡ passed_within (Stm.Loop code) liveness.old) }
    ensures made { IfOk result (HasChosen temps liveness.old (Stm.Loop code)) }
{
    liveness.save(Row::Live)?;
    live_loop(&code, liveness)?;
    liveness.enter(Row::Saved(0), Row::Live)?;
    let made = choose_code(alloc, temps, code, liveness)?;
    liveness.turn(Row::Start(0));
    liveness.leave();
    liveness.forget();
    liveness.enter(Row::Empty, Row::Empty)?;
    Ok(Stm::Loop(made))
}

// What becomes of a block.
#[cycle(choices)]
fn choose_block(
    alloc: Global,
    temps: u32,
    code: List<Stm>,
    liveness: &mut Liveness,
) -> Result<Stm, AllocError>
    ensures live { IfOk result (λ made. liveness.new ≡ passed_within (Stm.Block code) liveness.old) }
    ensures made { IfOk result (HasChosen temps liveness.old (Stm.Block code)) }
{
    liveness.enter(Row::Live, Row::Empty)?;
    let made = choose_code(alloc, temps, code, liveness)?;
    liveness.leave();
    liveness.enter(Row::Empty, Row::Empty)?;
    Ok(Stm::Block(made))
}

/// The code of a body, with choices put together.
pub fn choose(alloc: Global, temps: u32, code: List<Stm>) -> Result<List<Stm>, AllocError>
    ensures { IfOk result (λ made. Chosen temps (λ t. nowhere) code made) }
{
    let mut liveness = Liveness::new(alloc, temps as usize)?;
    choose_code(alloc, temps, code, &mut liveness)
}
