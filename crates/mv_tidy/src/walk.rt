//! The walk over code, from its end to its start.
ghost use Rattle.std.specs.Prelude.{◌≡◌, ◌<◌, ◌∷◌, [], true, map, length, reverse, IfOk, IfSome, OnOk, List};
ghost use Rattle.mv_fold.specs.Simple.{jumps};
ghost use Rattle.mv_ir.specs.Measures.{calls};
ghost use Rattle.mv_regalloc.specs.Rows.{live_before, sets, stm_rows};
ghost use Rattle.mv_regalloc.specs.declared.liveness.Row.TheVariants.{Saved};
ghost use Rattle.mv_regalloc.specs.Shared.{LiveSets, entered, forgotten, row_of, with_live, with_saved};
ghost use Rattle.mv_tidy.specs.Walking.{IsIdle, IsOneOfLast, IsLeft, IsWalked, HasBecome, passed, sides_bits, turning};

use crate::one::as_one;
use crate::quiet::calls_nothing;
use crate::trees::is_temp;
use mv_fold::simple::jumps;
use mv_ir::stm::Stm;
use mv_ir::tree::Tree;
use mv_num::list::List;
use mv_num::results::both;
use mv_regalloc::live::{live_loop, live_plain, live_stm};
use mv_regalloc::liveness::{Liveness, Row};
use std::alloc::{AllocError, Global};
use std::mem;

// The statement that a statement and the one behind it are together. Those that were kept stand with the last one first.
fn one_of_last(
    alloc: Global,
    temps: u32,
    stm: &Stm,
    kept: &[Stm],
    liveness: &Liveness,
) -> Result<Option<Stm>, AllocError>
    ensures { IfOk result (λ one. IfSome one (IsOneOfLast temps (row_of liveness.now (Saved 0)) stm.now kept.now)) }
{
    match kept.last() {
        Some(next) => as_one(alloc, temps, stm, next, liveness),
        None => Ok(None),
    }
}

// Puts a statement in place of the last one.
fn replace_last(kept: &mut List<Stm>, stm: Stm)
    requires { 0 < length kept.old }
    ensures { (n : Stm) (rest : List Stm) → reverse kept.old ≡ n ∷ rest → reverse kept.new ≡ stm ∷ rest }
{
    let last = kept.len() - 1;
    drop(kept.set(last, stm));
}

// Whether a statement only sets a temporary that isn't live behind it, or that has this value.
fn is_idle(temps: u32, stm: &Stm, liveness: &Liveness) -> bool
    ensures { result ≡ true → IsIdle temps liveness.now.live stm.now }
{
    match stm {
        Stm::Set(t, v) => {
            if *t >= temps {
                return false;
            }
            if !liveness.has(Row::Live, *t) {
                return true;
            }
            is_temp(v, *t)
        }
        _ => false,
    }
}

// Whether a statement is a jump behind which what was kept calls nothing. That is asked until something there calls: what calls stays in the list.
fn ends(stm: &Stm, kept: &[Stm], calling: &mut bool) -> bool
    ensures { result ≡ true → (jumps stm.now ≡ true) × (calls kept.now ≡ 0) }
{
    if *calling || !jumps(stm) {
        return false;
    }
    let quiet = calls_nothing(kept);
    *calling = !quiet;
    quiet
}

// The same statement, and from what is live behind it to what is live before it.
fn pass(stm: Stm, liveness: &mut Liveness) -> Result<Stm, AllocError>
    ensures same { IfOk result (λ same. same ≡ stm) }
    ensures live { IfOk result (λ same. liveness.new ≡ passed stm liveness.old) }
{
    let step = live_stm(&stm, liveness);
    let (stm, ()) = both(stm, step)?;
    Ok(stm)
}

// Drops a statement, and from what is live behind it to what is live before it.
fn leave_out(stm: Stm, liveness: &mut Liveness) -> Result<(), AllocError>
    ensures { OnOk result (liveness.new ≡ passed stm liveness.old) }
{
    let step = live_stm(&stm, liveness);
    drop(stm);
    step
}

// A jump in place of all that was kept. What is live behind it is what is live behind the code.
fn end(
    alloc: Global,
    jump: Stm,
    kept: &mut List<Stm>,
    liveness: &mut Liveness,
) -> Result<(), AllocError>
    ensures kept { OnOk result (kept.new ≡ jump ∷ []) }
    ensures live { OnOk result (liveness.new ≡ passed jump (with_saved (forgotten liveness.old) (row_of (forgotten liveness.old) (Saved 0)))) }
{
    liveness.forget();
    let (jump, ()) = both(jump, liveness.save(Row::Saved(0)))?;
    let jump = pass(jump, liveness)?;
    drop(mem::replace(kept, List::new(alloc)));
    Ok(kept.push(jump)?)
}

// Puts aside what is live behind some code and, since nothing was kept yet, an empty set for what is live behind that.
fn start(liveness: &mut Liveness) -> Result<(), AllocError>
    ensures { OnOk result (liveness.new ≡ with_saved (with_saved liveness.old liveness.old.live) liveness.old.around.none) }
{
    liveness.save(Row::Live)?;
    liveness.save(Row::Empty)
}

/// The code with statements joined to their neighbours and without those that do nothing, and from what is live behind it to what is live before it.
#[cycle(tidy)]
pub fn tidy_code(
    alloc: Global,
    temps: u32,
    code: List<Stm>,
    liveness: &mut Liveness,
) -> Result<List<Stm>, AllocError>
    ensures live { IfOk result (λ left.
        liveness.new ≡ with_live liveness.old (live_before (map stm_rows code) (sets liveness.old.around liveness.old.live))
        ) }
    ensures left { IfOk result (IsLeft temps liveness.old code) }
{
    let (code, ()) = both(code, start(liveness))?;
    let mut stms = code.into_vec();
    let mut kept = List::new(alloc);
    let mut calling = false;
    while let Some(stm) = stms.pop() {
        tidy_next(alloc, temps, stm, &mut kept, &mut calling, liveness)?;
    }
    liveness.forget();
    liveness.forget();
    let mut left = kept.into_vec();
    left.reverse();
    Ok(List::from_vec(left))
}

// The next statement towards the start.
#[cycle(tidy)]
fn tidy_next(
    alloc: Global,
    temps: u32,
    stm: Stm,
    kept: &mut List<Stm>,
    calling: &mut bool,
    liveness: &mut Liveness,
) -> Result<(), AllocError>
    ensures { OnOk result (
        (start : LiveSets) (code : List Stm) → IsWalked temps start code kept.old liveness.old → IsWalked temps start (stm ∷ code) kept.new liveness.new
        ) }
{
    if is_idle(temps, &stm, liveness) {
        return leave_out(stm, liveness);
    }
    if ends(&stm, kept.as_slice(), calling) {
        return end(alloc, stm, kept, liveness);
    }
    keep(alloc, temps, stm, kept, liveness)
}

// A statement that stands, or is one with the last one.
#[cycle(tidy)]
fn keep(
    alloc: Global,
    temps: u32,
    stm: Stm,
    kept: &mut List<Stm>,
    liveness: &mut Liveness,
) -> Result<(), AllocError>
    ensures { OnOk result (
        (start : LiveSets) (code : List Stm) → IsWalked temps start code kept.old liveness.old → IsWalked temps start (stm ∷ code) kept.new liveness.new
        ) }
{
    let one = one_of_last(alloc, temps, &stm, kept.as_slice(), liveness);
    let (stm, one) = both(stm, one)?;
    match one {
        Some(one) => {
            replace_last(kept, one);
            leave_out(stm, liveness)
        }
        None => put(alloc, temps, stm, kept, liveness),
    }
}

// A statement that stands. What is live behind it is put aside.
#[cycle(tidy)]
fn put(
    alloc: Global,
    temps: u32,
    stm: Stm,
    kept: &mut List<Stm>,
    liveness: &mut Liveness,
) -> Result<(), AllocError>
    ensures { OnOk result (
        (start : LiveSets) (code : List Stm) → IsWalked temps start code kept.old liveness.old → IsWalked temps start (stm ∷ code) kept.new liveness.new
        ) }
{
    liveness.forget();
    let (stm, ()) = both(stm, liveness.save(Row::Live))?;
    let becomes = tidy_stm(alloc, temps, stm, liveness)?;
    Ok(kept.push(becomes)?)
}

// What becomes of a statement, and from what is live behind it to what is live before it.
#[cycle(tidy)]
#[tactic(auto, using(crate::proofs::Walked::becoming))]
fn tidy_stm(alloc: Global, temps: u32, stm: Stm, liveness: &mut Liveness) -> Result<Stm, AllocError>
    ensures live { IfOk result (λ made. liveness.new ≡ passed stm liveness.old) }
    ensures made { IfOk result (HasBecome temps liveness.old stm) }
{
    match stm {
        Stm::If(test, a, b) => tidy_choice(alloc, temps, test, a, b, liveness),
        Stm::Loop(code) => Ok(Stm::Loop(tidy_loop(alloc, temps, code, liveness)?)),
        Stm::Block(code) => Ok(Stm::Block(tidy_block(alloc, temps, code, liveness)?)),
        other => pass(other, liveness),
    }
}

// What becomes of a choice.
#[cycle(tidy)]
fn tidy_choice(
    alloc: Global,
    temps: u32,
    test: Tree,
    a: List<Stm>,
    b: List<Stm>,
    liveness: &mut Liveness,
) -> Result<Stm, AllocError>
    ensures live { IfOk result (λ made. liveness.new ≡ passed (Stm.If test a b) liveness.old) }
    ensures made { IfOk result (HasBecome temps liveness.old (Stm.If test a b)) }
{
    let (test, (a, b)) = both(test, tidy_sides(alloc, temps, a, b, liveness))?;
    let made = Stm::If(test, a, b);
    let step = live_plain(&made, None, liveness);
    let (made, ()) = both(made, step)?;
    Ok(made)
}

// What becomes of the sides of a choice, and from what is live behind it to what is live at the start of either.
#[cycle(tidy)]
fn tidy_sides(
    alloc: Global,
    temps: u32,
    a: List<Stm>,
    b: List<Stm>,
    liveness: &mut Liveness,
) -> Result<(List<Stm>, List<Stm>), AllocError>
    ensures live { IfOk result (λ sides. liveness.new ≡ with_live liveness.old (sides_bits a b liveness.old)) }
    ensures a { IfOk result (λ sides. IsLeft temps liveness.old a sides.0) }
    ensures b { IfOk result (λ sides. IsLeft temps liveness.old b sides.1) }
{
    let ((a, b), ()) = both((a, b), liveness.save(Row::Live))?;
    let (a, b) = both(a, tidy_code(alloc, temps, b, liveness))?;
    let ((a, b), ()) = both((a, b), liveness.save(Row::Live))?;
    liveness.turn(Row::Saved(1));
    let (b, a) = both(b, tidy_code(alloc, temps, a, liveness))?;
    let (sides, ()) = both((a, b), liveness.join(Row::Saved(0)))?;
    liveness.forget();
    liveness.forget();
    Ok(sides)
}

// From behind a loop to the end of its statements. What is live at its start has to be known before, since they go back there.
fn turn_in(code: &List<Stm>, liveness: &mut Liveness) -> Result<(), AllocError>
    ensures { OnOk result (liveness.new ≡ turning liveness.old code.now) }
{
    liveness.save(Row::Live)?;
    live_loop(code, liveness)?;
    liveness.enter(Row::Saved(0), Row::Live)?;
    liveness.forget();
    Ok(())
}

// What becomes of the statements of a loop.
#[cycle(tidy)]
fn tidy_loop(
    alloc: Global,
    temps: u32,
    code: List<Stm>,
    liveness: &mut Liveness,
) -> Result<List<Stm>, AllocError>
    ensures live { IfOk result (λ left. liveness.new ≡ passed (Stm.Loop code) liveness.old) }
    ensures left { IfOk result (IsLeft temps (turning liveness.old code) code) }
{
    let step = turn_in(&code, liveness);
    let (code, ()) = both(code, step)?;
    let left = tidy_code(alloc, temps, code, liveness)?;
    liveness.turn(Row::Start(0));
    liveness.leave();
    Ok(left)
}

// What becomes of the statements of a block.
#[cycle(tidy)]
fn tidy_block(
    alloc: Global,
    temps: u32,
    code: List<Stm>,
    liveness: &mut Liveness,
) -> Result<List<Stm>, AllocError>
    ensures live { IfOk result (λ left. liveness.new ≡ passed (Stm.Block code) liveness.old) }
    ensures left { IfOk result (IsLeft temps (entered liveness.old liveness.old.live liveness.old.around.none) code) }
{
    let (code, ()) = both(code, liveness.enter(Row::Live, Row::Empty))?;
    let left = tidy_code(alloc, temps, code, liveness)?;
    liveness.leave();
    Ok(left)
}
