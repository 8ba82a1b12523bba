// Where temporaries are live: a walk over some code from its end to its start.

ghost use Rattle.std.specs.Prelude.{◌≡◌, false, map, OnOk};
ghost use Rattle.mv_regalloc.specs.Rows.{own_trees, put_bit, sets, with_all_reads, live_before, stm_rows};
ghost use Rattle.mv_regalloc.specs.Shared.{with_live};
ghost use Rattle.mv_regalloc.specs.Spanned.{with_params};

use crate::liveness::{Liveness, Row};
use crate::reads::live_own;
use mv_ir::stm::Stm;
use mv_num::list::List;
use std::alloc::AllocError;

/// The temporary that a statement writes isn't live before it, and those that its own trees read are.
pub fn live_plain(
    stm: &Stm,
    written: Option<u32>,
    liveness: &mut Liveness,
) -> Result<(), AllocError>
    ensures { OnOk result (
        liveness.new ≡ with_live liveness.old (with_all_reads (own_trees stm.now) (put_bit written false liveness.old.live))
        ) }
{
    liveness.remove_some(written)?;
    live_own(stm, liveness)
}

/// The parameters are there at the start.
#[tactic(auto, using(crate::proofs::Positions::params_more))]
pub fn live_params(liveness: &mut Liveness, params: u32) -> Result<(), AllocError>
    ensures { OnOk result (liveness.new ≡ with_live liveness.old (with_params params liveness.old.live)) }
{
    for param in 0..params {
        liveness.insert(param)?;
    }
    Ok(())
}

/// From what is live behind some code to what is live before it.
#[cycle(live)]
pub fn live_code(code: &List<Stm>, liveness: &mut Liveness) -> Result<(), AllocError>
    ensures { OnOk result (
        liveness.new ≡ with_live liveness.old (live_before (map stm_rows code.now) (sets liveness.old.around liveness.old.live))
        ) }
{
    let stms = code.as_slice();
    for done in 0..stms.len() {
        live_stm(&stms[stms.len() - 1 - done], liveness)?;
    }
    Ok(())
}

/// From what is live behind a statement to what is live before it.
#[cycle(live)]
#[tactic(auto, using(crate::proofs::RowEquations::live_stms))]
pub fn live_stm(stm: &Stm, liveness: &mut Liveness) -> Result<(), AllocError>
    ensures { OnOk result (
        liveness.new ≡ with_live liveness.old ((stm_rows stm.now).live (sets liveness.old.around liveness.old.live))
        ) }
{
    match stm {
        Stm::Set(t, _) => live_plain(stm, Some(*t), liveness),
        Stm::SetGlobal(_, _) => live_plain(stm, None, liveness),
        Stm::Divide(t, _, _, _) => live_plain(stm, Some(*t), liveness),
        Stm::Check(_, _) => live_plain(stm, None, liveness),
        Stm::Read(t, _, _) => live_plain(stm, Some(*t), liveness),
        Stm::Write(_, _, _) => live_plain(stm, None, liveness),
        Stm::Zero(_) => Ok(()),
        Stm::If(_, a, b) => {
            liveness.save(Row::Live)?;
            live_code(b, liveness)?;
            liveness.save(Row::Live)?;
            liveness.turn(Row::Saved(1));
            live_code(a, liveness)?;
            liveness.join(Row::Saved(0))?;
            liveness.forget();
            liveness.forget();
            live_plain(stm, None, liveness)
        }
        Stm::Loop(b) => live_loop(b, liveness),
        Stm::Block(b) => live_block(b, liveness),
        Stm::Break(n) => {
            liveness.turn(Row::Behind(*n));
            Ok(())
        }
        Stm::Back(n) => {
            liveness.turn(Row::Start(*n));
            Ok(())
        }
        Stm::Call(t, _, _) => live_plain(stm, *t, liveness),
        Stm::Known(t, _, _) => live_plain(stm, *t, liveness),
        Stm::Return(_) => {
            liveness.turn(Row::Empty);
            live_plain(stm, None, liveness)
        }
    }
}

/// From what is live behind a loop to what is live at its start: a path that goes back goes through the start again.
#[cycle(live)]
#[tactic(auto, using(crate::proofs::RowEquations::live_loop))]
pub fn live_loop(code: &List<Stm>, liveness: &mut Liveness) -> Result<(), AllocError>
    ensures { OnOk result (
        liveness.new ≡ with_live liveness.old ((stm_rows (Stm.Loop code.now)).live (sets liveness.old.around liveness.old.live))
        ) }
{
    liveness.enter(Row::Live, Row::Empty)?;
    liveness.turn(Row::Empty);
    live_code(code, liveness)?;
    liveness.leave();
    Ok(())
}

/// From what is live behind a block to what is live at its start.
#[cycle(live)]
#[tactic(auto, using(crate::proofs::RowEquations::live_block))]
pub fn live_block(code: &List<Stm>, liveness: &mut Liveness) -> Result<(), AllocError>
    ensures { OnOk result (
        liveness.new ≡ with_live liveness.old ((stm_rows (Stm.Block code.now)).live (sets liveness.old.around liveness.old.live))
        ) }
{
    liveness.enter(Row::Live, Row::Empty)?;
    live_code(code, liveness)?;
    liveness.leave();
    Ok(())
}
