// The first and the last position of each temporary: one walk from the end of a body to its start.

ghost use Rattle.std.specs.Prelude.{◌≡◌, ◌∷◌, [], false, true, map, IfOk, OnOk};
ghost use Rattle.mv_ir.specs.Live.{all_marks};
ghost use Rattle.mv_regalloc.specs.Rows.{sets, own_trees, with_all_reads, put_bit, live_before, rows_in_order, stm_rows};
ghost use Rattle.mv_regalloc.specs.Shared.{row_of, walked};
ghost use Rattle.mv_regalloc.specs.Spanned.{AreSpansOf};

use crate::live::{live_loop, live_params, live_plain};
use crate::liveness::{Liveness, Row};
pub use crate::table::Spans;
use mv_ir::body::Body;
use mv_ir::stm::Stm;
use mv_num::list::List;
use std::alloc::{AllocError, Global};

// Walks over some code from its end, as `live_code` does, and marks its positions.
#[cycle(spans)]
fn mark_code(code: &List<Stm>, liveness: &mut Liveness) -> Result<(), AllocError>
    ensures { OnOk result (liveness.new ≡ walked liveness.old
        (live_before (map stm_rows code.now) (sets liveness.old.around liveness.old.live))
        (rows_in_order (map stm_rows code.now) (sets liveness.old.around liveness.old.live))) }
{
    let stms = code.as_slice();
    for done in 0..stms.len() {
        mark_stm(&stms[stms.len() - 1 - done], liveness)?;
    }
    Ok(())
}

#[cycle(spans)]
#[tactic(auto, using(crate::proofs::RowEquations::marked_stms))]
fn mark_stm(stm: &Stm, liveness: &mut Liveness) -> Result<(), AllocError>
    ensures { OnOk result (liveness.new ≡ walked liveness.old
        ((stm_rows stm.now).live (sets liveness.old.around liveness.old.live))
        ((stm_rows stm.now).rows (sets liveness.old.around liveness.old.live))) }
{
    match stm {
        Stm::Set(t, _) => mark_plain(stm, Some(*t), liveness),
        Stm::SetGlobal(_, _) => mark_plain(stm, None, liveness),
        Stm::Divide(t, _, _, _) => mark_plain(stm, Some(*t), liveness),
        Stm::Check(_, _) => mark_plain(stm, None, liveness),
        Stm::Read(t, _, _) => mark_plain(stm, Some(*t), liveness),
        Stm::Write(_, _, _) => mark_plain(stm, None, liveness),
        Stm::Zero(_) => mark_plain(stm, None, liveness),
        Stm::If(_, a, b) => {
            liveness.save(Row::Live)?;
            mark_code(b, liveness)?;
            liveness.save(Row::Live)?;
            liveness.turn(Row::Saved(1));
            mark_code(a, liveness)?;
            liveness.join(Row::Saved(0))?;
            liveness.forget();
            liveness.forget();
            mark_plain(stm, None, liveness)
        }
        Stm::Loop(b) => mark_loop(b, liveness),
        Stm::Block(b) => mark_block(b, liveness),
        Stm::Break(n) => mark_jump(stm, Row::Behind(*n), liveness),
        Stm::Back(n) => mark_jump(stm, Row::Start(*n), liveness),
        Stm::Call(t, _, _) => mark_plain(stm, *t, liveness),
        Stm::Known(t, _, _) => mark_plain(stm, *t, liveness),
        Stm::Return(_) => mark_jump(stm, Row::Empty, liveness),
    }
}

// A path that goes back in a loop is live at its start again.
#[cycle(spans)]
fn mark_loop(code: &List<Stm>, liveness: &mut Liveness) -> Result<(), AllocError>
    ensures { OnOk result (liveness.new ≡ walked liveness.old
        ((stm_rows (Stm.Loop code.now)).live (sets liveness.old.around liveness.old.live))
        ((stm_rows (Stm.Loop code.now)).rows (sets liveness.old.around liveness.old.live))) }
{
    liveness.save(Row::Live)?;
    live_loop(code, liveness)?;
    liveness.enter(Row::Saved(0), Row::Live)?;
    mark_code(code, liveness)?;
    liveness.turn(Row::Start(0));
    liveness.leave();
    liveness.forget();
    liveness.mark(None)
}

#[cycle(spans)]
fn mark_block(code: &List<Stm>, liveness: &mut Liveness) -> Result<(), AllocError>
    ensures { OnOk result (liveness.new ≡ walked liveness.old
        ((stm_rows (Stm.Block code.now)).live (sets liveness.old.around liveness.old.live))
        ((stm_rows (Stm.Block code.now)).rows (sets liveness.old.around liveness.old.live))) }
{
    liveness.enter(Row::Live, Row::Empty)?;
    mark_code(code, liveness)?;
    liveness.leave();
    liveness.mark(None)
}

// The position of a statement that goes on elsewhere, where a set is live.
fn mark_jump(stm: &Stm, row: Row, liveness: &mut Liveness) -> Result<(), AllocError>
    ensures { OnOk result (liveness.new ≡ walked liveness.old
        (with_all_reads (own_trees stm.now) (row_of liveness.old row))
        (with_all_reads (own_trees stm.now) (row_of liveness.old row) ∷ [])) }
{
    liveness.turn(row);
    mark_plain(stm, None, liveness)
}

// The position of a statement, before those of statements within it, and the temporary that it writes.
fn mark_plain(stm: &Stm, written: Option<u32>, liveness: &mut Liveness) -> Result<(), AllocError>
    ensures { OnOk result (liveness.new ≡ walked liveness.old
        (with_all_reads (own_trees stm.now) (put_bit written false liveness.old.live))
        (put_bit written true (with_all_reads (own_trees stm.now) (put_bit written false liveness.old.live)) ∷ [])) }
{
    live_plain(stm, written, liveness)?;
    liveness.mark(written)
}

/// The spans of a body's temporaries.
pub fn spans_of(alloc: Global, body: &Body) -> Result<Spans, AllocError>
    ensures { IfOk result (λ spans. AreSpansOf (all_marks body.now) body.now.temps spans) }
{
    let mut liveness = Liveness::new(alloc, body.temps as usize)?;
    mark_code(&body.code, &mut liveness)?;
    live_params(&mut liveness, body.params)?;
    liveness.mark(None)?;
    liveness.spans(alloc)
}
